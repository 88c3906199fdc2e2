// The console over standard input and output: each piece is taken in by a dialogue, and the answers to its lines are written.
//
// The contracts cite `specs/Stream.antt`.
#![tactic(auto)]

ghost use Rattle.std.specs.Prelude.{◌≡◌};
ghost use Rattle.std.proofs.Common.{rules};
ghost use Rattle.console_session.specs.Play.{play_of};
ghost use Rattle.console_stream.specs.Stream.{Played, Holds};
ghost use Rattle.console_stream.specs.More.{played_more};

use console_dialogue::Dialogue;
use console_intake::LINE;
use std::io::Stdin;
use text_pieces::Fed;
use text_stream as stream;
use text_stream::{Listener, Streamed};

// A dialogue, and what is kept of the line that is open.
#[derive(Drop)]
struct Holder {
    dialogue: Dialogue,
    kept: [u8; LINE],
}

impl Listener<524288> for Holder {
    ghost Stands = { λ h. Played h.dialogue h.kept };

    ghost Whole = { λ script text. text ≡ play_of script };

    ghost small = { Prim.search rules };

    ghost more = { λ h. played_more h.dialogue h.kept };

    fn begin() -> Holder {
        Holder {
            dialogue: Dialogue::begin(),
            kept: [0; LINE],
        }
    }

    fn feed(&mut self, piece: &[u8], out: &mut [u8; 524288]) -> Fed {
        self.dialogue.feed(&mut self.kept, piece, out)
    }

    fn close(&mut self, out: &mut [u8; 524288]) -> usize {
        self.dialogue.close(&self.kept, out)
    }
}

// Answers the lines of standard input with one unit, a fresh one of 4,096. That it cannot be read is told, and the line that is open has no
// answer.
pub fn hold(stdin: Stdin) -> Streamed
    ensures { Holds result }
{
    stream::stream::<524288, Holder>(stdin, b"console: the input cannot be read\n")
}
