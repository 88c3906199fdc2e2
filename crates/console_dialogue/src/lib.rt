// The console over a script that comes in pieces: each line that is whole is answered by one unit, and its answer put into a buffer that
// the caller lends.
//
// The contracts cite `specs/Dialogue.antt`.
#![tactic(auto)]

ghost use Rattle.std.specs.Prelude.{◌≡◌, [], ◌+◌, ◌≤◌, ◌<◌, length};
ghost use Rattle.text_put.specs.Text.{put_at, end_of};
ghost use Rattle.console_dialogue.specs.Dialogue.{first_dialogue, to_come, TakesIn, LeavesOver};

use console_intake as intake;
use console_intake::LINE;
use console_session as session;
use device_2250::Device;
use ground_setup::Size;
use text_parts as parts;
use text_pieces as pieces;
use text_pieces::{Fed, Found};

// The unit between two pieces, and how many bytes of the line that is open are kept.
#[derive(Clone, Copy)]
pub struct Dialogue {
    pub device: Device,
    pub seen: usize,
}

impl Dialogue {
    // A fresh unit of 4,096, and no line open.
    pub fn begin() -> Dialogue
        ensures { result ≡ first_dialogue }
    {
        Dialogue {
            device: Device::fresh(Size::K4),
            seen: 0,
        }
    }

    // Takes in the first line of a piece, or what there is of it, where its answer finds room.
    #[tactic(auto, using(crate::proofs::Laws::takes_line, crate::proofs::Laws::takes_open))]
    fn advance(&mut self, kept: &mut [u8; LINE], piece: &[u8], out: &mut [u8], at: usize) -> Fed
        requires { (at + 487600 ≤ length out.old) × (0 < length piece.now) }
        ensures takes_in { TakesIn self.old kept.old piece.now out.old at result self.new kept.new out.new }
        ensures used_nonzero { 0 < result.used }
    {
        match intake::next(self.seen, kept, piece) {
            Found::Whole {
                direct,
                count,
                used,
            } => {
                let line = pieces::first_found(direct, count, piece, kept);
                self.seen = 0;
                let end = session::answer(&mut self.device, line, out, at);
                Fed { used, end }
            }
            Found::Open(seen) => {
                self.seen = seen;
                Fed {
                    used: piece.len(),
                    end: at,
                }
            }
        }
    }

    // Feeds a piece: the answers of the lines that are whole stand one behind the other at the front of the buffer. Stops before the
    // piece's end only where fewer than 487,600 bytes are free.
    #[tactic(auto, using(crate::proofs::Laws::taking_none, crate::proofs::Laws::leaves))]
    pub fn feed(&mut self, kept: &mut [u8; LINE], piece: &[u8], out: &mut [u8]) -> Fed
        ensures takes_in { TakesIn self.old kept.old piece.now out.old 0 result self.new kept.new out.new }
        ensures leaves_over { LeavesOver piece.now out.old result }
    {
        let mut used = 0;
        let mut end = 0;
        // A while: a line uses as many bytes as it has.
        while used < piece.len() && out.len() - end >= 487600 {
            let fed = self.advance(kept, parts::behind(piece, used), out, end);
            used += fed.used;
            end = fed.end;
        }
        Fed { used, end }
    }

    // The end of the script: the last line is answered where it wants its newline.
    pub fn close(mut self, kept: &[u8; LINE], out: &mut [u8]) -> usize
        ensures value { result ≡ end_of out.old 0 (to_come self kept.now []) }
        ensures out_after { out.new ≡ put_at out.old 0 (to_come self kept.now []) }
    {
        let line = intake::open_line(kept, self.seen);
        if line.len() == 0 {
            return 0;
        }
        session::answer(&mut self.device, line, out, 0)
    }
}
