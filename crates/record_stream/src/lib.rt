// The listing of standard input on standard output: each piece is taken in by a listing, and the lines that it gives are written.
//
// The contracts cite `specs/Stream.antt`.
#![tactic(auto)]

ghost use Rattle.std.specs.Prelude.{List, ℕ};
ghost use Rattle.std.proofs.Common.{rules};
ghost use Rattle.record_listing.specs.Listing.{PrintedFor};
ghost use Rattle.record_stream.specs.Stream.{Listed, Lists};
ghost use Rattle.record_stream.specs.More.{listed_more};

use record_intake::KEPT;
use record_listing::ListingAt;
use std::io::Stdin;
use text_pieces::Fed;
use text_stream as stream;
use text_stream::{Listener, Streamed};

// A listing, what is kept of the record that is open, and the working store.
#[derive(Drop)]
struct Lister {
    at: ListingAt,
    kept: [u8; KEPT],
    store: [u8; 32768],
}

impl Listener<32768> for Lister {
    ghost Stands = { λ l. Listed l.at l.kept };

    ghost Whole = { PrintedFor };

    ghost small = { Prim.search rules };

    ghost more = { λ l. listed_more l.at l.kept };

    fn begin() -> Lister {
        Lister {
            at: ListingAt::begin(),
            kept: [0; KEPT],
            store: [0; 32768],
        }
    }

    fn feed(&mut self, piece: &[u8], out: &mut [u8; 32768]) -> Fed {
        self.at.feed(&mut self.kept, piece, out, &mut self.store)
    }

    fn close(&mut self, out: &mut [u8; 32768]) -> usize {
        self.at.close(&self.kept, out)
    }
}

// Lists standard input on standard output. That it cannot be read is told, and nothing is closed.
pub fn list(stdin: Stdin) -> Streamed
    ensures { Lists result }
{
    stream::stream::<32768, Lister>(stdin, b"verdict: the input cannot be read\n")
}
