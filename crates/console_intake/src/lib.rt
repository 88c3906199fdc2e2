// The lines of a script that comes in pieces: a line that a piece holds whole is found where it stands, and one that a border cuts is kept.
//
// The contracts cite `specs/Intake.antt`.
#![tactic(auto)]

ghost use Rattle.std.specs.Prelude.{◌≡◌};
ghost use Rattle.console_intake.specs.Intake.{open_line, LineFound};

use text_parse as parse;
use text_parts as parts;
use text_pieces::Found;
use text_put as text;

// How many bytes of a line are kept.
pub const LINE: usize = 40001;

// The line that is open, as far as it is kept.
#[tactic(auto, using(crate::proofs::Laws::open_is, crate::proofs::Laws::open_not))]
pub fn open_line(kept: &[u8], seen: usize) -> &[u8]
    ensures { result.now ≡ open_line seen kept.now }
{
    let line = parts::first(kept, seen);
    if parse::index_of(b'\n', line) == line.len() {
        return line;
    }
    parts::first(kept, 0)
}

// Takes in a piece up to the newline that ends the line that is open, or all of it.
// Piece and what is kept are lent apart: the program owns all memory.
#[tactic(auto, using(crate::proofs::Laws::goes_on, crate::proofs::Laws::ends_kept, crate::proofs::Laws::ends_direct))]
pub fn next(seen: usize, kept: &mut [u8; LINE], piece: &[u8]) -> Found
    ensures { LineFound (open_line seen kept.old) piece.now kept.new result }
{
    let begun = open_line(kept, seen).len();
    let end = parse::index_of(b'\n', piece);
    if end == piece.len() {
        return Found::Open(text::put(kept, begun, piece));
    }
    let used = end + 1;
    if begun == 0 {
        return Found::Whole {
            direct: true,
            count: end,
            used,
        };
    }
    let count = text::put(kept, begun, &piece[0..end]);
    Found::Whole {
        direct: false,
        count,
        used,
    }
}
