// What comes in pieces: what is found when a piece is taken in, and how much of one was used.
#![tactic(auto)]

ghost use Rattle.std.specs.Prelude.{◌≡◌, cond, take};

use text_parts as parts;

// What is found when a piece is taken in behind what is open, a record or a line.
#[derive(Clone, Copy)]
pub enum Found {
    // It is whole: so many bytes of the piece were used for it; its first `count` bytes stand at the front of the piece (`direct`), or
    // of what is kept. No slice in their place: one of what is kept would hold on to that.
    Whole {
        direct: bool,
        count: usize,
        used: usize,
    },
    // It is open still: so many bytes of it have come, or are kept.
    Open(usize),
}

// How much of a piece was used, and where the text that it gave ends in the buffer.
#[derive(Clone, Copy)]
pub struct Fed {
    pub used: usize,
    pub end: usize,
}

// The first bytes of what was found whole.
pub fn first_found<'a>(direct: bool, count: usize, piece: &'a [u8], kept: &'a [u8]) -> &'a [u8]
    ensures { result.now ≡ take count (cond direct piece.now kept.now) }
{
    parts::first(if direct { piece } else { kept }, count)
}
