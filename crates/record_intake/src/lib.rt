// Records that come in pieces: finds the next one that is whole, and keeps of one that a border cuts what can be needed.
//
// The contracts cite `specs/Intake.antt`.
#![tactic(auto)]

ghost use Rattle.std.specs.Prelude.{◌≡◌, List, ℕ, ◌+◌, ◌-◌, ◌≤◌, ◌<◌, min, length, take, IfSome};
ghost use Rattle.text_put.specs.Text.{put_at};
ghost use Rattle.record_format.specs.Records.{extent_of, header_of, HeaderWithin, needed_in};
ghost use Rattle.record_intake.specs.Intake.{OpenRecord, open_at, open_of, FoundIn, UsedIn};

use record_format as records;
use record_format::Header;
use text_parts as parts;
use text_pieces::Found;
use text_put as text;

// How many bytes of a record can be needed: its header, and the most that any kind needs of its payload.
pub const KEPT: usize = 32779;

// How many bytes have come of the record that is open, of which the first are kept. A count, as `open_at` of specs is: 0 where none is open.
pub fn open_at(seen: usize, kept: &[u8]) -> usize
    ensures { (result ≡ open_at seen kept.now) × (result < 4294967302) }
{
    let Header::Record { length, .. } = records::read_header(kept) else {
        return 0;
    };
    if seen < 6 + length { seen } else { 0 }
}

// How many bytes have come of the record that is open behind what was found: none where it is whole.
pub fn open_of(found: Found) -> usize
    ensures { result ≡ open_of found }
{
    match found {
        Found::Whole { .. } => 0,
        Found::Open(seen) => seen,
    }
}

// How many bytes the record at the front of a piece has, where all of it is there.
fn whole(piece: &[u8]) -> Option<usize>
    ensures { IfSome result (λ n. (6 ≤ length piece.now) × (n ≡ extent_of piece.now) × (n ≤ length piece.now)) }
{
    let Header::Record { length, .. } = records::read_header(piece) else {
        return None;
    };
    if piece.len() < 6 + length {
        return None;
    }
    Some(6 + length)
}

// Keeps the bytes of a piece that fall among the first `most` of a record, `had` of which came before.
fn keep(kept: &mut [u8], had: usize, most: usize, piece: &[u8])
    ensures { kept.new ≡ put_at kept.old had (take (most - had) piece.now) }
{
    text::put(kept, had, parts::first(piece, most.saturating_sub(had)));
}

// The header of a record, `had` bytes of which came before the piece.
fn head(kept: &mut [u8], had: usize, piece: &[u8], some: usize) -> Header
    ensures kept_after { kept.new ≡ put_at kept.old had (take (6 - had) piece.now) }
    ensures value { (result ≡ header_of (take (min some 6) kept.new)) × HeaderWithin result }
{
    keep(kept, had, 6, piece);
    records::read_header(parts::first(kept, some.min(6)))
}

// How many bytes of a record of this length and kind can be needed.
fn needed(length: usize, kind: usize) -> usize
    ensures { (result ≡ 6 + min length (needed_in kind)) × (result ≤ 32779) }
{
    6 + length.min(records::kind_row(kind).unwrap_or(0))
}

// Takes in a piece of a record of which `had` bytes came before.
fn gather(had: usize, kept: &mut [u8; KEPT], piece: &[u8]) -> Found
    requires { (had < extent_of kept.old) × (had < 4294967302) }
    ensures by_index { (s : List ℕ) → OpenRecord had kept.old s → FoundIn s piece.now kept.new result }
    ensures used_in { UsedIn piece.now kept.new result }
{
    let some = had + piece.len();
    let Header::Record { length, kind } = head(kept, had, piece, some) else {
        return Found::Open(some);
    };
    let count = needed(length, kind);
    keep(kept, had, count, piece);
    if some < 6 + length {
        return Found::Open(some);
    }
    Found::Whole {
        direct: false,
        count,
        used: 6 + length - had,
    }
}

// Takes in a piece until a record is whole. `seen` bytes of the record that is open have come, the first of them are kept.
// Piece and what is kept are lent apart: the program owns all memory.
pub fn next(seen: usize, kept: &mut [u8; KEPT], piece: &[u8]) -> Found
    ensures by_index { (s : List ℕ) → OpenRecord (open_at seen kept.old) kept.old s → FoundIn s piece.now kept.new result }
    ensures used_in { UsedIn piece.now kept.new result }
{
    let had = open_at(seen, kept);
    if had == 0
        && let Some(size) = whole(piece)
    {
        return Found::Whole {
            direct: true,
            count: size,
            used: size,
        };
    }
    gather(had, kept, piece)
}
