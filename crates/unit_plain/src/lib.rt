// Plain data: what stands ahead where no order begins and nothing is wrong.
//
// The contracts cite `specs/Plain.antt`; `proofs/Laws.antt` says what a step makes of them.
#![tactic(auto)]

ghost use Rattle.std.specs.Prelude.{◌≡◌, ◌≤◌, length};
ghost use Rattle.unit_plain.specs.Plain.{clear_below, plain_pair, plain_data, span_of, plain_at};

use ground_location as location;
use ground_setup as setup;
use ground_setup::Size;

// The addresses below this have more than four words ahead of them before the buffer ends.
pub fn clear_below(words: &[u16], size: Size) -> usize
    ensures { result ≡ clear_below size (length words.now) }
{
    setup::size_of(size).min(words.len()).saturating_sub(4)
}

// Whether two words are plain data.
fn is_plain(w: u16, v: u16) -> bool
    ensures { result ≡ plain_pair w v }
{
    location::written_of(w)
        && location::written_of(v)
        && location::good(w)
        && location::good(v)
        && location::data_of(w) != 0x2A
}

// Whether the first two of four words, or all where they are coordinates, are plain data.
pub fn is_data(placing: bool, a: u16, b: u16, c: u16, d: u16) -> bool
    ensures { result ≡ plain_data placing a b c d }
{
    is_plain(a, b) && (!placing || is_plain(c, d))
}

// The four bytes that stand at an address: the data of a step that are plain, with more than four words ahead of them.
pub fn plain_at(words: &[u16], size: Size, at: usize, placing: bool) -> Option<(u8, u8, u8, u8)>
    ensures { result ≡ plain_at words.now size at placing }
{
    if clear_below(words, size) <= at {
        return None;
    }
    let a = words[at];
    let b = words[at + 1];
    let c = words[at + 2];
    let d = words[at + 3];
    if !is_data(placing, a, b, c, d) {
        return None;
    }
    Some((
        location::data_of(a),
        location::data_of(b),
        location::data_of(c),
        location::data_of(d),
    ))
}

// How many words the data of a step have.
pub fn span(placing: bool) -> usize
    ensures { (result ≡ span_of placing) × (result ≤ 4) }
{
    if placing { 4 } else { 2 }
}
