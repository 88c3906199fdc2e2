// Numbers read from text, where a byte stands in one, and what stands before it.
#![tactic(auto)]

ghost use Rattle.std.specs.Prelude.{◌≡◌, ◌≤◌, length, take};
ghost use Rattle.text_parse.specs.Index.{index_of};
ghost use Rattle.text_parse.specs.Parse.{number_from, parsed_of};

// The number that the digits of a short text make.
#[tactic(auto, using(crate::proofs::Laws::digit_from, crate::proofs::Laws::digit_to, crate::proofs::Laws::small, crate::proofs::Laws::no_digit, crate::proofs::Laws::one_digit), unfolding(crate::specs::Parse::number_from))]
fn number_in(text: &[u8]) -> Option<usize>
    requires { length text.now ≤ 5 }
    ensures { result ≡ number_from 0 text.now }
{
    let mut n = 0;
    for byte in text {
        if !byte.is_ascii_digit() {
            return None;
        }
        n = n * 10 + usize::from(*byte - b'0');
    }
    Some(n)
}

// A text as a decimal number of one to five digits.
pub fn number_of(text: &[u8]) -> Option<usize>
    ensures { result ≡ parsed_of text.now }
{
    match text.len() {
        1..=5 => number_in(text),
        _ => None,
    }
}

// How many bytes of a text stand before the first that is this byte; all of them where none is, so that no Option is wanted.
#[tactic(auto, using(crate::proofs::Index::index_here, crate::proofs::Index::index_further, crate::proofs::Index::index_end))]
pub fn index_of(byte: u8, text: &[u8]) -> usize
    ensures { (result ≡ index_of byte text.now) × (result ≤ length text.now) }
{
    // A for: neither position nor take_while proves against index_of.
    for (i, x) in text.iter().enumerate() {
        if *x == byte {
            return i;
        }
    }
    text.len()
}

// What stands in a text before the first that is this byte; all of it where none is.
pub fn before(byte: u8, text: &[u8]) -> &[u8]
    ensures { result.now ≡ take (index_of byte text.now) text.now }
{
    &text[..index_of(byte, text)]
}
