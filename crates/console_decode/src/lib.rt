// The numbers that a text of digits holds, read into a slice that the caller lends: bytes of two digits, words of four, sights
// of one.
//
// The contracts cite `specs/Decode.antt`.
#![tactic(auto)]

ghost use Rattle.std.specs.Prelude.{◌≡◌, ◌*◌, ◌<◌, ℕ, length};
ghost use Rattle.text_digits.specs.Digits.{hex_byte_at, hex_word_at};
ghost use Rattle.console_decode.specs.Decode.{decoded, bytes_in, words_in, sights_in};

use text_digits as digits;

// The byte of an index in a text.
#[tactic(auto, using(crate::proofs::Laws::bytes_ended))]
fn byte_in(text: &[u8], i: usize) -> u8
    ensures { result ≡ hex_byte_at text.now (2 * i) }
{
    digits::byte_at(text, i.saturating_mul(2))
}

// The word of an index in a text.
// Beside byte_in: a word has four digits, and both are one call.
#[tactic(auto, using(crate::proofs::Laws::words_ended))]
fn word_in(text: &[u8], i: usize) -> u16
    ensures { result ≡ hex_word_at text.now (4 * i) }
{
    digits::word_at(text, i.saturating_mul(4))
}

// Reads the number of each index into a slice.
#[tactic(auto, using(crate::proofs::Laws::none_read, crate::proofs::Laws::one_more_read))]
fn read_each<T: Copy, F: Fn(usize) -> T>(out: &mut [T], number: F)
    ghost value: { ℕ → T }
    requires may { (i : ℕ) → i < length out.old → F.pre number i }
    requires is { (i : ℕ) (n : T) → F.post number i n → n ≡ value i }
    ensures { out.new ≡ decoded value (length out.old) }
{
    for (i, slot) in out.iter_mut().enumerate() {
        *slot = number(i);
    }
}

// Reads bytes of two digits each.
pub fn read_bytes(text: &[u8], out: &mut [u8])
    ensures { out.new ≡ bytes_in text.now (length out.old) }
{
    read_each(out, |i| byte_in(text, i))
}

// Reads words of four digits each.
pub fn read_words(text: &[u8], out: &mut [u16])
    ensures { out.new ≡ words_in text.now (length out.old) }
{
    read_each(out, |i| word_in(text, i))
}

// Reads sights of one digit each.
pub fn read_sights(text: &[u8], out: &mut [u8])
    ensures { out.new ≡ sights_in text.now (length out.old) }
{
    read_each(out, |i| digits::digit_at(text, i))
}
