// Hexadecimal digits: what one is worth, whether a text has digits alone, and the bytes and words that a text holds.
//
// The contracts cite `specs/Digits.antt`.
#![tactic(auto)]

ghost use Rattle.std.specs.Prelude.{◌≡◌, ◌≤◌};
ghost use Rattle.text_digits.specs.Digits.{hex_value, all_below, digit_at, hex_byte_at, hex_word_at};

// The value of a hexadecimal digit, or 16: no Option, since `hex_byte_at` counts with it.
fn hex_value(byte: u8) -> u8
    ensures { (result ≡ hex_value byte) × (result ≤ 16) }
{
    match byte {
        b'0'..=b'9' => byte - b'0',
        b'A'..=b'F' => byte - b'A' + 10,
        _ => 16,
    }
}

// Whether a text has digits of this base alone.
#[tactic(auto, unfolding(crate::specs::Digits::all_below))]
pub fn all_below(base: u8, text: &[u8]) -> bool
    ensures { result ≡ all_below base text.now }
{
    text.iter().all(|byte| hex_value(*byte) < base)
}

// The value of the digit at a place, 16 where there is none: no Option, as for `hex_value`.
#[tactic(auto, unfolding(crate::specs::Digits::digit_at))]
pub fn digit_at(text: &[u8], at: usize) -> u8
    ensures { (result ≡ digit_at text.now at) × (result ≤ 16) }
{
    hex_value(text.get(at).copied().unwrap_or(0))
}

// The byte that the two hexadecimal digits at a place are.
#[tactic(auto, using(crate::proofs::Laws::no_digit), unfolding(crate::specs::Digits::hex_byte_at))]
pub fn byte_at(text: &[u8], at: usize) -> u8
    ensures { result ≡ hex_byte_at text.now at }
{
    let high = usize::from(digit_at(text, at));
    let low = usize::from(digit_at(text, at.saturating_add(1)));
    ((16 * high + low) % 256) as u8
}

// The word that the four hexadecimal digits at a place are.
#[tactic(auto, using(crate::proofs::Laws::no_byte), unfolding(crate::specs::Digits::hex_word_at))]
pub fn word_at(text: &[u8], at: usize) -> u16
    ensures { result ≡ hex_word_at text.now at }
{
    let high = byte_at(text, at);
    let low = byte_at(text, at.saturating_add(2));
    u16::from_be_bytes([high, low])
}
