// Text put into a buffer that the caller lends: bytes, decimal numbers, hexadecimal bytes and words, and texts one behind
// the other. What there is no room for is left out; each call answers where the text ends.
#![tactic(auto)]

ghost use Rattle.std.specs.Prelude.{◌≡◌, min, ◌<◌, List, ℕ, ◌++◌};
ghost use Rattle.text_put.specs.Text.{put_at, end_of, decimal_of, hex_digit, hex_byte, hex_word};

// What has a text that can be put.
// Not std's Display, whose law is of a text that was written whole: put_at and end_of say what a buffer too short for it holds.
// Buffer and place are two parameters: the promise is of both.
pub trait Printed: Copy {
    ghost text: { Self → List ℕ };

    // Puts the text into the buffer from a place on.
    fn put(self, buffer: &mut [u8], at: usize) -> usize
        ensures value { result ≡ end_of buffer.old at (text self) }
        ensures buffer_after { buffer.new ≡ put_at buffer.old at (text self) };
}

// Puts a text into the buffer from a place on.
#[tactic(auto, using(crate::proofs::Laws::put_none), unfolding(crate::specs::Text::end_of, crate::specs::Text::put_at))]
pub fn put(buffer: &mut [u8], at: usize, text: &[u8]) -> usize
    ensures value { result ≡ end_of buffer.old at text.now }
    ensures buffer_after { buffer.new ≡ put_at buffer.old at text.now }
{
    if buffer.len() <= at {
        return buffer.len();
    }
    let n = text.len().min(buffer.len() - at);
    // By each byte: a slice's copy would have a static library want one name more of the C library, memmove.
    for i in 0..n {
        buffer[at + i] = text[i];
    }
    at + n
}

impl Printed for &[u8] {
    ghost text = { λ s. s.now };

    fn put(self, buffer: &mut [u8], at: usize) -> usize {
        put(buffer, at, self)
    }
}

impl<const N: usize> Printed for &[u8; N] {
    ghost text = { λ s. s.now };

    fn put(self, buffer: &mut [u8], at: usize) -> usize {
        put(buffer, at, self.as_slice())
    }
}

// A number, printed in decimal.
#[derive(Clone, Copy)]
pub struct Decimal(pub usize);

impl Printed for Decimal {
    ghost text = { λ n. decimal_of n.0 };

    #[tactic(auto, using(crate::proofs::Digits::decimal))]
    fn put(self, buffer: &mut [u8], at: usize) -> usize {
        // An array of its own: io::decimal writes into one.
        let mut digits = [0u8; 20];
        let count = io::decimal(self.0 as u64, &mut digits);
        put(buffer, at, &digits[..count])
    }
}

// A hexadecimal digit, capital.
fn hex_digit(d: u8) -> u8
    requires { d < 16 }
    ensures { result ≡ hex_digit d }
{
    if d < 10 { 48 + d } else { 55 + d }
}

// A byte, printed in two hexadecimal digits.
#[derive(Clone, Copy)]
pub struct HexByte(pub u8);

impl Printed for HexByte {
    ghost text = { λ byte. hex_byte byte.0 };

    fn put(self, buffer: &mut [u8], at: usize) -> usize {
        put(
            buffer,
            at,
            &[hex_digit(self.0 / 16), hex_digit(self.0 % 16)],
        )
    }
}

// A word, printed in four hexadecimal digits.
#[derive(Clone, Copy)]
pub struct HexWord(pub u16);

impl Printed for HexWord {
    ghost text = { λ word. hex_word word.0 };

    fn put(self, buffer: &mut [u8], at: usize) -> usize {
        let [high, low] = self.0.to_be_bytes();
        (HexByte(high), HexByte(low)).put(buffer, at)
    }
}

// Texts one behind the other.
impl<A: Printed, B: Printed> Printed for (A, B) {
    ghost text = { λ p. A.text p.0 ++ B.text p.1 };

    #[tactic(auto, using(crate::proofs::Laws::end_join, crate::proofs::Laws::put_join))]
    fn put(self, buffer: &mut [u8], at: usize) -> usize {
        let middle = self.0.put(buffer, at);
        self.1.put(buffer, middle)
    }
}

impl<A: Printed, B: Printed, C: Printed> Printed for (A, B, C) {
    ghost text = { λ p. A.text p.0 ++ B.text p.1 ++ C.text p.2 };

    fn put(self, buffer: &mut [u8], at: usize) -> usize {
        ((self.0, self.1), self.2).put(buffer, at)
    }
}

impl<A: Printed, B: Printed, C: Printed, D: Printed> Printed for (A, B, C, D) {
    ghost text = { λ p. A.text p.0 ++ B.text p.1 ++ C.text p.2 ++ D.text p.3 };

    fn put(self, buffer: &mut [u8], at: usize) -> usize {
        ((self.0, self.1, self.2), self.3).put(buffer, at)
    }
}

impl<A: Printed, B: Printed, C: Printed, D: Printed, E: Printed> Printed for (A, B, C, D, E) {
    ghost text = { λ p. A.text p.0 ++ B.text p.1 ++ C.text p.2 ++ D.text p.3 ++ E.text p.4 };

    fn put(self, buffer: &mut [u8], at: usize) -> usize {
        ((self.0, self.1, self.2, self.3), self.4).put(buffer, at)
    }
}
