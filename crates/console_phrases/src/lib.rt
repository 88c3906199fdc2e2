// The pieces that printed lines are made of: a word with two numbers, one of two words, and texts one behind the other.
#![tactic(auto)]

ghost use Rattle.std.specs.Prelude.{◌≡◌, ◌<◌, cond, [], ℕ, List};
ghost use Rattle.text_put.specs.Text.{end_of};
ghost use Rattle.console_phrases.specs.Phrases.{paired, each_of};

use text_put::{Decimal, Printed};

// A word and two numbers behind it.
#[derive(Clone, Copy)]
pub struct Paired<'a>(pub &'a [u8], pub u16, pub u16);

impl<'a> Printed for Paired<'a> {
    ghost text = { λ p. paired p.0.now p.1 p.2 };

    fn put(self, buffer: &mut [u8], at: usize) -> usize {
        let x = Decimal(usize::from(self.1));
        let y = Decimal(usize::from(self.2));
        (self.0, x, b" ", y).put(buffer, at)
    }
}

// One of two words, by a flag.
pub fn either<'a>(flag: bool, yes: &'a [u8], no: &'a [u8]) -> &'a [u8]
    ensures { result.now ≡ cond flag yes.now no.now }
{
    if flag { yes } else { no }
}

// Puts nothing: where a text that is yet to come begins.
#[tactic(auto, unfolding(text_put::specs::Text::end_of))]
pub fn put_nothing(buffer: &[u8], at: usize) -> usize
    ensures { result ≡ end_of buffer.now at [] }
{
    at.min(buffer.len())
}

// Parts with a text each, counted from 0 on.
// Not an Iterator: what a part is at each number is the promise, and each_of speaks of it.
pub trait Row: Copy {
    type Part: Printed;

    ghost count: { Self → ℕ };

    ghost text_of: { Self → ℕ → List ℕ };

    // How many parts there are.
    fn count(self) -> usize
        ensures { result ≡ count self };

    // The part of a number.
    fn part(self, i: usize) -> Self::Part
        ensures { i < count self → Self.Part.text result ≡ text_of self i };
}

// The parts of a row, one behind the other.
#[derive(Clone, Copy)]
pub struct Each<R>(pub R);

impl<R: Row> Printed for Each<R> {
    ghost text = { λ e. each_of (R.text_of e.0) (R.count e.0) };

    #[tactic(auto, using(crate::proofs::Laws::none_of, crate::proofs::Laws::one_more_of, text_put::proofs::Laws::put_no_text, text_put::proofs::Laws::end_join, text_put::proofs::Laws::put_join))]
    fn put(self, buffer: &mut [u8], at: usize) -> usize {
        let mut end = put_nothing(buffer, at);
        for i in 0..self.0.count() {
            end = self.0.part(i).put(buffer, end);
        }
        end
    }
}
