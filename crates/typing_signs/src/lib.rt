// What stands at a location, as the keyboard sees it: an order and its code, a new line; and the addresses around it.
//
// The contracts cite `specs/Signs.antt`.
#![tactic(auto)]

ghost use Rattle.std.specs.Prelude.{◌≡◌};
ghost use Rattle.typing_signs.specs.Signs.{word_at, byte_at, code_at, back_of, even_of, order_at, line_at};

use ground_location as location;
use ground_setup as setup;
use ground_setup::Size;
use ground_words as words;

// The locations that the keys look at: the words of a buffer, and its size.
#[derive(Clone, Copy)]
pub struct Locations<'a> {
    pub words: &'a [u16],
    pub size: Size,
}

// The address k before another, round the buffer.
pub fn back(size: Size, at: usize, k: u8) -> usize
    ensures { result ≡ back_of size at k }
{
    let here = setup::wrap(size, at);
    let round = setup::size_of(size) - usize::from(k);
    setup::wrap(size, here + round)
}

// The even address of a location's pair.
pub fn even(size: Size, at: usize) -> usize
    ensures { result ≡ even_of size at }
{
    let here = setup::wrap(size, at);
    here - here % 2
}

impl<'a> Locations<'a> {
    // The word at an address.
    fn word_at(self, at: usize) -> u16
        ensures { result ≡ word_at self.entry.words.now self.entry.size at }
    {
        words::word_at(self.words, setup::wrap(self.size, at))
    }

    // The data at an address.
    #[tactic(auto, unfolding(crate::specs::Signs::byte_at))]
    fn byte_at(self, at: usize) -> u8
        ensures { result ≡ byte_at self.entry.words.now self.entry.size at }
    {
        location::data_of(self.word_at(at))
    }

    // The code of an order at an address.
    #[tactic(auto, unfolding(crate::specs::Signs::code_at))]
    pub fn code_at(self, at: usize) -> u8
        ensures { result ≡ code_at self.entry.words.now self.entry.size at }
    {
        self.byte_at(setup::ahead(self.size, at, 1))
    }

    // Whether an order begins at an address.
    #[tactic(auto, unfolding(crate::specs::Signs::order_at))]
    pub fn order_at(self, at: usize) -> bool
        ensures { result ≡ order_at self.entry.words.now self.entry.size at }
    {
        setup::wrap(self.size, at) % 2 == 0 && self.byte_at(at) == 0x2A
    }

    // Whether an address holds a new line.
    #[tactic(auto, unfolding(crate::specs::Signs::line_at))]
    pub fn line_at(self, at: usize) -> bool
        ensures { result ≡ line_at self.entry.words.now self.entry.size at }
    {
        self.byte_at(at) == 0x15
    }
}
