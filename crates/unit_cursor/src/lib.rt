// The cursor of a buffer: whether it is here, set here, cleared here. It is a bit of each location's word, and the number of set bits is
// kept with the words by every store. The rest of the unit knows the cursor by these calls alone.
//
// The contracts cite `specs/Cursor.antt`; `proofs/Laws.antt` has the law of one store.
#![tactic(auto)]

ghost use Rattle.std.specs.Prelude.{◌≡◌, ◌≤◌};
ghost use Rattle.ground_setup.specs.Setup.{size_of};
ghost use Rattle.unit_cursor.specs.Cursor.{buffer, cursors, cursor_bit, cursors_in, recounted, stored, cursor_here, any_set, cursor_set, marked_at, other_of, bare_at, set_here, cleared_here};

use ground_location as location;
use ground_setup as setup;
use ground_setup::Size;
use ground_words as words;

// What a buffer holds of its cursor beside its words: the number of set cursor bits.
#[derive(Clone, Copy, PartialEq, Eq)]
pub struct Cursor {
    pub count: u16,
}

// A word's cursor bit as a number.
fn bit_of(word: u16) -> u16
    ensures { (result ≡ cursor_bit word) × (result ≤ 1) }
{
    u16::from(location::cursor_of(word))
}

// The number of set cursor bits after a location's word gave way to another one.
#[tactic(auto, unfolding(crate::specs::Cursor::recounted))]
fn recount(count: u16, old: u16, new: u16) -> u16
    ensures { result ≡ recounted count old new }
{
    count.wrapping_sub(bit_of(old)).wrapping_add(bit_of(new))
}

// The word with its cursor bit set or cleared.
fn with_cursor(word: u16, on: bool) -> u16
    ensures { result ≡ cursor_set on word }
{
    location::word_of(location::data_of(word), on, location::written_of(word))
}

// The other location of an even-odd pair.
fn other(a: usize) -> usize
    ensures { result ≡ other_of a }
{
    if a % 2 == 0 { a + 1 } else { a - 1 }
}

impl Cursor {
    // The cursor of a buffer's words, counted.
    pub fn counted(words: &[u16], size: Size) -> Cursor
        ensures { result ≡ cursors (cursors_in (size_of size) words.now) }
    {
        let count = (0..setup::size_of(size))
            .map(|i| words::word_at(words, i))
            .filter(|word| location::cursor_of(*word))
            .count();
        Cursor {
            count: count as u16,
        }
    }

    // Stores a word in a location.
    pub fn store(&mut self, words: &mut [u16], a: usize, word: u16)
        ensures { buffer words.new self.new ≡ stored a word (buffer words.old self.old) }
    {
        self.count = recount(self.count, words::word_at(words, a), word);
        words::put_word(words, a, word);
    }

    // Whether the cursor is here.
    pub fn is_here(self, words: &[u16], a: usize) -> bool
        ensures { result ≡ cursor_here (buffer words.now self) a }
    {
        location::cursor_of(words::word_at(words, a))
    }

    // Whether there is any cursor, by the number of them alone.
    pub fn is_set(self) -> bool
        ensures { result ≡ any_set self }
    {
        self.count != 0
    }

    // Sets or clears the cursor bit of a location.
    fn mark(&mut self, words: &mut [u16], a: usize, on: bool)
        ensures { buffer words.new self.new ≡ marked_at on a (buffer words.old self.old) }
    {
        let word = with_cursor(words::word_at(words, a), on);
        self.store(words, a, word);
    }

    // Clears the cursor bit of a location, where it is set.
    #[tactic(auto, unfolding(crate::specs::Cursor::bare_at))]
    fn make_bare(&mut self, words: &mut [u16], a: usize)
        ensures { buffer words.new self.new ≡ bare_at a (buffer words.old self.old) }
    {
        if self.is_here(words, a) {
            self.mark(words, a, false);
        }
    }

    // Sets the cursor here, and clears it at the other location of the pair.
    #[tactic(auto, unfolding(crate::specs::Cursor::set_here))]
    pub fn set_here(&mut self, words: &mut [u16], a: usize)
        ensures { buffer words.new self.new ≡ set_here a (buffer words.old self.old) }
    {
        self.make_bare(words, other(a));
        self.mark(words, a, true);
    }

    // Clears the cursor here.
    #[tactic(auto, unfolding(crate::specs::Cursor::cleared_here))]
    pub fn clear_here(&mut self, words: &mut [u16], a: usize)
        ensures { buffer words.new self.new ≡ cleared_here a (buffer words.old self.old) }
    {
        self.mark(words, a, false);
    }
}
