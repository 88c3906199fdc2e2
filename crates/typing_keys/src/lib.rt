// Typing at the cursor: a key of the alphameric keyboard takes the words and the head of a unit, and leaves them as it makes them.
//
// The contracts cite `specs/Keys.antt`.
#![tactic(auto)]

ghost use Rattle.std.specs.Prelude.{◌≡◌, Ok, Some};
ghost use Rattle.unit_cursor.specs.Cursor.{buffer};
ghost use Rattle.unit_head.specs.Head.{unit};
ghost use Rattle.typing_keys.specs.Keys.{cursor_moved, character_stored, key_ended, done_by, sought_in, unit_key};

use ground_location as location;
use ground_refusals::Refusal;
use ground_setup as setup;
use ground_setup::Size;
use typing_keyboard as keyboard;
use typing_keyboard::{Act, Press};
use typing_seek as seek;
use unit_cursor::Cursor;
use unit_head::Head;

// What a key answers that is heard: whether a character was stored, and where the cursor now is.
#[derive(Clone, Copy)]
pub struct Heard {
    pub stored: bool,
    pub at: usize,
}

// Moves the cursor from one location to another.
#[tactic(auto, unfolding(crate::specs::Keys::cursor_moved))]
fn move_cursor(words: &mut [u16], cursor: &mut Cursor, size: Size, at: usize, to: usize)
    ensures { buffer words.new cursor.new ≡ cursor_moved size at to (buffer words.old cursor.old) }
{
    cursor.clear_here(words, setup::wrap(size, at));
    cursor.set_here(words, setup::wrap(size, to));
}

// Stores a character and moves the cursor on.
#[tactic(auto, unfolding(crate::specs::Keys::character_stored))]
fn store_character(
    words: &mut [u16],
    cursor: &mut Cursor,
    size: Size,
    at: usize,
    code: u8,
    to: usize,
)
    ensures { buffer words.new cursor.new ≡ character_stored size at code to (buffer words.old cursor.old) }
{
    let word = location::word_of(code, false, true);
    cursor.store(words, setup::wrap(size, at), word);
    cursor.set_here(words, setup::wrap(size, to));
}

// Does at the cursor what a key does.
fn done(words: &mut [u16], head: &mut Head, at: usize, act: Act) -> Heard
    ensures { key_ended words.new head.new (Ok (Some result)) ≡ done_by (unit words.old head.old) at act }
{
    let size = head.state.setup.size;
    match act {
        Act::Stay => Heard { stored: false, at },
        Act::Move(to) => {
            move_cursor(words, &mut head.cursor, size, at, to);
            Heard {
                stored: false,
                at: to,
            }
        }
        Act::Store(code, to) => {
            store_character(words, &mut head.cursor, size, at, code, to);
            Heard {
                stored: true,
                at: to,
            }
        }
    }
}

// The cursor, looked for where there is any.
fn sought(words: &[u16], head: &Head) -> Option<usize>
    ensures { result ≡ sought_in (unit words.now head.now) }
{
    if head.cursor.is_set() {
        seek::cursor_in(words, head.cursor, head.state.setup.size)
    } else {
        None
    }
}

// A key of this number on the alphameric keyboard: none is heard where no cursor bit is set, and a refusal leaves all as it was.
// A number: one that no key has is a refusal.
#[tactic(auto, unfolding(crate::specs::Keys::unit_key))]
pub fn key(words: &mut [u16], head: &mut Head, number: u16) -> Result<Option<Heard>, Refusal>
    ensures { key_ended words.new head.new result ≡ unit_key (unit words.old head.old) number }
{
    let press = Press::try_from(number)?;
    match sought(words, head) {
        None => Ok(None),
        Some(at) => {
            let act = keyboard::act_of(words, head.state, at, press);
            Ok(Some(done(words, head, at, act)))
        }
    }
}
