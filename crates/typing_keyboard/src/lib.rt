// The keys of the alphameric keyboard by their numbers, and what each does at the cursor.
//
// The contracts cite `specs/Acts.antt`.
#![tactic(auto)]

ghost use Rattle.std.specs.Prelude.{◌≡◌};
ghost use Rattle.typing_keyboard.specs.Acts.{letter_of, sign_of, coded_of, numbered_of, move_by, character_of, press_in, act_of};

use ground_refusals::Refusal;
use typing_fields as fields;
use typing_fields::Field;
use typing_jump as jump;
use typing_moves as moves;
use typing_moves::Direction;
use typing_signs::Locations;
use unit_head::State;

// A key.
#[derive(Clone, Copy)]
pub enum Press {
    // A character of this code.
    Character(u8),
    Advance,
    Backspace,
    Jump,
}

// What a key does at the cursor.
#[derive(Clone, Copy)]
pub enum Act {
    // Nothing changes.
    Stay,
    // The cursor goes to this location.
    Move(usize),
    // This code is stored, and the cursor goes to this location.
    Store(u8, usize),
}

// Whether a code is a letter or a digit.
#[tactic(auto, unfolding(crate::specs::Acts::letter_of))]
fn is_letter(n: u8) -> bool
    ensures { result ≡ letter_of n }
{
    matches!(n, 0xC1..=0xC9 | 0xD1..=0xD9 | 0xE2..=0xE9 | 0xF0..=0xF9)
}

// Whether a code is a sign, the blank or null.
#[tactic(auto, unfolding(crate::specs::Acts::sign_of))]
fn is_sign(n: u8) -> bool
    ensures { result ≡ sign_of n }
{
    matches!(n, 0x4A..=0x50 | 0x5A..=0x61 | 0x6B..=0x6F | 0x7A..=0x7F | 0x40 | 0x00)
}

// The key of a character's code.
fn coded(n: u8) -> Result<Press, Refusal>
    ensures { result ≡ coded_of n }
{
    if is_letter(n) || is_sign(n) {
        Ok(Press::Character(n))
    } else {
        Err(Refusal::UnknownKey)
    }
}

// The key of a number.
impl TryFrom<u16> for Press {
    type Error = Refusal;

    ghost try_from_gives = { λ number r. r ≡ numbered_of number };

    #[tactic(auto, unfolding(crate::specs::Acts::numbered_of))]
    fn try_from(number: u16) -> Result<Press, Refusal> {
        match number {
            0..=0xFF => coded(number as u8),
            256 => Ok(Press::Advance),
            257 => Ok(Press::Backspace),
            258 => Ok(Press::Jump),
            _ => Err(Refusal::UnknownKey),
        }
    }
}

// A move to a location that was looked for.
fn move_by(spot: Option<usize>) -> Act
    ensures { result ≡ move_by spot }
{
    spot.map_or(Act::Stay, Act::Move)
}

// A character key at a location.
#[tactic(auto, unfolding(crate::specs::Acts::character_of))]
fn character(words: &[u16], state: State, at: usize, code: u8) -> Act
    ensures { result ≡ character_of words.now state at code }
{
    let size = state.setup.size;
    let locations = Locations { words, size };
    let spot = moves::go(locations, Direction::Forward, at);
    if locations.line_at(at) {
        move_by(spot)
    } else {
        Act::Store(code, spot.unwrap_or(at))
    }
}

// A key in a field of characters.
fn press_in(words: &[u16], state: State, at: usize, field: Field, press: Press) -> Act
    ensures { result ≡ press_in words.now state at field press }
{
    let size = state.setup.size;
    let locations = Locations { words, size };
    match press {
        Press::Character(_) if field.shut => Act::Stay,
        Press::Character(code) => character(words, state, at, code),
        Press::Advance => move_by(moves::go(locations, Direction::Forward, at)),
        Press::Backspace => move_by(moves::go(locations, Direction::Backward, at)),
        Press::Jump => move_by(jump::jump_to(words, state, at, field.mode)),
    }
}

// What a key does at a cursor.
#[tactic(auto, unfolding(crate::specs::Acts::act_of))]
pub fn act_of(words: &[u16], state: State, at: usize, press: Press) -> Act
    ensures { result ≡ act_of words.now state at press }
{
    let size = state.setup.size;
    let locations = Locations { words, size };
    match fields::field_of(locations, at) {
        None => Act::Stay,
        Some(field) => press_in(words, state, at, field, press),
    }
}
