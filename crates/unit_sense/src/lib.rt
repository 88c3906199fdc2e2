// Sense data: the bits that stand, the four bytes that show them, and what a stop adds to them.
//
// The contracts cite `specs/Sense.antt`.
#![tactic(auto)]

ghost use Rattle.std.specs.Prelude.{◌≡◌, not, ◌&&◌, ◌||◌, ◌≤◌};
ghost use Rattle.unit_sense.specs.Sense.{sensing, sense_given, sense_joined, flagged, is_character, sense_zero, sense_one, sense_address, four_in, four_count, sense_in};

use ground_orders::Mode;
use ground_setup as setup;
use ground_words as words;
use unit_head::{Sense, State};

// New sense bits, which no Sense has given.
pub fn bits(reject: bool, check: bool, detect: bool, ended: bool) -> Sense
    ensures { result ≡ sensing reject check detect ended }
{
    Sense {
        reject,
        check,
        detect,
        ended,
        given: false,
    }
}

// The bits once Sense has given them.
pub fn given(sense: Sense) -> Sense
    ensures { result ≡ sense_given sense }
{
    Sense {
        given: true,
        ..sense
    }
}

// A stop's new bits with the standing ones.
#[tactic(auto, unfolding(crate::specs::Sense::sense_joined))]
pub fn joined(sense: Sense, check: bool, detect: bool, ended: bool) -> Sense
    ensures { result ≡ sense_joined sense check detect ended }
{
    if sense.given {
        bits(false, check, detect, ended)
    } else {
        bits(
            sense.reject,
            sense.check || check,
            sense.detect || detect,
            sense.ended || ended,
        )
    }
}

// The bit where the flag is set.
fn bit_of(on: bool, mask: u8) -> u8
    ensures { (result ≡ flagged on mask) × (result ≤ mask) }
{
    u8::from(on) * mask
}

// Sense byte 0.
fn sense_zero(sense: Sense, running: bool) -> u8
    ensures { result ≡ sense_zero sense running }
{
    bit_of(sense.reject, 0x80) + bit_of(sense.check, 0x08) + bit_of(running, 0x02)
}

// Whether a mode is one of characters.
fn is_character(mode: Mode) -> bool
    ensures { result ≡ is_character mode }
{
    matches!(mode, Mode::Basic | Mode::Large)
}

// Whether Character Mode shows: on a stopped unit alone.
fn character_shows(running: bool, mode: Mode) -> bool
    ensures { result ≡ (not running && is_character mode) }
{
    !running && is_character(mode)
}

// Sense byte 1.
fn sense_one(sense: Sense, running: bool, mode: Mode) -> u8
    ensures { result ≡ sense_one sense running mode }
{
    bit_of(sense.detect, 0x80)
        + bit_of(sense.ended, 0x40)
        + bit_of(character_shows(running, mode), 0x20)
}

// The address that sense bytes 2 and 3 show.
fn sense_address(state: State) -> u16
    ensures { result ≡ sense_address state }
{
    if state.running {
        return 0;
    }
    setup::wrap(state.setup.size, state.address) as u16
}

// Gives as many of four bytes as fit, and answers how many.
pub fn give(room: &mut [u8], a: u8, b: u8, c: u8, d: u8) -> usize
    ensures { (result ≡ four_count room.old) × (room.new ≡ four_in room.old a b c d) }
{
    words::put_start(room, &[a, b, c, d])
}

// Gives as many of the sense bytes as fit, and answers how many.
pub fn give_sense(room: &mut [u8], state: State, sense: Sense) -> usize
    ensures { (result ≡ four_count room.old) × (room.new ≡ sense_in room.old state sense) }
{
    let [high, low] = sense_address(state).to_be_bytes();
    give(
        room,
        sense_zero(sense, state.running),
        sense_one(sense, state.running, state.mode),
        high,
        low,
    )
}
