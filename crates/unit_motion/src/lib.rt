// What one step of regeneration does with the beam: a look and a mode give its motion, and the motion where the beam stands
// afterwards. Which codes draw a character is decided here too.
#![tactic(auto)]

ghost use Rattle.std.specs.Prelude.{◌≡◌};
ghost use Rattle.unit_beam.specs.Beam.{stepped};
ghost use Rattle.unit_motion.specs.Codes.{draws, after_code};
ghost use Rattle.unit_motion.specs.Motion.{trace_by, by_increment, two_of, four_of, motion_of, off_of, beam_after, data_motion};

use ground_look::Look;
use ground_orders::Mode;
use unit_beam as beam;
use unit_beam::{Beam, CharacterSize};

// What coordinates leave on the screen.
#[derive(Clone, Copy)]
pub enum Trace {
    Blanked,
    Point,
    Vector,
}

// What moves the beam to a place.
// Not an Option: an absolute coordinate moves it too.
#[derive(Clone, Copy)]
pub enum Moved {
    // An absolute coordinate.
    Absolute,
    // An increment, and whether it left the screen.
    Increment(bool),
}

// What a step does with the beam.
#[derive(Clone, Copy)]
pub enum Motion {
    // Nothing.
    Still,
    // It goes to a place.
    To(Moved, Trace, Beam),
    // It passes over two codes.
    Codes(CharacterSize, u8, u8),
}

// Whether a code draws a character.
#[tactic(auto, unfolding(crate::specs::Codes::draws))]
pub fn is_drawing(code: u8) -> bool
    ensures { result ≡ draws code }
{
    !matches!(code, 0x00 | 0x15 | 0x2A | 0x40)
}

// The beam after a code.
#[tactic(auto, unfolding(crate::specs::Codes::after_code))]
pub fn after_code(size: CharacterSize, code: u8, beam: Beam) -> Beam
    ensures { result ≡ after_code size code beam }
{
    match code {
        0x00 => beam,
        0x15 => beam::new_line(size, beam),
        _ => beam::after_character(size, beam),
    }
}

// What coordinates leave, blanked or not.
fn trace_by(blanked: bool, trace: Trace) -> Trace
    ensures { result ≡ trace_by blanked trace }
{
    if blanked { Trace::Blanked } else { trace }
}

// The motion of an increment.
#[tactic(auto, unfolding(unit_beam::specs::Beam::shifted))]
fn by_increment(trace: Trace, a: u8, b: u8, beam: Beam) -> Motion
    ensures { result ≡ by_increment trace a b beam }
{
    let shift = beam::step(beam, a, b);
    Motion::To(
        Moved::Increment(shift.off),
        trace_by(beam::blanked_step(b), trace),
        shift.to,
    )
}

// The motion of two bytes.
#[tactic(auto, unfolding(crate::specs::Motion::two_of))]
fn two(mode: Mode, a: u8, b: u8, beam: Beam) -> Motion
    ensures { result ≡ two_of mode a b beam }
{
    match mode {
        Mode::IncrementalPoint => by_increment(Trace::Point, a, b, beam),
        Mode::IncrementalVector => by_increment(Trace::Vector, a, b, beam),
        Mode::Basic => Motion::Codes(CharacterSize::Basic, a, b),
        Mode::Large => Motion::Codes(CharacterSize::Large, a, b),
        _ => Motion::Still,
    }
}

// The motion of four bytes.
#[tactic(auto, unfolding(crate::specs::Motion::four_of))]
fn four(mode: Mode, a: u8, b: u8, c: u8, d: u8) -> Motion
    ensures { result ≡ four_of mode a b c d }
{
    let trace = match mode {
        Mode::Point => Trace::Point,
        Mode::Vector => Trace::Vector,
        _ => return Motion::Still,
    };
    Motion::To(
        Moved::Absolute,
        trace_by(beam::blanked_place(a), trace),
        beam::place(a, b, c, d),
    )
}

// What a step does with the beam, by its look and its mode.
#[tactic(auto, unfolding(crate::specs::Motion::motion_of))]
pub fn motion_of(look: Look, mode: Mode, beam: Beam) -> Motion
    ensures { result ≡ motion_of look mode beam }
{
    match look {
        Look::Two(a, b, _) => two(mode, a, b, beam),
        Look::Four(a, b, c, d, _) => four(mode, a, b, c, d),
        _ => Motion::Still,
    }
}

// Whether what moved the beam left the screen.
pub fn is_off(moved: Moved) -> bool
    ensures { result ≡ off_of moved }
{
    matches!(moved, Moved::Increment(true))
}

// The beam after a step.
#[tactic(auto, unfolding(crate::specs::Motion::beam_after))]
pub fn beam_after(motion: Motion, beam: Beam) -> Beam
    ensures { result ≡ beam_after motion beam }
{
    match motion {
        Motion::Still => beam,
        Motion::To(_, _, to) => to,
        Motion::Codes(size, a, b) => after_codes(size, a, b, beam),
    }
}

// The beam after two codes.
pub fn after_codes(size: CharacterSize, a: u8, b: u8, beam: Beam) -> Beam
    ensures { result ≡ after_code size b (after_code size a beam) }
{
    after_code(size, b, after_code(size, a, beam))
}

// The beam after an increment.
#[tactic(auto, unfolding(unit_beam::specs::Beam::shifted))]
fn stepped_to(beam: Beam, a: u8, b: u8) -> Beam
    ensures { result ≡ stepped beam a b }
{
    beam::step(beam, a, b).to
}

// The beam after a mode's data: the four bytes of point and vector mode, or the first two.
#[tactic(auto, unfolding(crate::specs::Motion::beam_after, crate::specs::Motion::two_of, crate::specs::Motion::four_of))]
pub fn moved_by(mode: Mode, a: u8, b: u8, c: u8, d: u8, beam: Beam) -> Beam
    ensures { result ≡ beam_after (data_motion mode a b c d beam) beam }
{
    match mode {
        Mode::Idle => beam,
        Mode::Point | Mode::Vector => beam::place(a, b, c, d),
        Mode::IncrementalPoint | Mode::IncrementalVector => stepped_to(beam, a, b),
        Mode::Basic => after_codes(CharacterSize::Basic, a, b, beam),
        Mode::Large => after_codes(CharacterSize::Large, a, b, beam),
    }
}
