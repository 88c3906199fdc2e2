// What one step of regeneration draws, by its motion: the item that a sight falls on, and the items drawn up to it, each by
// a call of its own.
#![tactic(auto)]

ghost use Rattle.std.specs.Prelude.{◌≡◌, ℕ, Bool, cond, false, eqb, None, Some};
ghost use Rattle.unit_items.specs.Items.{items_in, items_of};
ghost use Rattle.ground_setup.specs.Setup.{wrap_of, ahead_of};
ghost use Rattle.unit_drawing.specs.Drawing.{shows_cursor, point_at, vector_at, character_at, cursor_at, trace_strokes, has_cursor, code_strokes, codes_strokes, strokes_of, first_strokes, upto, hit, hit_in};

use ground_setup as setup;
use ground_setup::Size;
use unit_beam::{Beam, CharacterSize};
use unit_items::{Drawn, Item, Part};
use unit_motion as motion;
use unit_motion::{Motion, Trace};

// The item that a sight falls on: its address, and the beam at its end.
#[derive(Clone, Copy)]
pub struct Hit {
    pub at: usize,
    pub end: Beam,
}

// Whether a cursor that stands on a code is shown.
#[tactic(auto, unfolding(crate::specs::Drawing::shows_cursor))]
fn shows_cursor(code: u8) -> bool
    ensures { result ≡ shows_cursor code }
{
    !matches!(code, 0x00 | 0x15)
}

// The address A of a step.
fn address(size: Size, at: usize) -> u16
    ensures { result ≡ wrap_of size at }
{
    setup::wrap(size, at) as u16
}

// The address A+1 of a step.
fn next_address(size: Size, at: usize) -> u16
    ensures { result ≡ ahead_of size at 1 }
{
    setup::ahead(size, at, 1) as u16
}

// The hit where there is one item.
fn hit_only(sight: u8, at: u16, end: Beam) -> Option<Hit>
    ensures { result ≡ cond (eqb sight 1) (Some (hit at end)) None }
{
    (sight == 1).then_some(Hit {
        at: usize::from(at),
        end,
    })
}

// The hit on what coordinates leave, whether they left the screen or not.
#[tactic(auto, unfolding(crate::specs::Drawing::hit_in))]
fn hit_trace(trace: Trace, to: Beam, at: u16, sight: u8) -> Option<Hit>
    ensures { (beam : Beam) (off : Bool) → result ≡ hit_in sight (trace_strokes trace beam to off at) }
{
    match trace {
        Trace::Blanked => None,
        Trace::Point | Trace::Vector => hit_only(sight, at, to),
    }
}

// The hit on one code.
#[tactic(auto, using(crate::proofs::Laws::hit_alone))]
fn hit_code(size: CharacterSize, code: u8, beam: Beam, at: u16, sight: u8) -> Option<Hit>
    ensures { result ≡ hit_in sight (code_strokes size code false beam at) }
{
    if motion::is_drawing(code) {
        hit_only(sight, at, motion::after_code(size, code, beam))
    } else {
        None
    }
}

// The hit on two codes.
#[tactic(auto, using(crate::proofs::Laws::hit_behind), unfolding(crate::specs::Drawing::codes_strokes))]
fn hit_codes(
    size: CharacterSize,
    a: u8,
    b: u8,
    beam: Beam,
    at: u16,
    next: u16,
    sight: u8,
) -> Option<Hit>
    ensures { result ≡ hit_in sight (codes_strokes size a b false false beam at next) }
{
    let end = motion::after_code(size, a, beam);
    if !motion::is_drawing(a) {
        hit_code(size, b, end, next, sight)
    } else if sight == 1 {
        Some(Hit {
            at: usize::from(at),
            end,
        })
    } else {
        hit_code(size, b, end, next, sight.saturating_sub(1))
    }
}

// The item that a sight falls on.
#[tactic(auto, unfolding(crate::specs::Drawing::strokes_of, crate::specs::Drawing::hit_in))]
pub fn hit_of(motion: Motion, beam: Beam, size: Size, at: usize, sight: u8) -> Option<Hit>
    ensures { result ≡ hit_in sight (strokes_of motion beam false false size at) }
{
    match motion {
        Motion::Still => None,
        Motion::To(_, trace, to) => hit_trace(trace, to, address(size, at), sight),
        Motion::Codes(letters, a, b) => hit_codes(
            letters,
            a,
            b,
            beam,
            address(size, at),
            next_address(size, at),
            sight,
        ),
    }
}

// The point at a place, and whether the screen was left on the way.
pub fn point(to: Beam, off: bool, at: u16) -> Item
    ensures { result ≡ point_at to off at }
{
    Item::Point {
        x: to.x % 1024,
        y: to.y % 1024,
        off,
        at,
    }
}

// The vector from a place to another, and whether the screen was left on the way.
pub fn vector(from: Beam, to: Beam, off: bool, at: u16) -> Item
    ensures { result ≡ vector_at from to off at }
{
    Item::Vector {
        from_x: from.x % 1024,
        from_y: from.y % 1024,
        x: to.x % 1024,
        y: to.y % 1024,
        off,
        at,
    }
}

// What coordinates draw.
#[tactic(auto, using(crate::proofs::Laws::upto_one), unfolding(crate::specs::Drawing::upto))]
fn trace_part(trace: Trace, beam: Beam, to: Beam, off: bool, at: u16) -> Part
    ensures { (sight : ℕ) → items_in result ≡ upto sight (trace_strokes trace beam to off at) }
{
    match trace {
        Trace::Blanked => Part::Nothing,
        Trace::Point => Part::One(point(to, off, at)),
        Trace::Vector => Part::One(vector(beam, to, off, at)),
    }
}

// The character of a code.
pub fn character(size: CharacterSize, code: u8, beam: Beam, at: u16) -> Item
    ensures { result ≡ character_at size code beam at }
{
    Item::Character {
        size,
        x: beam.x % 1024,
        y: beam.y % 1024,
        code: u16::from(code),
        at,
    }
}

// The cursor of a code.
// Beside `character`: another item, of the same numbers.
pub fn cursor(size: CharacterSize, code: u8, beam: Beam, at: u16) -> Item
    ensures { result ≡ cursor_at size code beam at }
{
    Item::Cursor {
        size,
        x: beam.x % 1024,
        y: beam.y % 1024,
        code: u16::from(code),
        at,
    }
}

// Whether a code's cursor is drawn.
#[tactic(auto, unfolding(crate::specs::Drawing::has_cursor))]
pub fn has_cursor(marked: bool, code: u8) -> bool
    ensures { result ≡ has_cursor marked code }
{
    marked && shows_cursor(code)
}

// What a code draws.
#[tactic(auto, unfolding(crate::specs::Drawing::code_strokes, crate::specs::Drawing::upto))]
fn code_part(size: CharacterSize, code: u8, marked: bool, beam: Beam, at: u16, nth: u8) -> Part
    ensures { items_in result ≡ upto nth (code_strokes size code marked beam at) }
{
    let cursor_too = has_cursor(marked, code);
    if motion::is_drawing(code) {
        let own = character(size, code, beam, at);
        if cursor_too && nth != 1 {
            Part::Two(own, cursor(size, code, beam, at))
        } else {
            Part::One(own)
        }
    } else if cursor_too {
        Part::One(cursor(size, code, beam, at))
    } else {
        Part::Nothing
    }
}

// What two codes draw.
#[tactic(auto, using(crate::proofs::Laws::upto_code), unfolding(unit_items::specs::Items::items_of, crate::specs::Drawing::codes_strokes))]
fn codes_drawn(
    size: CharacterSize,
    a: u8,
    b: u8,
    c0: bool,
    c1: bool,
    beam: Beam,
    at: u16,
    next: u16,
    sight: u8,
) -> Drawn
    ensures { (items_of result ≡ upto sight (codes_strokes size a b c0 c1 beam at next)) × (items_in result.first ≡ upto sight (code_strokes size a c0 beam at)) }
{
    let end = motion::after_code(size, a, beam);
    let first = code_part(size, a, c0, beam, at, sight);
    let second = if !motion::is_drawing(a) {
        code_part(size, b, c1, end, next, sight)
    } else if sight == 1 {
        Part::Nothing
    } else {
        code_part(size, b, c1, end, next, sight.saturating_sub(1))
    };
    Drawn { first, second }
}

// What a step draws up to the item that the sight falls on, by its motion, where the beam stood, and the
// cursor bits of A and A+1.
#[tactic(auto, unfolding(unit_items::specs::Items::items_of, crate::specs::Drawing::strokes_of, crate::specs::Drawing::first_strokes, crate::specs::Drawing::upto))]
pub fn drawn_of(
    motion: Motion,
    beam: Beam,
    c0: bool,
    c1: bool,
    size: Size,
    at: usize,
    sight: u8,
) -> Drawn
    ensures { (items_of result ≡ upto sight (strokes_of motion beam c0 c1 size at)) × (items_in result.first ≡ upto sight (first_strokes motion beam c0 size at)) }
{
    match motion {
        Motion::Still => Drawn {
            first: Part::Nothing,
            second: Part::Nothing,
        },
        Motion::To(moved, trace, to) => Drawn {
            first: trace_part(trace, beam, to, motion::is_off(moved), address(size, at)),
            second: Part::Nothing,
        },
        Motion::Codes(letters, a, b) => codes_drawn(
            letters,
            a,
            b,
            c0,
            c1,
            beam,
            address(size, at),
            next_address(size, at),
            sight,
        ),
    }
}
