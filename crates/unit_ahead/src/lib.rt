// A stretch of plain data, listed at once: what as many steps draw as stand ahead in a drawing mode, up to an order, a fault, bad parity, a
// sight that the pen sees, the end of the buffer, or little room. The unit is not moved.
//
// The contracts cite `specs/Ahead.antt`.
#![tactic(auto)]

ghost use Rattle.std.specs.Prelude.{◌≡◌, cond, not, [], ◌∷◌, ◌+◌, ◌/◌, ◌≤◌, ltb, length};
ghost use Rattle.unit_cursor.specs.Cursor.{buffer};
ghost use Rattle.unit_cursor.specs.declared.Cursor.{Cursor};
ghost use Rattle.unit_drawing.specs.Drawing.{code_strokes, codes_strokes, upto};
ghost use Rattle.unit_items.specs.Items.{listing, listed};
ghost use Rattle.unit_ahead.specs.Ahead.{Traces, Writes, led_to, blanked_of, trace_item, ListsAhead};

use ground_look as look;
use ground_orders::Mode;
use unit_beam as beam;
use unit_beam::{Beam, CharacterSize, Shift};
use unit_cursor::Cursor;
use unit_drawing as drawing;
use unit_head::State;
use unit_items as items;
use unit_motion as motion;
use unit_pen as pen;
use unit_plain as plain;

// How many steps are listed, and how many items the list then holds.
#[derive(Clone, Copy)]
pub struct AheadListed {
    pub steps: usize,
    pub held: usize,
}

// Where coordinates or increments take the beam, and whether they left the screen.
// A flag: it is what is_placing tells of the mode.
fn led_to(placing: bool, a: u8, b: u8, c: u8, d: u8, beam: Beam) -> Shift
    ensures { result ≡ led_to «placing» a b c d beam }
{
    if placing {
        Shift {
            to: beam::place(a, b, c, d),
            off: false,
        }
    } else {
        beam::step(beam, a, b)
    }
}

// Whether coordinates or increments are blanked.
// A flag: it is what is_placing tells of the mode.
fn is_blanked(placing: bool, a: u8, b: u8) -> bool
    ensures { result ≡ blanked_of «placing» a b }
{
    if placing {
        beam::blanked_place(a)
    } else {
        beam::blanked_step(b)
    }
}

// Lists what coordinates or increments draw.
// A flag and no closure: Traces and trace_item of specs/ speak of it.
fn list_trace(
    vector: bool,
    blanked: bool,
    from: Beam,
    to: Beam,
    off: bool,
    at: u16,
    held: usize,
    out: &mut [u16],
) -> Option<usize>
    ensures { (result ≡ listing (length out.old) held (cond (not blanked) (trace_item vector from to off at ∷ []) [])) × (out.new ≡ listed out.old held (cond (not blanked) (trace_item vector from to off at ∷ []) [])) }
{
    if vector {
        items::list_where(out, held, !blanked, drawing::vector(from, to, off, at))
    } else {
        items::list_where(out, held, !blanked, drawing::point(to, off, at))
    }
}

// Lists coordinates or increments ahead, whose items no cursor is among.
// A flag: no plainer without, list_ahead's match tells it, and here the other modes would need an answer too.
#[tactic(auto, using(ground_setup::proofs::Laws::sane, crate::proofs::Laws::on_none, crate::proofs::Laws::on_done, crate::proofs::Laws::on_long, crate::proofs::Laws::on_full, crate::proofs::Laws::on_trace))]
fn list_traces(
    words: &[u16],
    start: State,
    vector: bool,
    sights: &[u8],
    held: usize,
    out: &mut [u16],
) -> AheadListed
    requires { Traces start.mode vector }
    ensures { (cursor : Cursor) → ListsAhead (buffer words.now cursor) sights.now start held out.old result out.new }
{
    let mode = start.mode;
    let placing = look::is_placing(mode);
    let span = plain::span(placing);
    let mut state = start;
    let mut n = held;
    for (i, sight) in sights.iter().enumerate() {
        let at = state.address;
        if pen::seen_of(start.pen, *sight) != 0 {
            return AheadListed { steps: i, held: n };
        }
        let Some((a, b, c, d)) = plain::plain_at(words, start.setup.size, at, placing) else {
            return AheadListed { steps: i, held: n };
        };
        let shift = led_to(placing, a, b, c, d, state.beam);
        let to = shift.to;
        let off = shift.off;
        let blanked = is_blanked(placing, a, b);
        let Some(more) = list_trace(vector, blanked, state.beam, to, off, at as u16, n, out) else {
            return AheadListed { steps: i, held: n };
        };
        n = more;
        state = State {
            address: at + span,
            beam: to,
            ..state
        };
    }
    AheadListed {
        steps: sights.len(),
        held: n,
    }
}

// Lists what a code draws: its character, then its cursor.
#[tactic(auto, using(unit_items::proofs::Laws::taken, unit_items::proofs::Laws::listed_on, unit_items::proofs::Laws::not_full, crate::proofs::Laws::one_at_most, crate::proofs::Laws::code_drawn))]
fn list_code(
    size: CharacterSize,
    code: u8,
    marked: bool,
    beam: Beam,
    at: u16,
    held: usize,
    out: &mut [u16],
) -> usize
    requires { held + 2 ≤ length out.old / 8 }
    ensures { (listing (length out.old) held (upto 0 (code_strokes size code marked beam at)) ≡ Some result) × (out.new ≡ listed out.old held (upto 0 (code_strokes size code marked beam at))) }
{
    let character = drawing::character(size, code, beam, at);
    let Some(n) = items::list_where(out, held, motion::is_drawing(code), character) else {
        return held;
    };
    let shown = drawing::cursor(size, code, beam, at);
    let Some(m) = items::list_where(out, n, drawing::has_cursor(marked, code), shown) else {
        return n;
    };
    m
}

// Lists what two codes draw.
#[tactic(auto, using(unit_items::proofs::Laws::taken, unit_items::proofs::Laws::listed_on, crate::proofs::Laws::code_short, crate::proofs::Laws::codes_drawn))]
fn list_pair(
    size: CharacterSize,
    a: u8,
    b: u8,
    c0: bool,
    c1: bool,
    beam: Beam,
    at: u16,
    next: u16,
    held: usize,
    out: &mut [u16],
) -> usize
    requires { held + 4 ≤ length out.old / 8 }
    ensures { (listing (length out.old) held (upto 0 (codes_strokes size a b c0 c1 beam at next)) ≡ Some result) × (out.new ≡ listed out.old held (upto 0 (codes_strokes size a b c0 c1 beam at next))) }
{
    let n = list_code(size, a, c0, beam, at, held, out);
    let end = motion::after_code(size, a, beam);
    list_code(size, b, c1, end, next, n, out)
}

// Whether a list that holds so many items has no room for four more.
fn is_tight(held: usize, room: usize) -> bool
    ensures { result ≡ ltb room (held + 4) }
{
    room < 4 || room - 4 < held
}

// Lists codes ahead.
// The size is a parameter: list_ahead's match tells it, and here the other modes would need an answer too.
// Beside list_traces: other room, other words and the cursor; of the loop only its ends are the same.
#[tactic(auto, using(ground_setup::proofs::Laws::sane, crate::proofs::Laws::on_none, crate::proofs::Laws::on_done, crate::proofs::Laws::on_long, crate::proofs::Laws::on_codes))]
fn list_codes(
    words: &[u16],
    cursor: Cursor,
    start: State,
    letters: CharacterSize,
    sights: &[u8],
    held: usize,
    out: &mut [u16],
) -> AheadListed
    requires { Writes start.mode letters }
    ensures { ListsAhead (buffer words.now cursor) sights.now start held out.old result out.new }
{
    let mut state = start;
    let mut n = held;
    for (i, sight) in sights.iter().enumerate() {
        let at = state.address;
        let Some((a, b, _, _)) = plain::plain_at(words, start.setup.size, at, false) else {
            return AheadListed { steps: i, held: n };
        };
        if is_tight(n, out.len() / 8) || pen::seen_of(start.pen, *sight) != 0 {
            return AheadListed { steps: i, held: n };
        }
        let c0 = cursor.is_here(words, at);
        let c1 = cursor.is_here(words, at + 1);
        let beam = state.beam;
        n = list_pair(
            letters,
            a,
            b,
            c0,
            c1,
            beam,
            at as u16,
            (at + 1) as u16,
            n,
            out,
        );
        state = State {
            address: at + 2,
            beam: motion::after_codes(letters, a, b, beam),
            ..state
        };
    }
    AheadListed {
        steps: sights.len(),
        held: n,
    }
}

// Lists the stretch of plain data ahead of a state, over sights.
#[tactic(auto, using(crate::proofs::Laws::on_none, crate::proofs::Laws::on_done, crate::proofs::Laws::points_trace, crate::proofs::Laws::vectors_trace, crate::proofs::Laws::steps_point, crate::proofs::Laws::steps_trace, crate::proofs::Laws::basic_writes, crate::proofs::Laws::large_writes))]
pub fn list_ahead(
    words: &[u16],
    cursor: Cursor,
    state: State,
    sights: &[u8],
    held: usize,
    out: &mut [u16],
) -> AheadListed
    ensures { ListsAhead (buffer words.now cursor) sights.now state held out.old result out.new }
{
    match state.mode {
        Mode::Idle => AheadListed { steps: 0, held },
        Mode::Point | Mode::IncrementalPoint => list_traces(words, state, false, sights, held, out),
        Mode::Vector | Mode::IncrementalVector => list_traces(
            words, state, true, sights, held, out,
        ),
        Mode::Basic => {
            let letters = CharacterSize::Basic;
            list_codes(words, cursor, state, letters, sights, held, out)
        }
        Mode::Large => {
            let letters = CharacterSize::Large;
            list_codes(words, cursor, state, letters, sights, held, out)
        }
    }
}
