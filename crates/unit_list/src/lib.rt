// Listing: what the next step of a unit draws, put behind the items that a lent list holds; and what that step moves the beam by. The unit is not
// moved.
//
// The contracts cite `specs/List.antt`.
#![tactic(auto)]

ghost use Rattle.std.specs.Prelude.{◌≡◌};
ghost use Rattle.unit_cursor.specs.Cursor.{buffer};
ghost use Rattle.unit_head.specs.Head.{unit};
ghost use Rattle.unit_items.specs.Items.{items_of};
ghost use Rattle.unit_step.specs.Step.{items_drawn};
ghost use Rattle.unit_list.specs.List.{list_ended, unit_list, moves_to, moves_by, unit_moves};

use ground_look as look;
use ground_refusals::Refusal;
use ground_setup as setup;
use unit_cursor::Cursor;
use unit_drawing as drawing;
use unit_head::{Head, State};
use unit_items as items;
use unit_items::Drawn;
use unit_motion as motion;
use unit_motion::{Motion, Moved};
use unit_pen as pen;

// What a step moves the beam by.
#[derive(Clone, Copy)]
pub enum Moves {
    Nothing,
    // An absolute coordinate.
    Absolute,
    // An increment.
    Increment,
    // Two codes.
    Codes,
}

// What the step from a state draws.
#[tactic(auto, unfolding(unit_step::specs::Step::items_drawn))]
fn drawn_from(words: &[u16], cursor: Cursor, state: State, sight: u8) -> Drawn
    ensures { items_of result ≡ items_drawn (buffer words.now cursor) state sight }
{
    let size = state.setup.size;
    let at = state.address;
    let look = look::look_at(words, state.setup, at, state.mode);
    drawing::drawn_of(
        motion::motion_of(look, state.mode, state.beam),
        state.beam,
        cursor.is_here(words, setup::wrap(size, at)),
        cursor.is_here(words, setup::ahead(size, at, 1)),
        size,
        at,
        pen::seen_of(state.pen, sight),
    )
}

// Lists what the next step of the unit draws with a sight, behind the items that the list holds: how many it then holds, or nothing where they
// do not fit.
#[tactic(auto, using(unit_items::proofs::Laws::none_listing, unit_items::proofs::Laws::none_listed), unfolding(crate::specs::List::unit_list, crate::specs::List::next_items))]
pub fn list(
    words: &[u16],
    head: &Head,
    sight: u8,
    held: usize,
    out: &mut [u16],
) -> Result<Option<usize>, Refusal>
    ensures { list_ended result out.new ≡ unit_list (unit words.now head.now) sight held out.old }
{
    if 2 < sight {
        return Err(Refusal::UnknownSight);
    }
    if head.state.running {
        let drawn = drawn_from(words, head.cursor, head.state, sight);
        Ok(items::list(out, held, drawn))
    } else {
        Ok(Some(held))
    }
}

// What takes the beam to a place.
fn moves_to(moved: Moved) -> Moves
    ensures { result ≡ moves_to moved }
{
    match moved {
        Moved::Absolute => Moves::Absolute,
        Moved::Increment(_) => Moves::Increment,
    }
}

// What a motion moves the beam by.
fn moves_by(motion: Motion) -> Moves
    ensures { result ≡ moves_by motion }
{
    match motion {
        Motion::Still => Moves::Nothing,
        Motion::To(moved, _, _) => moves_to(moved),
        Motion::Codes(_, _, _) => Moves::Codes,
    }
}

// What the next step of the unit moves the beam by.
#[tactic(auto, unfolding(crate::specs::List::unit_moves))]
pub fn next_move(words: &[u16], head: &Head) -> Moves
    ensures { result ≡ unit_moves (unit words.now head.now) }
{
    let state = head.state;
    if state.running {
        let look = look::look_at(words, state.setup, state.address, state.mode);
        moves_by(motion::motion_of(look, state.mode, state.beam))
    } else {
        Moves::Nothing
    }
}
