// The search of the jump key: regeneration is followed on a copy of the state to the next unprotected characters.
//
// The contracts cite `specs/Jump.antt`.
#![tactic(auto)]

ghost use Rattle.std.specs.Prelude.{◌≡◌, not, ◌&&◌};
ghost use Rattle.typing_signs.specs.Signs.{code_at, order_at};
ghost use Rattle.typing_fields.specs.Fields.{code_field};
ghost use Rattle.typing_jump.specs.Jump.{open_in, landing_by, hop_of, jump_from, steps_in, jump_of};

use ground_look as look;
use ground_look::Look;
use ground_orders::Mode;
use ground_setup as setup;
use ground_setup::Size;
use std::ops::ControlFlow;
use std::ops::ControlFlow::{Break, Continue};
use typing_fields as fields;
use typing_fields::Field;
use typing_signs as signs;
use typing_signs::Locations;
use unit_head::State;
use unit_step as step;
use unit_step::Stepped;

// Whether characters stand in a field and are not protected.
fn is_open(field: Option<Field>) -> bool
    ensures { result ≡ open_in field }
{
    matches!(field, Some(Field { shut: false, .. }))
}

// Whether the cursor lands behind the order at a place.
fn lands(locations: Locations, at: usize, next: usize) -> bool
    ensures { result ≡ (open_in (code_field (code_at locations.entry.words.now locations.entry.size at)) && not (order_at locations.entry.words.now locations.entry.size next)) }
{
    is_open(fields::code_field(locations.code_at(at))) && !locations.order_at(next)
}

// Where a look's order takes the cursor.
fn landing(words: &[u16], state: State, look: Look) -> Option<usize>
    ensures { result ≡ landing_by words.now state look }
{
    let size = state.setup.size;
    let locations = Locations { words, size };
    match look {
        Look::Enter(_, next) if lands(locations, state.address, next) => Some(setup::wrap(
            size, next,
        )),
        _ => None,
    }
}

// A step of the search: its end, or the state to go on with.
#[tactic(auto, unfolding(crate::specs::Jump::hop_of))]
fn hop_of(words: &[u16], state: State) -> ControlFlow<Option<usize>, State>
    ensures { result ≡ hop_of words.now state }
{
    let look = look::look_at(words, state.setup, state.address, state.mode);
    let to = landing(words, state, look);
    if to.is_some() {
        return Break(to);
    }
    match step::step_from(words, state, 0) {
        Stepped::Goes(next) => Continue(next),
        Stepped::Stops(..) => Break(None),
    }
}

// A search of at most n steps.
// A loop: tried as `try_fold`; the lemma from its list of turns to the definition is longer than the loop's proof.
#[tactic(auto, using(crate::proofs::Turns::jump_none))]
fn jump_from(words: &[u16], n: usize, start: State) -> Option<usize>
    ensures { result ≡ jump_from words.now n start }
{
    let mut state = start;
    for _ in 0..n {
        match hop_of(words, state) {
            Break(to) => return to,
            Continue(next) => state = next,
        }
    }
    None
}

// How many steps are followed.
fn steps_in(size: Size) -> usize
    ensures { result ≡ steps_in size }
{
    setup::size_of(size) / 2 * 7 * 48
}

// Where jump takes a cursor: nowhere where it stays.
#[tactic(auto, unfolding(crate::specs::Jump::jump_of))]
pub fn jump_to(words: &[u16], state: State, cursor: usize, mode: Mode) -> Option<usize>
    ensures { result ≡ jump_of words.now state cursor mode }
{
    let size = state.setup.size;
    let start = step::at_place(state, signs::even(size, cursor), mode);
    jump_from(words, steps_in(size), start)
}
