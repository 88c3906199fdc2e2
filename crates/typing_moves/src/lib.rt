// The moves of the cursor by advance and backspace.
//
// The contracts cite `specs/Moves.antt`.
#![tactic(auto)]

ghost use Rattle.std.specs.Prelude.{◌≡◌};
ghost use Rattle.typing_moves.specs.Moves.{free_of, move_of, onward_of, rest_from, goes_to};

use ground_setup as setup;
use typing_signs as signs;
use typing_signs::Locations;

// Which way the cursor goes.
#[derive(Clone, Copy)]
pub enum Direction {
    // By advance.
    Forward,
    // By backspace.
    Backward,
}

// A location, unless an order stands at an address.
fn free(locations: Locations, order: usize, to: usize) -> Option<usize>
    ensures { result ≡ free_of locations.entry.words.now locations.entry.size order to }
{
    if locations.order_at(order) {
        None
    } else {
        Some(to)
    }
}

// One move: nowhere where the cursor stays.
// The direction is the key's, and rest goes on by it.
fn one_move(locations: Locations, direction: Direction, at: usize) -> Option<usize>
    ensures { result ≡ move_of locations.entry.words.now locations.entry.size direction at }
{
    match direction {
        Direction::Forward => {
            let next = setup::ahead(locations.size, at, 1);
            free(locations, next, next)
        }
        Direction::Backward => free(
            locations,
            signs::back(locations.size, at, 2),
            signs::back(locations.size, at, 1),
        ),
    }
}

// Where a cursor that has come to a location goes on to.
fn onward(locations: Locations, direction: Direction, at: usize) -> Option<usize>
    ensures { result ≡ onward_of locations.entry.words.now locations.entry.size direction at }
{
    if locations.line_at(at) {
        one_move(locations, direction, at)
    } else {
        None
    }
}

// Where a cursor that has come to a location rests, in at most n moves.
// A loop: `try_fold` was tried for that of typing_jump; the lemma from its list of turns is longer than the loop's proof.
#[tactic(auto, using(crate::proofs::Turns::rest_none))]
fn rest(locations: Locations, direction: Direction, n: usize, at: usize) -> Option<usize>
    ensures { result ≡ rest_from locations.entry.words.now locations.entry.size direction n at }
{
    let mut a = at;
    for _ in 0..n {
        match onward(locations, direction, a) {
            None => return Some(a),
            Some(b) => a = b,
        }
    }
    None
}

// Where the cursor goes by advance or backspace: nowhere where it stays.
#[tactic(auto, unfolding(crate::specs::Moves::goes_to))]
pub fn go(locations: Locations, direction: Direction, at: usize) -> Option<usize>
    ensures { result ≡ goes_to locations.entry.words.now locations.entry.size direction at }
{
    let a = one_move(locations, direction, at)?;
    rest(locations, direction, setup::size_of(locations.size), a)
}
