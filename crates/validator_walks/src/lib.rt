// Walks of a display program: the places that a walk goes through, and what a right answer on all walks of an image is.
//
// `specs/Places.antt` has places and their numbers, `specs/Steps.antt` what one step leads to, `specs/Walks.antt` walks and
// right answers. `specs/Starred.antt` has the worked cases.
#![tactic(auto)]

use ground_look::Fault;
use ground_orders::Mode;

// Where a walk is: an even address and a mode.
// Not a Hit: a mode stands beside the address.
#[derive(Clone, Copy)]
pub struct Place {
    pub at: usize,
    pub mode: Mode,
}

// What one step leads to, each place as its number. An enum: four cases.
#[derive(Clone, Copy)]
pub enum Way {
    // A fault.
    Faulty(Fault),
    // The end of the walk.
    Stops,
    // One place.
    To(usize),
    // Either of two places.
    Either(usize, usize),
}

// What is found of all walks of an image. An enum: a fault that is found is an answer, no failure.
#[derive(Clone, Copy)]
pub enum Verdict {
    // No fault: the number of different places reached.
    Passed(usize),
    // The first fault, its address, and the fewest steps before it.
    Fault(Fault, usize, usize),
}
