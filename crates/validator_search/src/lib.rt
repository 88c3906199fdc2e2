// A search of all places that the walks of an image reach, level by level, in a store that the caller lends.
//
// Behind its bits the store holds two stacks of places' numbers that grow towards each other: the level being gone through and the
// next. `specs/Search.antt` says what the search answers for an image; `specs/Invariant.antt`, for its proof, has the stacks and what holds in
// the midst of a level, over any graph.
#![tactic(auto)]

ghost use Rattle.std.specs.Prelude.{◌≡◌, true, ◌⊎◌, ◌↔◌, IsTrue, List, ℕ, ◌+◌, ◌≤◌, ◌<◌, length, drop};
ghost use Rattle.ground_look.specs.Look.{fault_number};
ghost use Rattle.validator_walks.specs.Places.{places_of};
ghost use Rattle.validator_store.specs.Layout.{base_of, cap_of, top_of};
ghost use Rattle.validator_store.specs.Store.{bit_of};
ghost use Rattle.validator_search.specs.Invariant.{slot, plan_of, Fitted, Visited, Ready, Expands, Mid, Next, Amid, none, key_of};
ghost use Rattle.validator_search.specs.Search.{RightBy, fitting, SearchAnswered};

use ground_look::Fault;
use ground_setup::{Setup, Size};
use validator_places as places;
use validator_steps as steps;
use validator_store as store;
use validator_walks::{Verdict, Way};

// A fault that is met, and its address, by which it is ordered first. A struct of its own: a Place has a mode there, a Hit a beam.
#[derive(Clone, Copy, PartialEq, Eq, PartialOrd, Ord)]
struct Met {
    pub at: usize,
    pub fault: Fault,
}

impl Met {
    // Whether a fault is told before another: at a lower address, or there by no higher number.
    fn is_before(self, other: Met) -> bool
        ensures { IsTrue result ↔ (self.at < other.at) ⊎ ((self.at ≡ other.at) × (fault_number self.fault ≤ fault_number other.fault)) }
    {
        self <= other
    }
}

// What is found in a level: the entries of the next one, and the first fault.
#[derive(Clone, Copy)]
struct Gathered {
    pub t: usize,
    pub first: Option<Met>,
}

// Where entry j of a stack lies. A flag: the two stacks change places from level to level.
fn slot_at(up: bool, size: Size, j: usize) -> usize
    requires { j < cap_of size }
    ensures { result ≡ slot up (base_of size) (cap_of size) j }
{
    let base = store::base_of(size);
    if up {
        base + 3 * j
    } else {
        base + 3 * (store::last_of(size) - j)
    }
}

// Place q is marked and put on the stack `side`, unless it is marked already. The number of entries there is returned.
// The store stands beside the plain parameters: in a struct its `&mut` needs clauses of its own in each contract.
fn visit(store: &mut [u8], setup: Setup, side: bool, t: usize, q: usize) -> usize
    requires { (q < places_of setup.size) × ((top_of setup.size ≤ length store.old) × ((bit_of store.old q ≡ 0 → t < cap_of setup.size))) }
    ensures { (image : List ℕ) → (start rest : ℕ) → Fitted (plan_of image setup start) → (bit_of store.old q ≡ 0 → rest + t < cap_of setup.size) → Visited (plan_of image setup start) q store.old store.new side rest t result }
{
    if store::seen(store, q) {
        return t;
    }
    store::mark(store, q);
    store::save(store, slot_at(side, setup.size, t), q);
    t + 1
}

// One place is gone on from. The entries of the next level are returned, or its fault.
fn expand(
    image: &[u8],
    setup: Setup,
    store: &mut [u8],
    side: bool,
    t: usize,
    p: usize,
) -> Result<usize, Fault>
    requires { Ready (plan_of image.now setup 0) store.old 0 t p }
    ensures { (start rest : ℕ) → start < places_of setup.size → Ready (plan_of image.now setup start) store.old rest t p → Expands (plan_of image.now setup start) p store.old store.new side rest t result }
{
    match steps::way_at(image, setup, p) {
        Way::Faulty(fault) => Err(fault),
        Way::Stops => Ok(t),
        Way::To(q) => Ok(visit(store, setup, side, t, q)),
        Way::Either(a, b) => {
            let u = visit(store, setup, side, t, a);
            Ok(visit(store, setup, side, u, b))
        }
    }
}

// One place of the level is taken off its stack and gone on from.
fn turn(
    image: &[u8],
    setup: Setup,
    store: &mut [u8],
    side: bool,
    rest: usize,
    found: Gathered,
) -> Gathered
    requires { Amid image.now setup store.old side (rest + 1) found.t (key_of found.first) }
    ensures { (start k c : ℕ) → start < places_of setup.size → Mid (plan_of image.now setup start) store.old side (rest + 1) found.t k (key_of found.first) c → key_of found.first ≤ none → Next (plan_of image.now setup start) store.old store.new side rest result.t k (key_of result.first) c }
{
    let p = store::load(store, slot_at(!side, setup.size, rest));
    match expand(image, setup, store, side, found.t, p) {
        Ok(t) => Gathered { t, ..found },
        Err(fault) => {
            let met = Met {
                at: places::address_of(setup.size, p),
                fault,
            };
            match found.first {
                Some(first) if first.is_before(met) => found,
                _ => Gathered {
                    first: Some(met),
                    ..found
                },
            }
        }
    }
}

// All m places of a level are gone on from.
fn level(image: &[u8], setup: Setup, store: &mut [u8], side: bool, m: usize) -> Gathered
    requires { Amid image.now setup store.old side m 0 none }
    ensures { (start k c : ℕ) → start < places_of setup.size → Mid (plan_of image.now setup start) store.old side m 0 k none c → Next (plan_of image.now setup start) store.old store.new side 0 result.t k (key_of result.first) c }
{
    let mut found = Gathered { t: 0, first: None };
    for rest in (0..m).rev() {
        found = turn(image, setup, store, side, rest, found);
    }
    found
}

// The bytes in use are cleared and the start is marked, the only place of level 0.
fn begin(setup: Setup, start: usize, store: &mut [u8]) -> usize
    requires { (start < places_of setup.size) × (top_of setup.size ≤ length store.old) }
    ensures { (image : List ℕ) → Next (plan_of image setup start) store.old store.new true result 0 0 none result }
{
    let size = setup.size;
    store::clear(store, store::base_of(size) + 3 * (store::last_of(size) + 1));
    visit(store, setup, false, 0, start)
}

// Gathered by level from the start.
fn explore(image: &[u8], setup: Setup, start: usize, store: &mut [u8]) -> Verdict
    requires { (start < places_of setup.size) × (top_of setup.size ≤ length store.old) }
    ensures right { RightBy image.now setup start result }
    ensures tail { drop (top_of setup.size) store.new ≡ drop (top_of setup.size) store.old }
{
    let mut m = begin(setup, start, store);
    let mut side = true;
    let mut k = 0;
    let mut c = m;
    // A while: it ends where a level is empty.
    while 0 < m {
        let found = level(image, setup, store, side, m);
        if let Some(first) = found.first {
            return Verdict::Fault(first.fault, first.at, k);
        }
        side = !side;
        m = found.t;
        c += m;
        k += 1;
    }
    Verdict::Passed(c)
}

// The answer on all walks of an image from a start place, in a store whose room is zero afterwards.
pub fn search(image: &[u8], setup: Setup, start: usize, store: &mut [u8]) -> Option<Verdict>
    ensures { SearchAnswered (fitting setup start (length store.old)) image.now setup start store.old store.new result }
{
    let room = store::room_of(setup.size);
    if places::places_of(setup.size) <= start || store.len() < room {
        return None;
    }
    let answer = explore(image, setup, start, store);
    store::clear(store, room);
    Some(answer)
}
