// One step of a unit that runs: what it makes of the state, by its own look at what stands there.
//
// The contracts cite `specs/Step.antt`; `specs/Run.antt` has several steps, `proofs/Laws.antt` what holds of them.
#![tactic(auto)]

ghost use Rattle.std.specs.Prelude.{◌≡◌};
ghost use Rattle.unit_step.specs.Run.{is_idle};
ghost use Rattle.unit_step.specs.Step.{state_at, penned, beamed, stopped, struck, data_to, step_to, hit_by, step_from};

use ground_look as look;
use ground_look::{Fault, Look};
use ground_orders::Mode;
use unit_beam::Beam;
use unit_drawing as drawing;
use unit_drawing::Hit;
use unit_head::State;
use unit_motion as motion;
use unit_motion::Motion;
use unit_pen as pen;
use unit_pen::Pen;

// Why a step stops the unit.
#[derive(Clone, Copy)]
pub enum Stop {
    // A fault.
    Fault(Fault),
    // End Order Sequence.
    EndOrder,
    // A light-pen detect.
    Detect,
    // Bad parity.
    DataCheck,
}

// What a step makes of the state.
// No Result: a stop is no error, and holds the state too.
#[derive(Clone, Copy)]
pub enum Stepped {
    Goes(State),
    Stops(State, Stop),
}

// Whether a mode is idle.
pub fn is_idle(mode: Mode) -> bool
    ensures { result ≡ is_idle mode }
{
    mode == Mode::Idle
}

// The state at another address and mode.
pub fn at_place(state: State, address: usize, mode: Mode) -> State
    ensures { result ≡ state_at state address mode }
{
    State {
        address,
        mode,
        ..state
    }
}

// The state at another address, idle, with another pen.
fn with_pen(state: State, address: usize, pen: Pen) -> State
    ensures { result ≡ penned state address pen }
{
    State {
        address,
        mode: Mode::Idle,
        pen,
        ..state
    }
}

// The state at another address with the beam elsewhere.
fn with_beam(state: State, address: usize, beam: Beam) -> State
    ensures { result ≡ beamed state address beam }
{
    State {
        address,
        beam,
        ..state
    }
}

// The state stopped at an address in a mode.
fn stopped_at(state: State, address: usize, mode: Mode) -> State
    ensures { result ≡ stopped state address mode }
{
    State {
        running: false,
        ..at_place(state, address, mode)
    }
}

// The state after a detect.
fn struck_at(state: State, address: usize, beam: Beam) -> State
    ensures { result ≡ struck state address beam }
{
    State {
        beam,
        pen: pen::after_detect(state.pen),
        ..stopped_at(state, address, state.mode)
    }
}

// What data make of the state: a hit, or the beam where they leave it.
fn data_by(state: State, to: Beam, next: usize, hit: Option<Hit>) -> Stepped
    ensures { result ≡ data_to state to next hit }
{
    match hit {
        None => Stepped::Goes(with_beam(state, next, to)),
        Some(hit) => Stepped::Stops(struck_at(state, hit.at, hit.end), Stop::Detect),
    }
}

// What a look makes of the state: a hit, or the beam where its data leave it.
fn step_to(state: State, to: Beam, hit: Option<Hit>, look: Look) -> Stepped
    ensures { result ≡ step_to state to hit look }
{
    let mode = state.mode;
    let pen = state.pen;
    match look {
        Look::Fault(fault) => {
            Stepped::Stops(stopped_at(state, state.address, mode), Stop::Fault(fault))
        }
        Look::Check(bad) => Stepped::Stops(stopped_at(state, bad, mode), Stop::DataCheck),
        Look::Enter(entered, next) => Stepped::Goes(at_place(state, next, entered)),
        Look::Pass(next) => Stepped::Goes(at_place(state, next, Mode::Idle)),
        Look::Timer(next) => Stepped::Goes(with_pen(state, next, pen::after_timer(pen))),
        Look::SetPen(set, next) => Stepped::Goes(with_pen(state, next, pen::after_order(pen, set))),
        Look::End(next) => Stepped::Stops(stopped_at(state, next, Mode::Idle), Stop::EndOrder),
        Look::Jump(target) => Stepped::Goes(at_place(state, target, Mode::Idle)),
        Look::Either(target, _) if pen::is_transferring(pen) => {
            Stepped::Goes(with_pen(state, target, pen::after_transfer(pen)))
        }
        Look::Either(_, next) => Stepped::Goes(at_place(state, next, Mode::Idle)),
        Look::Two(.., next) | Look::Four(.., next) => data_by(state, to, next, hit),
    }
}

// The item that what is seen falls on, by the motion.
fn hit_at(state: State, motion: Motion, seen: u8) -> Option<Hit>
    ensures { result ≡ hit_by state motion seen }
{
    drawing::hit_of(motion, state.beam, state.setup.size, state.address, seen)
}

// The step from a state: what stands there, and what the pen is shown.
#[tactic(auto, unfolding(crate::specs::Step::step_from, crate::specs::Step::step_over))]
pub fn step_from(words: &[u16], state: State, sight: u8) -> Stepped
    ensures { result ≡ step_from words.now state sight }
{
    let look = look::look_at(words, state.setup, state.address, state.mode);
    let motion = motion::motion_of(look, state.mode, state.beam);
    let hit = hit_at(state, motion, pen::seen_of(state.pen, sight));
    step_to(state, motion::beam_after(motion, state.beam), hit, look)
}
