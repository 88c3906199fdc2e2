// Advancing: a unit goes on over sights, one step for each, until they are used up or it stops. Nothing is listed.
//
// The contracts cite `specs/Advance.antt`.
#![tactic(auto)]

ghost use Rattle.std.specs.Prelude.{◌≡◌, not, ◌&&◌, List, ℕ, ◌<◌, ◌≤◌, Ok, take};
ghost use Rattle.unit_head.specs.Head.{unit};
ghost use Rattle.unit_step.specs.Run.{steps_at, is_idle};
ghost use Rattle.unit_advance.specs.Advance.{stop_number, end_number, progress_over, used_by, all_sights, stop_status, stop_sense, advance_ended, advanced_by, gone_over, unit_advance, idle_advance};

use ground_orders::Mode;
use ground_refusals::Refusal;
use unit_head::{Head, Sense, State};
use unit_sense as sense;
use unit_step as step;
use unit_step::{Stepped, Stop};
use unit_stretch as stretch;

// Why advancing ends.
#[derive(Clone, Copy)]
pub enum End {
    // The sights are used up.
    SightsUsed,
    // A step stops the unit.
    Stopped(Stop),
    // The unit does not run.
    NotRunning,
}

// Where advancing has come to.
#[derive(Clone, Copy)]
pub struct Progress {
    pub state: State,
    pub steps: usize,
    pub end: End,
}

// What advancing answers that is not refused: the steps done, and why it ended.
#[derive(Clone, Copy)]
pub struct Advanced {
    pub steps: usize,
    pub end: End,
}

// The number that 01 gives an end by a stop; that of a fault is the fault's own.
// A function and no From: the numbers of ends are this crate's, and Stop is unit_step's.
#[tactic(auto, using(crate::proofs::Faults::fault_ends))]
fn stop_number(stop: Stop) -> u8
    ensures { (result ≡ stop_number stop) × (result < 9) }
{
    match stop {
        Stop::Fault(fault) => u8::from(fault),
        Stop::EndOrder => 6,
        Stop::Detect => 7,
        Stop::DataCheck => 8,
    }
}

// The number that 01 gives an end.
impl From<End> for u8 {
    ghost from_gives = { λ end n. (n ≡ end_number end) × (n < 11) };

    fn from(end: End) -> u8 {
        match end {
            End::SightsUsed => 0,
            End::Stopped(stop) => stop_number(stop),
            End::NotRunning => 10,
        }
    }
}

// How many steps a stop adds to those done.
// A quantity, not the number of a kind.
fn steps_at(stop: Stop) -> usize
    ensures { (result ≡ steps_at stop) × (result ≤ 1) }
{
    match stop {
        Stop::Fault(_) | Stop::DataCheck => 0,
        Stop::EndOrder | Stop::Detect => 1,
    }
}

// Whether advancing goes no further: only idle steps are wanted, and the mode is another.
fn is_over(idle: bool, mode: Mode) -> bool
    ensures { result ≡ (idle && not (is_idle mode)) }
{
    idle && !step::is_idle(mode)
}

// Steps from a state on, one for each sight; only those from idle mode, if that is wanted.
#[tactic(auto, using(crate::proofs::Going::goes_further, crate::proofs::Going::goes_no_further, crate::proofs::Going::going_none, crate::proofs::Going::going_stretch, crate::proofs::Going::going_step, crate::proofs::Going::going_all, crate::proofs::Going::going_over, crate::proofs::Going::going_stops))]
fn advance_from(words: &[u16], sights: &[u8], start: State, idle: bool) -> Progress
    ensures { result ≡ progress_over words.now (take (used_by idle words.now sights.now start) sights.now) start }
{
    let mut state = start;
    let mut i = 0;
    // A while: a stretch takes several sights at once.
    while i < sights.len() {
        if is_over(idle, state.mode) {
            break;
        }
        let over = stretch::over(words, state, &sights[i..]);
        state = over.state;
        i += over.steps;
        if sights.len() <= i {
            break;
        }
        match step::step_from(words, state, sights[i]) {
            Stepped::Goes(next) => {
                state = next;
                i += 1;
            }
            Stepped::Stops(last, stop) => {
                return Progress {
                    state: last,
                    steps: i + steps_at(stop),
                    end: End::Stopped(stop),
                };
            }
        }
    }
    Progress {
        state,
        steps: i,
        end: End::SightsUsed,
    }
}

// Whether no sight is above 2.
// No early end: the greatest is asked for, which the compiler does sixteen at a time (docs/BENCHMARK.md).
#[tactic(auto, using(crate::proofs::Sights::greatest_more, crate::proofs::Sights::greatest_all))]
pub fn all_sights(sights: &[u8]) -> bool
    ensures { result ≡ all_sights sights.now }
{
    let mut greatest = 0;
    for sight in sights {
        greatest = greatest.max(*sight);
    }
    greatest <= 2
}

// The waiting status after a stop.
fn stop_status(stop: Stop, status: u8) -> u8
    ensures { result ≡ stop_status stop status }
{
    match stop {
        Stop::Fault(_) => status,
        Stop::EndOrder | Stop::Detect | Stop::DataCheck => 0x82,
    }
}

// The sense bits after a stop.
fn stop_sense(stop: Stop, sense: Sense) -> Sense
    ensures { result ≡ stop_sense stop sense }
{
    match stop {
        Stop::Fault(_) => sense,
        Stop::EndOrder => sense::joined(sense, false, false, true),
        Stop::Detect => sense::joined(sense, false, true, false),
        Stop::DataCheck => sense::joined(sense, true, false, false),
    }
}

// Moves the head where advancing has come to, and answers.
fn advanced_by(head: &mut Head, progress: Progress) -> Advanced
    ensures { (words : List ℕ) → advance_ended words head.new (Ok result) ≡ advanced_by (unit words head.old) progress }
{
    head.state = progress.state;
    if let End::Stopped(stop) = progress.end {
        head.status = stop_status(stop, head.status);
        head.sense = stop_sense(stop, head.sense);
    }
    Advanced {
        steps: progress.steps,
        end: progress.end,
    }
}

// A unit that runs goes on over sights, over those of steps from idle mode if only they are wanted; another does nothing.
#[tactic(auto, unfolding(crate::specs::Advance::gone_over))]
fn go_over(words: &[u16], head: &mut Head, sights: &[u8], idle: bool) -> Advanced
    ensures { advance_ended words.now head.new (Ok result) ≡ gone_over (unit words.now head.old) (take (used_by idle words.now sights.now head.old.state) sights.now) }
{
    let state = head.state;
    if state.running {
        advanced_by(head, advance_from(words, sights, state, idle))
    } else {
        advanced_by(
            head,
            Progress {
                state,
                steps: 0,
                end: End::NotRunning,
            },
        )
    }
}

// Advances the unit, one step for each sight, by sights that the caller has tried with `all_sights`: none is refused.
pub fn advance_tried(words: &[u16], head: &mut Head, sights: &[u8]) -> Advanced
    ensures { advance_ended words.now head.new (Ok result) ≡ gone_over (unit words.now head.old) sights.now }
{
    go_over(words, head, sights, false)
}

// Advances the unit, one step for each sight, or refuses the sights and leaves it as it was.
#[tactic(auto, unfolding(crate::specs::Advance::unit_advance))]
pub fn advance(words: &[u16], head: &mut Head, sights: &[u8]) -> Result<Advanced, Refusal>
    ensures { advance_ended words.now head.new result ≡ unit_advance (unit words.now head.old) sights.now }
{
    if !all_sights(sights) {
        return Err(Refusal::UnknownSight);
    }
    Ok(advance_tried(words, head, sights))
}

// Advances the unit as long as its mode is idle, in which no step draws and no sight is looked at.
#[tactic(auto, unfolding(crate::specs::Advance::idle_advance))]
pub fn advance_idle(words: &[u16], head: &mut Head, sights: &[u8]) -> Advanced
    ensures { advance_ended words.now head.new (Ok result) ≡ idle_advance (unit words.now head.old) sights.now }
{
    go_over(words, head, sights, true)
}
