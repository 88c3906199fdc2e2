// A run with its list, for callers that want both: what the next step draws is listed, and the unit advances by it. Where a stretch of plain
// data stands ahead, all of it is listed and then gone over.
//
// The contracts cite `specs/Pair.antt`.
#![tactic(auto)]

ghost use Rattle.std.specs.Prelude.{◌≡◌, true, ◌<◌, length, Ok};
ghost use Rattle.unit_head.specs.Head.{unit};
ghost use Rattle.unit_advance.specs.Advance.{all_sights};
ghost use Rattle.console_run.specs.Pair.{outcome_number, run_ended, pair_from, pair_run};
ghost use Rattle.console_run.specs.Turns.{turn_gone, Takes};

use ground_refusals::Refusal;
use unit_advance as advance;
use unit_advance::{Advanced, End};
use unit_ahead as ahead;
use unit_head::Head;
use unit_list as list;
use unit_step as step;

// Why a run with its list ends.
// Not a Result: a full list ends a run, and is no refusal.
#[derive(Clone, Copy)]
pub enum Outcome {
    // As advancing ends.
    Ended(End),
    // The items don't fit.
    NoRoom,
}

// What a run with its list answers: the steps done, why it ended and how many items it listed.
#[derive(Clone, Copy)]
pub struct Ran {
    pub steps: usize,
    pub outcome: Outcome,
    pub items: usize,
}

// One turn of a run: its steps, the items that the list then holds, and why the run ends there, if it does.
#[derive(Clone, Copy)]
pub struct Turn {
    pub steps: usize,
    pub held: usize,
    pub end: Option<Outcome>,
}

// The number that 01 gives the end of a run.
impl From<Outcome> for u8 {
    ghost from_gives = { λ outcome n. (n ≡ outcome_number outcome) × (n < 11) };

    fn from(outcome: Outcome) -> u8 {
        match outcome {
            Outcome::Ended(end) => u8::from(end),
            Outcome::NoRoom => 9,
        }
    }
}

// The turn of steps that were listed and gone over: the run goes on where their sights were used up.
fn turn_of(gone: Advanced, held: usize) -> Turn
    ensures { result ≡ turn_gone gone held }
{
    Turn {
        steps: gone.steps,
        held,
        end: match gone.end {
            End::SightsUsed => None,
            end => Some(Outcome::Ended(end)),
        },
    }
}

// One turn: as many steps as are idle, or those of a stretch, or one. Listing it is never refused here.
fn take_turn(words: &[u16], head: &mut Head, sights: &[u8], held: usize, out: &mut [u16]) -> Turn
    requires { (head.old.state.running ≡ true) × (all_sights sights.now ≡ true) × (0 < length sights.now) }
    ensures { Takes words.now sights.now head.old held out.old head.new result out.new }
{
    if step::is_idle(head.state.mode) {
        return turn_of(advance::advance_idle(words, head, sights), held);
    }
    let listed = ahead::list_ahead(words, head.cursor, head.state, sights, held, out);
    if 0 < listed.steps {
        let gone = advance::advance_tried(words, head, &sights[0..listed.steps]);
        return turn_of(gone, listed.held);
    }
    match list::list(words, head, sights[0], held, out).unwrap_or(None) {
        None => Turn {
            steps: 0,
            held,
            end: Some(Outcome::NoRoom),
        },
        Some(n) => {
            let gone = advance::advance_tried(words, head, &sights[0..1]);
            turn_of(gone, n)
        }
    }
}

// A run of a unit that runs, over sights that are none above 2.
fn run_from(words: &[u16], head: &mut Head, sights: &[u8], out: &mut [u16]) -> Ran
    requires { (head.old.state.running ≡ true) × (all_sights sights.now ≡ true) }
    ensures { run_ended words.now head.new (Ok result) out.new ≡ pair_from (unit words.now head.old) sights.now 0 0 out.old }
{
    let mut items = 0;
    let mut i = 0;
    // A while: a turn's steps vary.
    while i < sights.len() {
        let turn = take_turn(words, head, &sights[i..], items, out);
        i += turn.steps;
        items = turn.held;
        if let Some(outcome) = turn.end {
            return Ran {
                steps: i,
                outcome,
                items,
            };
        }
    }
    Ran {
        steps: i,
        outcome: Outcome::Ended(End::SightsUsed),
        items,
    }
}

// Runs the unit, one step for each sight, and lists what is drawn, eight numbers an item. A refusal leaves all as it was.
#[tactic(auto, using(crate::proofs::Turning::pair_still), unfolding(crate::specs::Pair::pair_run))]
pub fn run(words: &[u16], head: &mut Head, sights: &[u8], out: &mut [u16]) -> Result<Ran, Refusal>
    ensures { run_ended words.now head.new result out.new ≡ pair_run (unit words.now head.old) sights.now out.old }
{
    if !advance::all_sights(sights) {
        return Err(Refusal::UnknownSight);
    }
    if head.state.running {
        Ok(run_from(words, head, sights, out))
    } else {
        Ok(Ran {
            steps: 0,
            outcome: Outcome::Ended(End::NotRunning),
            items: 0,
        })
    }
}
