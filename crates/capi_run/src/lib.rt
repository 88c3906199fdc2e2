// A run of the unit with its list for programs in other languages: a dump is loaded, the switch set, the unit started and run. The answer is one
// number, and the steps done and the items listed are put into two numbers lent.
//
// The contract cites `specs/Running.antt`.
#![tactic(auto)]

ghost use Rattle.std.specs.Prelude.{◌≡◌};
ghost use Rattle.console_run.specs.Pair.{run_values};
ghost use Rattle.capi_started.specs.Started.{start_of};
ghost use Rattle.capi_run.specs.Running.{run_call, ran_number, ran_counts, run_started};

use capi_packed as packed;
use capi_started as started;
use console_run as run;
use console_run::Ran;
use ground_refusals::Refusal;

// The number that answers a run, and its steps and items.
// A number: the C interface's.
fn ran_number(answer: Result<Ran, Refusal>, counts: &mut [usize; 2]) -> u64
    ensures { (result ≡ ran_number (run_values answer)) × (counts.new ≡ ran_counts (run_values answer) counts.old) }
{
    match answer {
        Ok(ran) => {
            *counts = [ran.steps, ran.items];
            packed::wide(u8::from(ran.outcome))
        }
        Err(refusal) => packed::refused(refusal),
    }
}

// Loads a dump, sets the pen's switch, starts the unit at an address by its command and runs it.
// Beside khaonuat_advance: the C interface has a name for each.
#[unsafe(no_mangle)]
pub extern "C" fn khaonuat_run(
    dump: &[u16],
    size: u32,
    start: u16,
    closed: bool,
    sights: &[u8],
    items: &mut [u16],
    counts: &mut [usize; 2],
) -> u64
    ensures { run_call result items.new counts.new ≡ run_started (start_of size dump.now start closed) sights.now items.old counts.old }
{
    let (mut unit, answer) = started::start_dump(dump, size as usize, start, closed);
    if let Err(refusal) = answer {
        return packed::refused(refusal);
    }
    let ran = run::run(&unit.words, &mut unit.head, sights, items);
    ran_number(ran, counts)
}
