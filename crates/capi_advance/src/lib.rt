// Advancing of the unit for programs in other languages: a dump is loaded, the switch set, the unit started, and advanced over sights. The answer
// is one number; the steps done, and the address and the place of the beam behind them, are put into four numbers lent.
//
// The contract cites `specs/Advancing.antt`.
#![tactic(auto)]

ghost use Rattle.std.specs.Prelude.{◌≡◌};
ghost use Rattle.unit_advance.specs.Advance.{advance_values};
ghost use Rattle.capi_started.specs.Started.{start_of};
ghost use Rattle.capi_advance.specs.Advancing.{advance_call, advanced_number, advanced_place, advance_started};

use capi_packed as packed;
use capi_started as started;
use ground_refusals::Refusal;
use unit_advance::Advanced;
use unit_head::State;

// The number that answers advancing, and where it has come to.
// A number: the C interface's.
fn advanced_number(state: State, answer: Result<Advanced, Refusal>, place: &mut [usize; 4]) -> u64
    ensures { (result ≡ advanced_number (advance_values answer)) × (place.new ≡ advanced_place state (advance_values answer) place.old) }
{
    match answer {
        Ok(advanced) => {
            let beam = state.beam;
            *place = [
                advanced.steps,
                state.address,
                usize::from(beam.x),
                usize::from(beam.y),
            ];
            packed::wide(u8::from(advanced.end))
        }
        Err(refusal) => packed::refused(refusal),
    }
}

// Loads a dump, sets the pen's switch, starts the unit at an address by its command and advances it.
#[unsafe(no_mangle)]
pub extern "C" fn khaonuat_advance(
    dump: &[u16],
    size: u32,
    start: u16,
    closed: bool,
    sights: &[u8],
    place: &mut [usize; 4],
) -> u64
    ensures { advance_call result place.new ≡ advance_started (start_of size dump.now start closed) sights.now place.old }
{
    let (mut unit, answer) = started::start_dump(dump, size as usize, start, closed);
    if let Err(refusal) = answer {
        return packed::refused(refusal);
    }
    let advanced = unit.advance(sights);
    advanced_number(unit.head.state, advanced, place)
}
