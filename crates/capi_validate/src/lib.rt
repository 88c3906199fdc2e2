// The validator for programs in other languages: its answer in one number.
//
// The contract cites `specs/Told.antt`.
#![tactic(auto)]

ghost use Rattle.std.specs.Prelude.{◌≡◌, length};
ghost use Rattle.validator_verdict.specs.Verdict.{verdict_values, tried_of};
ghost use Rattle.capi_validate.specs.Told.{verdict_number, VerdictTold};

use capi_packed as packed;
use ground_refusals::Refusal;
use validator_verdict as validator;
use validator_verdict::Verdict;

// The number that answers a verdict, or a refusal.
// A number: the C interface's.
fn verdict_number(verdict: Result<Verdict, Refusal>) -> u64
    ensures { result ≡ verdict_number (verdict_values verdict) }
{
    match verdict {
        Ok(Verdict::Passed(places)) => places as u64 % 0x100000000,
        Ok(Verdict::Fault(fault, at, steps)) => {
            0x100000000000000
                + packed::wide(u8::from(fault)) * 0x1000000000000
                + at as u64 % 0x10000 * 0x100000000
                + steps as u64 % 0x100000000
        }
        Err(refusal) => packed::refused(refusal),
    }
}

// The verdict on an image of a buffer of `size` locations, from a start address, in a working store.
#[unsafe(no_mangle)]
pub extern "C" fn khaonuat_validate(image: &[u8], size: u32, start: u32, store: &mut [u8]) -> u64
    ensures { VerdictTold (tried_of size (length image.now) start (length store.old)) image.now start store.old store.new result }
{
    verdict_number(validator::validate(image, size as usize, start as usize, store))
}
