// The validator: a verdict on all walks of an image.
//
// `specs/Verdict.antt` says what is answered and what is left of the working store.
#![tactic(auto)]

ghost use Rattle.std.specs.Prelude.{length};
ghost use Rattle.validator_verdict.specs.Verdict.{verdict_values, tried_of, Judged};

use ground_orders::Mode;
use ground_refusals::Refusal;
use ground_setup as setup;
use ground_setup::{Setup, Size};
use validator_places as places;
use validator_search as search;

// What is answered for an image that is looked at.
pub use validator_walks::Verdict;

// The verdict on an image of a buffer of `size` locations, from a start address, in a working store.
// A number: one that is no size is a refusal.
#[tactic(auto, using(crate::proofs::Judging::judged))]
pub fn validate(
    image: &[u8],
    size: usize,
    start: usize,
    store: &mut [u8],
) -> Result<Verdict, Refusal>
    ensures { Judged (tried_of size (length image.now) start (length store.old)) image.now start store.old store.new (verdict_values result) }
{
    let size = Size::try_from(size)?;
    if setup::size_of(size) < image.len() {
        return Err(Refusal::TooLong);
    }
    if start % 2 == 1 {
        return Err(Refusal::OddStart);
    }
    if setup::size_of(size) <= start {
        return Err(Refusal::FarStart);
    }
    let from = places::number_of(size, start, Mode::Idle);
    search::search(image, Setup { size }, from, store).ok_or(Refusal::ShortStore)
}
