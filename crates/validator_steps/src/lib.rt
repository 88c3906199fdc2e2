// The step from a place of an image, by the places' numbers.
//
// The contracts cite the definitions of crate `validator_walks`.
#![tactic(auto)]

ghost use Rattle.std.specs.Prelude.{◌≡◌, ◌/◌};
ghost use Rattle.validator_walks.specs.Places.{half_of, mode_of};
ghost use Rattle.validator_walks.specs.Steps.{step_by, way_by, way_of};

use ground_look as look;
use ground_look::Look;
use ground_orders::Mode;
use ground_setup::{Setup, Size};
use validator_places as places;
use validator_walks::Way;

// The block of a place's number.
fn block_of(size: Size, number: usize) -> usize
    ensures { result ≡ number / half_of size }
{
    number / places::half_of(size)
}

// The mode of a block.
// A match: Mode is another crate's type, and a TryFrom would refuse the numbers above.
fn mode_of(block: usize) -> Mode
    ensures { result ≡ mode_of block }
{
    match block {
        0 => Mode::Idle,
        1 => Mode::Point,
        2 => Mode::Vector,
        3 => Mode::IncrementalPoint,
        4 => Mode::IncrementalVector,
        5 => Mode::Basic,
        _ => Mode::Large,
    }
}

// Where one look in a mode leads to.
fn way_by(size: Size, mode: Mode, found: Look) -> Way
    ensures { result ≡ way_by size (step_by mode found) }
{
    match found {
        Look::Fault(fault) => Way::Faulty(fault),
        Look::Check(_) | Look::End(_) => Way::Stops,
        Look::Enter(entered, next) => Way::To(places::number_of(size, next, entered)),
        Look::Pass(next) | Look::Timer(next) | Look::SetPen(_, next) | Look::Jump(next) => {
            Way::To(places::number_of(size, next, Mode::Idle))
        }
        Look::Either(target, next) => {
            Way::Either(
                places::number_of(size, target, Mode::Idle),
                places::number_of(size, next, Mode::Idle),
            )
        }
        Look::Two(_, _, next) | Look::Four(_, _, _, _, next) => {
            Way::To(places::number_of(size, next, mode))
        }
    }
}

// Where the step from a place of an image leads to.
#[tactic(auto, unfolding(validator_walks::specs::Steps::way_of, validator_walks::specs::Steps::step_of))]
pub fn way_at(image: &[u8], setup: Setup, number: usize) -> Way
    ensures { result ≡ way_of image.now setup number }
{
    let size = setup.size;
    let mode = mode_of(block_of(size, number));
    let at = places::address_of(size, number);
    way_by(size, mode, look::look_at(image, setup, at, mode))
}
