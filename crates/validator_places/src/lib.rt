// The places of a buffer by their numbers.
//
// The contracts cite the definitions of crate `validator_walks`.
#![tactic(auto)]

ghost use Rattle.std.specs.Prelude.{◌≡◌, ◌<◌, ◌≤◌};
ghost use Rattle.ground_setup.specs.Setup.{Inside};
ghost use Rattle.validator_walks.specs.Places.{place, half_of, places_of, number_of, address_of};

use ground_orders::Mode;
use ground_setup as setup;
use ground_setup::Size;

// How many even addresses a buffer has.
pub fn half_of(size: Size) -> usize
    ensures { (result ≡ half_of size) × (0 < result) × (result ≤ 0x4000) }
{
    setup::size_of(size) / 2
}

// How many places a buffer has.
pub fn places_of(size: Size) -> usize
    ensures { (result ≡ places_of size) × (result < 0x100000) }
{
    7 * half_of(size)
}

// The number of the place at an address in a mode.
pub fn number_of(size: Size, at: usize, mode: Mode) -> usize
    ensures { result ≡ number_of size (place at mode) }
{
    mode as usize * half_of(size) + at / 2
}

// The address of a place's number.
pub fn address_of(size: Size, number: usize) -> usize
    ensures { (result ≡ address_of size number) × Inside size result }
{
    2 * (number % half_of(size))
}
