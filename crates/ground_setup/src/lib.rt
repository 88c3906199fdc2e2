// What a unit is built with: the size of its buffer, the addresses that go round in it, and the setup that a look is handed.
//
// The contracts cite `specs/Setup.antt`; `proofs/Laws.antt` has the laws of every size.
#![tactic(auto)]

ghost use Rattle.std.specs.Prelude.{◌≡◌, ◌+◌, ◌*◌, ◌<◌, ◌≤◌};
ghost use Rattle.ground_setup.specs.Setup.{size_of, sized_of, Inside, wrap_of, ahead_of};

use ground_refusals::Refusal;

// The locations of a buffer: 4,096 or 8,192.
#[derive(Clone, Copy, PartialEq, Eq)]
pub enum Size {
    K4,
    K8,
}

// What a look depends on beside the bytes, for device and validator alike.
#[derive(Clone, Copy)]
pub struct Setup {
    pub size: Size,
}

// How many locations a buffer has.
// No From: it counts locations, and is no number of a kind.
pub fn size_of(size: Size) -> usize
    ensures { (result ≡ size_of size) × (0x1000 ≤ result) × (result ≤ 0x8000) }
{
    match size {
        Size::K4 => 4096,
        Size::K8 => 8192,
    }
}

// The size of a number.
impl TryFrom<usize> for Size {
    type Error = Refusal;

    ghost try_from_gives = { λ number r. r ≡ sized_of number };

    fn try_from(number: usize) -> Result<Size, Refusal> {
        match number {
            4096 => Ok(Size::K4),
            8192 => Ok(Size::K8),
            _ => Err(Refusal::WrongSize),
        }
    }
}

// The address where the buffer goes round.
// Size and address are two values, and an address is held by none: what is promised of both is each function's own sentence.
pub fn wrap(size: Size, address: usize) -> usize
    ensures { (result ≡ wrap_of size address) × Inside size result }
{
    address % size_of(size)
}

// The address n on.
pub fn ahead(size: Size, at: usize, n: u8) -> usize
    ensures { (result ≡ ahead_of size at n) × Inside size result }
{
    wrap(size, wrap(size, at) + usize::from(n))
}

// The address of two bytes, high byte first.
pub fn address_of(high: u8, low: u8) -> usize
    ensures { (result ≡ high * 0x100 + low) × (result < 65536) }
{
    usize::from(u16::from_be_bytes([high, low]))
}
