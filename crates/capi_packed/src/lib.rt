// What the calls for other languages answer, packed into one number.
#![tactic(auto)]

ghost use Rattle.std.specs.Prelude.{◌≡◌};
ghost use Rattle.ground_refusals.specs.Refusals.{refusal_number};
ghost use Rattle.capi_packed.specs.Packed.{refused_number};

use ground_refusals::Refusal;

// The byte as a wide number.
pub fn wide(b: u8) -> u64
    ensures { result ≡ b }
{
    u64::from(b)
}

// The number that answers a refusal.
pub fn refused(refusal: Refusal) -> u64
    ensures { result ≡ refused_number (refusal_number refusal) }
{
    0x200000000000000 + wide(u8::from(refusal))
}
