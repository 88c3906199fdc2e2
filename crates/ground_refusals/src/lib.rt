// The refusals of every call, with their numbers.
#![tactic(auto)]

ghost use Rattle.std.specs.Prelude.{◌≡◌, ◌<◌};
ghost use Rattle.ground_refusals.specs.Refusals.{refusal_number};

// Why a call is refused, with the number that 01 gives it.
#[derive(Clone, Copy, PartialEq, Eq)]
pub enum Refusal {
    // The size is neither 4,096 nor 8,192.
    WrongSize = 1,
    // The image is longer than the size.
    TooLong = 2,
    // The start is odd.
    OddStart = 3,
    // The start, or a set buffer address, is the size or more.
    FarStart = 4,
    // The working store is under 32,768 bytes.
    ShortStore = 5,
    // A record is cut, or its payload is under 4 bytes.
    CutOrShort = 6,
    // The record's kind is unknown.
    UnknownKind = 7,
    // A sight is above 2.
    UnknownSight = 8,
    // A dump word has an unused bit set.
    UnusedBit = 9,
    // A dump's length isn't its size, or data sent with a command are not its fixed count.
    WrongCount = 10,
    // The key's number is unknown.
    UnknownKey = 13,
}

// The number that 01 gives a refusal.
impl From<Refusal> for u8 {
    ghost from_gives = { λ refusal n. (n ≡ refusal_number refusal) × (n < 14) };

    fn from(refusal: Refusal) -> u8 {
        refusal as u8
    }
}
