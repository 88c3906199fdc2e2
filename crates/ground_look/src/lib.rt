// One step of regeneration, looked at: what stands at a place of a buffer or of an image, and where the step goes.
//
// The contracts cite `specs/Look.antt`, which the device and the validator share.
#![tactic(auto)]

ghost use Rattle.std.specs.Prelude.{◌≡◌, ◌<◌};
ghost use Rattle.ground_look.specs.Look.{fault_number, order_by, found_by, placing, data_by, first_by, target_by, target_in, coordinate_in, look_of};

use ground_groups::{Group, Source};
use ground_orders as orders;
use ground_orders::{Follows, Mode, PenMode, Row};
use ground_setup as setup;
use ground_setup::{Setup, Size};

// The faults of a step, with the numbers that 01 gives them.
#[derive(Clone, Copy, PartialEq, Eq, PartialOrd, Ord)]
pub enum Fault {
    // A byte to be read is unwritten.
    Unwritten = 1,
    // The code is in no row.
    NoRow = 2,
    // The target is odd.
    OddTarget = 3,
    // The target is the buffer's size or more.
    FarTarget = 4,
    // An order stands where Y was due.
    OrderForY = 5,
}

// What a step finds, with the bytes read and the next address.
// Not a Result: a look at a fault is a look like any other, and the definitions match on it.
#[derive(Clone, Copy)]
pub enum Look {
    // A fault.
    Fault(Fault),
    // Bad parity at this address.
    Check(usize),
    // A mode order.
    Enter(Mode, usize),
    // A no-op of two or of four bytes.
    Pass(usize),
    // Start Regeneration Timer.
    Timer(usize),
    // A pen order.
    SetPen(PenMode, usize),
    // End Order Sequence.
    End(usize),
    // Transfer Unconditional, to its target.
    Jump(usize),
    // Transfer On No Detect: its target, and where it goes when it is not taken.
    Either(usize, usize),
    // The word of idle, incremental and character modes.
    Two(u8, u8, usize),
    // The coordinates of point and vector modes.
    Four(u8, u8, u8, u8, usize),
}

// What the first group makes of a step.
#[derive(Clone, Copy)]
pub enum Begun {
    // All of it.
    Done(Look),
    // A transfer, and whether it is one on no detect, with the address behind it.
    Target(bool, usize),
    // X, with the address behind Y.
    Coordinate(u8, u8, usize),
}

// The number that 01 gives a fault.
impl From<Fault> for u8 {
    ghost from_gives = { λ fault n. (n ≡ fault_number fault) × (n < 6) };

    fn from(fault: Fault) -> u8 {
        fault as u8
    }
}

// What an order of n bytes makes of a step.
fn order_by(size: Size, at: usize, n: u8, follows: Follows) -> Begun
    ensures { result ≡ order_by size at n follows }
{
    let next = setup::ahead(size, at, n);
    match follows {
        Follows::Enter(mode) => Begun::Done(Look::Enter(mode, next)),
        Follows::Pass => Begun::Done(Look::Pass(next)),
        Follows::End => Begun::Done(Look::End(next)),
        Follows::Timer => Begun::Done(Look::Timer(next)),
        Follows::SetPen(pen) => Begun::Done(Look::SetPen(pen, next)),
        Follows::Transfer => Begun::Target(false, next),
        Follows::NoDetect => Begun::Target(true, next),
    }
}

// What a row that was looked for makes of a step.
fn found_by(setup: Setup, at: usize, found: Option<Row>) -> Begun
    ensures { result ≡ found_by setup at found }
{
    match found {
        None => Begun::Done(Look::Fault(Fault::NoRow)),
        Some(row) => order_by(setup.size, at, row.length, row.follows),
    }
}

// Whether the data of a mode are coordinates.
pub fn is_placing(mode: Mode) -> bool
    ensures { result ≡ placing mode }
{
    matches!(mode, Mode::Point | Mode::Vector)
}

// What data make of a step in a mode.
fn data_by(size: Size, at: usize, a: u8, b: u8, mode: Mode) -> Begun
    ensures { result ≡ data_by size at a b mode }
{
    if is_placing(mode) {
        Begun::Coordinate(a, b, setup::ahead(size, at, 4))
    } else {
        Begun::Done(Look::Two(a, b, setup::ahead(size, at, 2)))
    }
}

// What the first group makes of a step.
fn first_by(setup: Setup, at: usize, mode: Mode, group: Group) -> Begun
    ensures { result ≡ first_by setup at mode group }
{
    match group {
        Group::Unwritten => Begun::Done(Look::Fault(Fault::Unwritten)),
        Group::Bad(bad) => Begun::Done(Look::Check(bad)),
        Group::Bytes(even, odd) => {
            if even == 0x2A {
                found_by(setup, at, orders::order_of(odd))
            } else {
                data_by(setup.size, at, even, odd, mode)
            }
        }
    }
}

// A transfer to a target, which is checked whether or not it may be left out.
// A flag: both transfers are one but for that, as in target_by.
fn target_by(size: Size, may: bool, next: usize, target: usize) -> Look
    ensures { result ≡ target_by size may next target }
{
    if target % 2 == 1 {
        Look::Fault(Fault::OddTarget)
    } else if target >= setup::size_of(size) {
        Look::Fault(Fault::FarTarget)
    } else if may {
        Look::Either(target, next)
    } else {
        Look::Jump(target)
    }
}

// What the second group makes of a transfer.
fn target_in(size: Size, may: bool, next: usize, group: Group) -> Look
    ensures { result ≡ target_in size may next group }
{
    match group {
        Group::Unwritten => Look::Fault(Fault::Unwritten),
        Group::Bad(bad) => Look::Check(bad),
        Group::Bytes(a, b) => target_by(size, may, next, setup::address_of(a, b)),
    }
}

// What the second group makes of a coordinate.
fn coordinate_in(x_high: u8, x_low: u8, next: usize, group: Group) -> Look
    ensures { result ≡ coordinate_in x_high x_low next group }
{
    match group {
        Group::Unwritten => Look::Fault(Fault::Unwritten),
        Group::Bad(bad) => Look::Check(bad),
        Group::Bytes(y_high, y_low) => {
            if y_high == 0x2A {
                Look::Fault(Fault::OrderForY)
            } else {
                Look::Four(x_high, x_low, y_high, y_low, next)
            }
        }
    }
}

// One look at a place of a buffer or of an image.
#[tactic(auto, unfolding(crate::specs::Look::look_of))]
pub fn look_at<S: Source>(source: S, setup: Setup, at: usize, mode: Mode) -> Look
    ensures { result ≡ look_of (S.group source setup) setup at mode }
{
    match first_by(setup, at, mode, source.group_at(setup, at)) {
        Begun::Done(look) => look,
        Begun::Target(may, next) => {
            let group = source.group_at(setup, setup::ahead(setup.size, at, 2));
            target_in(setup.size, may, next, group)
        }
        Begun::Coordinate(a, b, next) => {
            let group = source.group_at(setup, setup::ahead(setup.size, at, 2));
            coordinate_in(a, b, next, group)
        }
    }
}
