// The codes of commands: which command a code is, what is sent with it, and whether it is done while the buffer runs.
//
// The contracts cite `specs/Codes.antt`.
#![tactic(auto)]

ghost use Rattle.std.specs.Prelude.{◌≡◌, ◌<◌, Ok};
ghost use Rattle.unit_codes.specs.Codes.{command_row, row_of, address_in, near_fit, start_fit, count_fit, sent_by};

use ground_refusals::Refusal;
use ground_setup as setup;
use ground_setup::Size;
use ground_words as words;

// The twelve commands, and every code that is none.
#[derive(Clone, Copy, PartialEq, Eq)]
pub enum Command {
    TestIo,
    WriteBuffer,
    ReadBuffer,
    NoOperation,
    Sense,
    ReadCursor,
    SetAndStop,
    Alarm,
    InsertCursor,
    ReadXy,
    RemoveCursor,
    SetAndStart,
    Invalid,
}

// What is sent with a command.
#[derive(Clone, Copy)]
pub enum Takes {
    // No byte.
    Nothing,
    // Any number of bytes.
    Bytes,
    // An address of two bytes.
    Address,
    // An address of two bytes to start at.
    Start,
}

// A command, what is sent with it, and whether it is done while the buffer runs.
#[derive(Clone, Copy)]
pub struct CommandRow {
    pub command: Command,
    pub takes: Takes,
    pub running: bool,
}

// A row.
fn row(command: Command, takes: Takes, running: bool) -> CommandRow
    ensures { result ≡ command_row command takes running }
{
    CommandRow {
        command,
        takes,
        running,
    }
}

// The row of a code and its modifiers.
#[tactic(auto, unfolding(crate::specs::Codes::row_of))]
pub fn row_of(code: u8) -> CommandRow
    ensures { result ≡ row_of code }
{
    match code {
        0x00 => row(Command::TestIo, Takes::Nothing, true),
        0x01 => row(Command::WriteBuffer, Takes::Bytes, false),
        0x02 => row(Command::ReadBuffer, Takes::Nothing, false),
        0x03 => row(Command::NoOperation, Takes::Nothing, true),
        0x04 => row(Command::Sense, Takes::Nothing, true),
        0x06 => row(Command::ReadCursor, Takes::Nothing, false),
        0x07 => row(Command::SetAndStop, Takes::Address, true),
        0x0B => row(Command::Alarm, Takes::Nothing, true),
        0x0F => row(Command::InsertCursor, Takes::Nothing, false),
        0x12 => row(Command::ReadXy, Takes::Nothing, false),
        0x1F => row(Command::RemoveCursor, Takes::Nothing, false),
        0x27 => row(Command::SetAndStart, Takes::Start, true),
        // Every code that is none, by ranges: which they are stands here.
        0x05 | 0x08..=0x0A | 0x0C..=0x0E | 0x10..=0x11 | 0x13..=0x1E | 0x20..=0x26 | 0x28..=0xFF =>
            { row(Command::Invalid, Takes::Bytes, true) }
    }
}

// The address that was sent.
pub fn address_in(bytes: &[u8]) -> usize
    ensures { (result ≡ address_in bytes.now) × (result < 65536) }
{
    setup::address_of(words::get_or(bytes, 0, 0), words::get_or(bytes, 1, 0))
}

// Whether an address is one of the buffer.
fn near_fit(size: Size, address: usize) -> Result<(), Refusal>
    ensures { result ≡ near_fit size address }
{
    if address < setup::size_of(size) {
        Ok(())
    } else {
        Err(Refusal::FarStart)
    }
}

// Whether an address is one to start at.
fn start_fit(size: Size, address: usize) -> Result<(), Refusal>
    ensures { result ≡ start_fit size address }
{
    if address % 2 == 1 {
        Err(Refusal::OddStart)
    } else {
        near_fit(size, address)
    }
}

// Whether there are n bytes.
fn count_fit(n: usize, bytes: &[u8]) -> Result<(), Refusal>
    ensures { result ≡ count_fit n bytes.now (Ok tt) }
{
    if bytes.len() == n {
        Ok(())
    } else {
        Err(Refusal::WrongCount)
    }
}

// Whether the bytes sent are those that a command takes.
pub fn sent_by(size: Size, takes: Takes, bytes: &[u8]) -> Result<(), Refusal>
    ensures { result ≡ sent_by size takes bytes.now }
{
    match takes {
        Takes::Nothing => count_fit(0, bytes),
        Takes::Bytes => Ok(()),
        Takes::Address => {
            count_fit(2, bytes)?;
            near_fit(size, address_in(bytes))
        }
        Takes::Start => {
            count_fit(2, bytes)?;
            start_fit(size, address_in(bytes))
        }
    }
}
