// The lines of a printed verdict, put into a buffer that the caller lends. Each call answers where its line ends; a line
// never has more than 128 bytes.
#![tactic(auto)]

ghost use Rattle.std.specs.Prelude.{◌≡◌};
ghost use Rattle.text_put.specs.Text.{put_at, end_of};
ghost use Rattle.record_lines.specs.Lines.{passed_line, fault_line, refused_line};

use text_put::{Decimal, Printed};

// A line is put whole and never stands in a tuple: a type of its own for each would add a name and no promise.

// Puts the line of a record that passed: its number and the places reached.
pub fn put_passed(buffer: &mut [u8], at: usize, number: usize, places: usize) -> usize
    ensures value { result ≡ end_of buffer.old at (passed_line number places) }
    ensures buffer_after { buffer.new ≡ put_at buffer.old at (passed_line number places) }
{
    (Decimal(number), (b" passed ", Decimal(places)), b"\n").put(buffer, at)
}

// Puts the line of a record with a fault: its number, the fault's, where it is met and after how many steps.
// Numbers and no enum: the line has any.
pub fn put_fault(
    buffer: &mut [u8],
    at: usize,
    number: usize,
    fault: usize,
    address: usize,
    steps: usize,
) -> usize
    ensures value { result ≡ end_of buffer.old at (fault_line number fault address steps) }
    ensures buffer_after { buffer.new ≡ put_at buffer.old at (fault_line number fault address steps) }
{
    (
        Decimal(number),
        (b" fault ", Decimal(fault)),
        (b" at ", Decimal(address)),
        (b" after ", Decimal(steps)),
        b"\n",
    )
        .put(buffer, at)
}

// Puts the line of a record that is refused: its number and the refusal's.
// Numbers and no enum: the line has any.
pub fn put_refused(buffer: &mut [u8], at: usize, number: usize, refusal: usize) -> usize
    ensures value { result ≡ end_of buffer.old at (refused_line number refusal) }
    ensures buffer_after { buffer.new ≡ put_at buffer.old at (refused_line number refusal) }
{
    (Decimal(number), (b" refused ", Decimal(refusal)), b"\n").put(buffer, at)
}
