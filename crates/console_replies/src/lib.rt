// The lines that answer a request, put into a buffer that the caller lends: each call answers where its line ends.
//
// The contracts cite `specs/Replies.antt`.
#![tactic(auto)]

ghost use Rattle.std.specs.Prelude.{◌≡◌};
ghost use Rattle.text_put.specs.Text.{put_at, end_of};
ghost use Rattle.console_replies.specs.Replies.{ok_line, error_line, refusal_line, heard_line, ran_line};

use console_phrases as phrases;
use text_put::{Decimal, Printed};

// Functions with their own clauses: a line is put whole and stands in no tuple, so that a type for each would add a name and no promise.

// Puts `ok`.
pub fn put_ok(buffer: &mut [u8], at: usize) -> usize
    ensures value { result ≡ end_of buffer.old at ok_line }
    ensures buffer_after { buffer.new ≡ put_at buffer.old at ok_line }
{
    b"ok\n".put(buffer, at)
}

// Puts `error`.
pub fn put_error(buffer: &mut [u8], at: usize) -> usize
    ensures value { result ≡ end_of buffer.old at error_line }
    ensures buffer_after { buffer.new ≡ put_at buffer.old at error_line }
{
    b"error\n".put(buffer, at)
}

// Puts the number of a refusal.
// A number and no enum: the line has any.
pub fn put_refused(buffer: &mut [u8], at: usize, refusal: u8) -> usize
    ensures value { result ≡ end_of buffer.old at (refusal_line refusal) }
    ensures buffer_after { buffer.new ≡ put_at buffer.old at (refusal_line refusal) }
{
    (b"refused ", Decimal(usize::from(refusal)), b"\n").put(buffer, at)
}

// Puts whether a key was heard.
// A flag: heard_line has the two words.
pub fn put_heard(buffer: &mut [u8], at: usize, heard: bool) -> usize
    ensures value { result ≡ end_of buffer.old at (heard_line heard) }
    ensures buffer_after { buffer.new ≡ put_at buffer.old at (heard_line heard) }
{
    phrases::either(heard, b"heard\n", b"unheard\n").put(buffer, at)
}

// Puts the steps of a run, why it ended and how many items it listed.
// A number and no enum: the line has any.
pub fn put_ran(buffer: &mut [u8], at: usize, steps: usize, why: u8, items: usize) -> usize
    ensures value { result ≡ end_of buffer.old at (ran_line steps why items) }
    ensures buffer_after { buffer.new ≡ put_at buffer.old at (ran_line steps why items) }
{
    (
        (b"ran ", Decimal(steps)),
        (b" end ", Decimal(usize::from(why))),
        (b" items ", Decimal(items)),
        b"\n",
    )
        .put(buffer, at)
}
