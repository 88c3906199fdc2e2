// Standard input, one read at a time.
//
// The contract cites `specs/Input.antt`.
#![tactic(auto)]

ghost use Rattle.std.specs.Prelude.{length};
ghost use Rattle.text_input.specs.Input.{CameWithin};

use std::io::{Read, Stdin};

// What a read came to. Three cases: an Option in a Result names neither the end nor the failure.
#[derive(Clone, Copy)]
pub enum Came {
    // So many bytes, which stand at the front of the buffer.
    Bytes(usize),
    // The input has ended.
    End,
    // The input cannot be read, which is not its end.
    Failed,
}

// One read into the buffer.
pub fn read(mut stdin: Stdin, buffer: &mut [u8]) -> Came
    ensures { CameWithin (length buffer.old) result }
{
    match stdin.read(buffer) {
        Ok(0) => Came::End,
        Ok(count) => Came::Bytes(count),
        Err(_) => Came::Failed,
    }
}
