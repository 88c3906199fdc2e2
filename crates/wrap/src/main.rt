// wrap SIZE START: reads a raw image from standard input and writes it as one record of kind 1 to standard output. Wrong
// arguments and an image that no record can hold are told in one line on standard error, and nothing is written then.
//
// The contracts cite `specs/Wrap.antt`; what no contract can say is which bytes the system gives and takes.
#![tactic(auto)]

ghost use Rattle.std.specs.Prelude.{◌-◌, ◌≤◌, ◌≡◌, length, take};
ghost use Rattle.text_input.specs.Input.{CameWithin};
ghost use Rattle.wrap.specs.Wrap.{argument_of, asked_of, read_on, complaint_line, ReadWithin, ReadFor, Wraps};

use record_make as making;
use std::env::{Env, FillError};
use std::io::Stdin;
use std::ops::ControlFlow;
use text_input as input;
use text_input::Came;
use text_output as output;
use text_output::Output;
use text_parse as parse;
use text_parts as parts;

// What is wrong with the arguments or the image.
#[derive(Clone, Copy)]
enum Complaint {
    // There are not two arguments.
    Usage,
    // SIZE is no number of two bytes.
    Size,
    // START is no number of two bytes.
    Start,
    // The image has more than 65,535 bytes.
    Long,
    // The image cannot be read.
    Failed,
}

// What the arguments ask.
// Not an Image: numbers of two bytes, before there is an image.
#[derive(Clone, Copy)]
struct Asked {
    size: u16,
    start: u16,
}

// What was read, an image of so many bytes with what is asked for it, or a complaint; the line for standard error, how many of its bytes were
// told, and what became of standard output.
#[derive(Clone, Copy)]
struct Report {
    input: Result<(Asked, usize), Complaint>,
    line: &'static [u8],
    told: usize,
    output: Output,
}

// A text as a number of two bytes.
fn argument_of(text: &[u8]) -> Option<u16>
    ensures { result ≡ argument_of text.now }
{
    u16::try_from(parse::number_of(text)?).ok()
}

// What the arguments ask, counted with the program's own name.
fn asked_of(count: usize, size: &[u8], start: &[u8]) -> Result<Asked, Complaint>
    ensures { result ≡ asked_of count size.now start.now }
{
    if count != 3 {
        return Err(Complaint::Usage);
    }
    let size = argument_of(size).ok_or(Complaint::Size)?;
    let start = argument_of(start).ok_or(Complaint::Start)?;
    Ok(Asked { size, start })
}

// One read into the space, behind the bytes that stand there.
// A place beside the space: the memory is fixed, and a read gives as many bytes as it likes.
fn read_behind(stdin: Stdin, space: &mut [u8], end: usize) -> Came
    requires { end ≤ length space.old }
    ensures came_within { CameWithin (length space.old - end) result }
    ensures space_unchanged { take end space.new ≡ take end space.old }
{
    input::read(stdin, &mut space[end..])
}

// Where the reading stands after one more read: so many bytes stand in the space, and there may be more, or it is done.
fn read_on(room: usize, end: usize, came: Came) -> ControlFlow<Result<usize, Complaint>, usize>
    requires { end ≤ room }
    ensures { result ≡ read_on room end came }
{
    match came {
        Came::Bytes(count) if count < room - end => ControlFlow::Continue(end + count),
        Came::Bytes(_) => ControlFlow::Break(Err(Complaint::Long)),
        Came::End => ControlFlow::Break(Ok(end)),
        Came::Failed => ControlFlow::Break(Err(Complaint::Failed)),
    }
}

// Reads an image into the space, which a record's image never fills.
#[tactic(auto, using(crate::proofs::Laws::further))]
fn read_image(stdin: Stdin, space: &mut [u8]) -> Result<usize, Complaint>
    ensures { ReadWithin (length space.old) result }
{
    let room = space.len();
    let mut end = 0;
    // A while: a read gives as many bytes as it likes.
    while end < room {
        let came = read_behind(stdin, space, end);
        match read_on(room, end, came) {
            ControlFlow::Continue(next) => end = next,
            ControlFlow::Break(found) => return found,
        }
    }
    Err(Complaint::Long)
}

// Reads the image, where the arguments ask for it.
fn read_asked(
    stdin: Stdin,
    asked: Result<Asked, Complaint>,
    space: &mut [u8],
) -> Result<(Asked, usize), Complaint>
    ensures { ReadFor asked (length space.old) result }
{
    let asked = asked?;
    let count = read_image(stdin, space)?;
    Ok((asked, count))
}

// The line of a complaint.
fn line_of(complaint: Complaint) -> &'static [u8]
    ensures { result.now ≡ complaint_line complaint }
{
    match complaint {
        Complaint::Usage => b"usage: wrap SIZE START < IMAGE > RECORD\n",
        Complaint::Size => b"wrap: SIZE is not a decimal number from 0 to 65535\n",
        Complaint::Start => b"wrap: START is not a decimal number from 0 to 65535\n",
        Complaint::Long => b"wrap: the image has more than 65535 bytes\n",
        Complaint::Failed => b"wrap: the image cannot be read\n",
    }
}

// From the arguments, counted with the program's own name, and the input to what is written.
fn wrap_in(
    stdin: Stdin,
    count: usize,
    size: &[u8],
    start: &[u8],
    space: &mut [u8; 65536],
    out: &mut [u8; 65546],
) -> Report
    ensures { Wraps (asked_of count size.now start.now) space.new out.new result }
{
    let asked = asked_of(count, size, start);
    let input = read_asked(stdin, asked, space);
    let mut output = Output::fresh();
    match input {
        Ok((Asked { size, start }, count)) => {
            let end = making::put_record(out, parts::first(space, count), size, start);
            output.write(parts::first(out, end));
            Report {
                input,
                line: b"",
                told: 0,
                output,
            }
        }
        Err(complaint) => {
            let line = line_of(complaint);
            let told = output::tell(line);
            Report {
                input,
                line,
                told,
                output,
            }
        }
    }
}

// How many arguments there are, the program's own name among them.
fn arguments(env: &impl Env) -> usize {
    let mut first = [0u8; 1];
    for at in 0..usize::MAX {
        if let Err(FillError::NotPresent) = env.arg(at, &mut first) {
            return at;
        }
    }
    usize::MAX
}

// Puts an argument at the front of a buffer, and answers where it ends: of one that is longer than the buffer its first bytes stand there.
fn put_argument(env: &impl Env, at: usize, buffer: &mut [u8]) -> usize
    ensures { result ≤ length buffer.old }
{
    match env.arg(at, buffer) {
        Ok(end) => end,
        Err(FillError::TooLong) => buffer.len(),
        Err(FillError::NotPresent) => 0,
    }
}

// Lends the memory, and asks the system for the arguments.
fn main(rt: HostRuntime) {
    let mut size = [0u8; 16];
    let mut start = [0u8; 16];
    let mut space = [0u8; 65536];
    let mut out = [0u8; 65546];
    let size_end = put_argument(&rt, 1, &mut size);
    let start_end = put_argument(&rt, 2, &mut start);
    wrap_in(
        rt.stdin(),
        arguments(&rt),
        parts::first(&size, size_end),
        parts::first(&start, start_end),
        &mut space,
        &mut out,
    );
}
