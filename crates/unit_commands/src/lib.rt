// The commands of the channel: each takes the words and the head of a unit, the bytes sent and the room lent, leaves them as they then are, and
// answers.
//
// The contracts cite `specs/Commands.antt`.
#![tactic(auto)]

ghost use Rattle.std.specs.Prelude.{◌≡◌, List, ℕ, Ok};
ghost use Rattle.ground_setup.specs.Setup.{wrap_of};
ghost use Rattle.unit_head.specs.Head.{unit};
ghost use Rattle.unit_commands.specs.Commands.{command_ended, done, busy, waiting_status, waiting_of, rejected_of, reset_before, sensed, written_by, read_ended, read_by, place_read, inserted_by, removed_by, started_by, stopped_by, done_of, allowed, tried_command, unit_command};

use ground_orders::Mode;
use ground_refusals::Refusal;
use ground_setup as setup;
use unit_beam as beam;
use unit_buffer as buffer;
use unit_buffer::Read;
use unit_codes as codes;
use unit_codes::{Command, CommandRow};
use unit_head as head;
use unit_head::{Head, State};
use unit_sense as sense;

// What a command answers that is not refused: its status, and how many bytes it gave.
#[derive(Clone, Copy)]
pub struct Reply {
    pub status: u8,
    pub count: usize,
}

// A status with Busy.
fn with_busy(status: u8) -> u8
    ensures { result ≡ busy status }
{
    if status / 0x10 % 2 == 1 {
        status
    } else {
        status + 0x10
    }
}

// The waiting status as a command is given it.
fn waiting_status(command: Command, status: u8) -> u8
    ensures { result ≡ waiting_status command status }
{
    if command == Command::TestIo {
        status
    } else {
        with_busy(status)
    }
}

// The answer by waiting status.
fn waiting(head: &mut Head, command: Command) -> Reply
    ensures { (words room : List ℕ) → command_ended words head.new (Ok result) room ≡ waiting_of (unit words head.old) command room }
{
    let status = waiting_status(command, head.status);
    head.status = 0;
    Reply { status, count: 0 }
}

// The answer of a reject.
fn rejected(head: &mut Head) -> Reply
    ensures { (words room : List ℕ) → command_ended words head.new (Ok result) room ≡ rejected_of (unit words head.old) room }
{
    head.sense = sense::bits(true, false, false, false);
    Reply {
        status: 0x02,
        count: 0,
    }
}

// Resets the sense data before a command, but for the three that leave it.
fn reset_before(head: &mut Head, command: Command)
    ensures { head.new ≡ reset_before command head.old }
{
    match command {
        Command::TestIo | Command::NoOperation | Command::Sense => {}
        _ => head.sense = sense::bits(false, false, false, false),
    }
}

// A command that is done and gives so many bytes.
fn ended(count: usize) -> Reply
    ensures { (result.status ≡ done) × (result.count ≡ count) }
{
    Reply {
        status: 0x0C,
        count,
    }
}

// Sense.
fn give_sense(head: &mut Head, room: &mut [u8]) -> Reply
    ensures { (words : List ℕ) → command_ended words head.new (Ok result) room.new ≡ sensed (unit words head.old) room.old }
{
    let count = sense::give_sense(room, head.state, head.sense);
    head.sense = sense::given(head.sense);
    ended(count)
}

// Write Buffer.
fn write_buffer(words: &mut [u16], head: &mut Head, bytes: &[u8]) -> Reply
    ensures { (room : List ℕ) → command_ended words.new head.new (Ok result) room ≡ written_by (unit words.old head.old) bytes.now room }
{
    let state = head.state;
    let address = buffer::write_in(
        words,
        &mut head.cursor,
        state.setup.size,
        state.address,
        bytes,
    );
    head.state = head::with_address(state, address);
    ended(0)
}

// A read that ended.
fn read_ended(head: &mut Head, read: Read) -> Reply
    ensures { (words room : List ℕ) → command_ended words head.new (Ok result) room ≡ read_ended (unit words head.old) read room }
{
    head.state = head::with_address(head.state, read.address);
    head.sense = sense::bits(false, !read.good, false, false);
    Reply {
        status: if read.good { 0x0C } else { 0x0E },
        count: read.count,
    }
}

// Read Buffer, or Read Cursor, which seeks the cursor.
// A flag: the two differ in this alone, and read_by has it.
fn read_buffer(words: &[u16], head: &mut Head, seek: bool, room: &mut [u8]) -> Reply
    ensures { command_ended words.now head.new (Ok result) room.new ≡ read_by (unit words.now head.old) seek room.old }
{
    let state = head.state;
    let read = buffer::read_out(
        words,
        head.cursor,
        state.setup.size,
        seek,
        state.address,
        room,
    );
    read_ended(head, read)
}

// Read XY.
fn read_xy(head: &mut Head, room: &mut [u8]) -> Reply
    ensures { (words : List ℕ) → command_ended words head.new (Ok result) room.new ≡ place_read (unit words head.old) room.old }
{
    let beam = head.state.beam;
    let count = sense::give(
        room,
        beam::high_byte(beam.x),
        beam::low_byte(beam.x),
        beam::high_byte(beam.y),
        beam::low_byte(beam.y),
    );
    ended(count)
}

// The location that a state's address is.
fn location_of(state: State) -> usize
    ensures { result ≡ wrap_of state.setup.size state.address }
{
    setup::wrap(state.setup.size, state.address)
}

// Insert Cursor.
fn insert_cursor(words: &mut [u16], head: &mut Head) -> Reply
    ensures { (room : List ℕ) → command_ended words.new head.new (Ok result) room ≡ inserted_by (unit words.old head.old) room }
{
    head.cursor.set_here(words, location_of(head.state));
    ended(0)
}

// Remove Cursor.
// Beside insert_cursor: one call each, and a definition each.
fn remove_cursor(words: &mut [u16], head: &mut Head) -> Reply
    ensures { (room : List ℕ) → command_ended words.new head.new (Ok result) room ≡ removed_by (unit words.old head.old) room }
{
    head.cursor.clear_here(words, location_of(head.state));
    ended(0)
}

// Set Buffer Address and Start.
// Beside set_and_stop: one new state each, and a definition each.
fn set_and_start(head: &mut Head, address: usize) -> Reply
    ensures { (words room : List ℕ) → command_ended words head.new (Ok result) room ≡ started_by (unit words head.old) address room }
{
    head.state = State {
        address,
        mode: Mode::Idle,
        running: true,
        ..head.state
    };
    ended(0)
}

// Set Buffer Address and Stop.
fn set_and_stop(head: &mut Head, address: usize) -> Reply
    ensures { (words room : List ℕ) → command_ended words head.new (Ok result) room ≡ stopped_by (unit words head.old) address room }
{
    head.state = State {
        address,
        running: false,
        ..head.state
    };
    ended(0)
}

// A command that is done.
fn done(
    words: &mut [u16],
    head: &mut Head,
    command: Command,
    bytes: &[u8],
    room: &mut [u8],
) -> Reply
    ensures { command_ended words.new head.new (Ok result) room.new ≡ done_of (unit words.old head.old) command bytes.now room.old }
{
    reset_before(head, command);
    match command {
        Command::TestIo => Reply {
            status: 0x00,
            count: 0,
        },
        Command::WriteBuffer => write_buffer(words, head, bytes),
        Command::ReadBuffer => read_buffer(words, head, false, room),
        Command::NoOperation => ended(0),
        Command::Sense => give_sense(head, room),
        Command::ReadCursor => read_buffer(words, head, head.cursor.is_set(), room),
        Command::SetAndStop => set_and_stop(head, codes::address_in(bytes)),
        Command::Alarm => ended(0),
        Command::InsertCursor => insert_cursor(words, head),
        Command::ReadXy => read_xy(head, room),
        Command::RemoveCursor => remove_cursor(words, head),
        Command::SetAndStart => set_and_start(head, codes::address_in(bytes)),
        Command::Invalid => rejected(head),
    }
}

// Whether a command is done, by whether it is done while the buffer runs.
fn is_allowed(while_running: bool, running: bool) -> bool
    ensures { result ≡ allowed while_running running }
{
    !running || while_running
}

// A command that is not refused: waiting status first, then a reject, else it is done.
#[tactic(auto, unfolding(crate::specs::Commands::tried_command))]
fn tried(
    words: &mut [u16],
    head: &mut Head,
    row: CommandRow,
    bytes: &[u8],
    room: &mut [u8],
) -> Reply
    ensures { command_ended words.new head.new (Ok result) room.new ≡ tried_command (unit words.old head.old) row bytes.now room.old }
{
    if head.status != 0 {
        return waiting(head, row.command);
    }
    if is_allowed(row.running, head.state.running) {
        done(words, head, row.command, bytes, room)
    } else {
        rejected(head)
    }
}

// Gives a command to the unit: the bytes sent with it, and the room lent for what it reads. A refusal leaves all as it was.
#[tactic(auto, unfolding(crate::specs::Commands::unit_command))]
pub fn command(
    words: &mut [u16],
    head: &mut Head,
    code: u8,
    bytes: &[u8],
    room: &mut [u8],
) -> Result<Reply, Refusal>
    ensures { command_ended words.new head.new result room.new ≡ unit_command (unit words.old head.old) code bytes.now room.old }
{
    let row = codes::row_of(code);
    codes::sent_by(head.state.setup.size, row.takes, bytes)?;
    Ok(tried(words, head, row, bytes, room))
}
