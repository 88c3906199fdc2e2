// The console's requests, each answered by the unit, which is left as the request makes it: the answer is put into a buffer that the caller
// lends.
//
// The contracts cite `specs/Session.antt`.
#![tactic(auto)]

ghost use Rattle.std.specs.Prelude.{◌≡◌, ◌*◌, ◌≤◌, length, replicate};
ghost use Rattle.ground_setup.specs.Setup.{sized_of};
ghost use Rattle.unit_loading.specs.Loading.{unit_load};
ghost use Rattle.unit_commands.specs.Commands.{unit_command};
ghost use Rattle.typing_keys.specs.Keys.{unit_key};
ghost use Rattle.device_2250.specs.Device.{unit_of};
ghost use Rattle.console_run.specs.Pair.{pair_run};
ghost use Rattle.console_script.specs.Script.{rest_of, request_of};
ghost use Rattle.console_decode.specs.Decode.{bytes_in, words_in, sights_in};
ghost use Rattle.console_session.specs.Session.{fresh_said, load_said, command_said, run_said, key_said, cursor_said, words_said, bytes_sent, dump_sent, sights_sent, said_by, said_of, Speaks, Responds};

use console_conditions as conditions;
use console_contents as contents;
use console_decode as decode;
use console_phrases as phrases;
use console_pictures as pictures;
use console_replies as replies;
use console_run as run;
use console_script as script;
use console_script::Request;
use device_2250::Device;
use ground_refusals::Refusal;
use ground_setup::Size;
use text_put::Printed;

// A line that is not too long, or what stands in it behind a space.
#[derive(Clone, Copy)]
struct Text<'a> {
    bytes: &'a [u8],
    ghost within: { length bytes.now ≤ 40000 },
}

impl<'a> Text<'a> {
    // What stands behind the first space.
    #[tactic(auto, using(crate::proofs::Laws::rest_shorter))]
    fn rest(self) -> Text<'a>
        ensures { result.bytes.now ≡ rest_of self.entry.bytes.now }
    {
        Text {
            bytes: script::rest_of(self.bytes),
        }
    }
}

// These functions answer a request: its text is put and its end given, or the refusal, of which nothing is put yet.

// A fresh unit of a size.
fn fresh(device: &mut Device, size: usize, lines: &mut [u8], at: usize) -> Result<usize, Refusal>
    ensures { Responds (fresh_said device.old (sized_of size)) lines.old at lines.new device.new result }
{
    *device = Device::fresh(Size::try_from(size)?);
    Ok(replies::put_ok(lines, at))
}

// Loads the words of a text, by way of a dump of so many.
fn load_through(
    device: &mut Device,
    size: usize,
    text: &[u8],
    dump: &mut [u16],
    lines: &mut [u8],
    at: usize,
) -> Result<usize, Refusal>
    ensures { Responds (load_said (unit_load (unit_of device.old) size (words_in text.now (length dump.old)))) lines.old at lines.new device.new result }
{
    decode::read_words(text, dump);
    device.load(size, dump)?;
    Ok(replies::put_ok(lines, at))
}

// Loads the words of a text.
fn load_text(
    device: &mut Device,
    size: usize,
    text: Text,
    lines: &mut [u8],
    at: usize,
) -> Result<usize, Refusal>
    ensures { Responds (load_said (unit_load (unit_of device.old) size (dump_sent text.entry.bytes.now))) lines.old at lines.new device.new result }
{
    let mut dump = [0u16; 10000];
    let count = text.bytes.len() / 4;
    load_through(device, size, text.bytes, &mut dump[0..count], lines, at)
}

// Gives a command with the bytes of a text, by way of so many data, and lends it a room.
fn command_through(
    device: &mut Device,
    code: u8,
    text: &[u8],
    bytes: &mut [u8],
    room: &mut [u8],
    lines: &mut [u8],
    at: usize,
) -> Result<usize, Refusal>
    ensures { Responds (command_said (unit_command (unit_of device.old) code (bytes_in text.now (length bytes.old)) room.old)) lines.old at lines.new device.new result }
{
    decode::read_bytes(text, bytes);
    let reply = device.command(code, bytes, room)?;
    Ok(contents::put_status(lines, at, reply.status, room, reply.count))
}

// Gives a command with the bytes of a text and a room of so many bytes.
fn command_text(
    device: &mut Device,
    code: u8,
    count: usize,
    text: Text,
    lines: &mut [u8],
    at: usize,
) -> Result<usize, Refusal>
    requires { count ≤ 65535 }
    ensures { Responds (command_said (unit_command (unit_of device.old) code (bytes_sent text.entry.bytes.now) (replicate count 0))) lines.old at lines.new device.new result }
{
    let mut bytes = [0u8; 20000];
    let mut room = [0u8; 65535];
    let sent = text.bytes.len() / 2;
    command_through(
        device,
        code,
        text.bytes,
        &mut bytes[0..sent],
        &mut room[0..count],
        lines,
        at,
    )
}

// Runs the unit over the sights of a text, by way of so many sights, and lends it a list.
fn run_through(
    device: &mut Device,
    text: &[u8],
    sights: &mut [u8],
    list: &mut [u16],
    lines: &mut [u8],
    at: usize,
) -> Result<usize, Refusal>
    ensures { Responds (run_said (pair_run (unit_of device.old) (sights_in text.now (length sights.old)) list.old)) lines.old at lines.new device.new result }
{
    decode::read_sights(text, sights);
    let ran = run::run(&device.words, &mut device.head, sights, list)?;
    let why = u8::from(ran.outcome);
    let middle = replies::put_ran(lines, at, ran.steps, why, ran.items);
    Ok(pictures::put_items(lines, middle, list, ran.items))
}

// Runs the unit over the sights of a text with room for so many items.
// Beside command_text: the buffers that it lends are of other types and sizes.
fn run_text(
    device: &mut Device,
    room: usize,
    text: Text,
    lines: &mut [u8],
    at: usize,
) -> Result<usize, Refusal>
    requires { room ≤ 4096 }
    ensures { Responds (run_said (pair_run (unit_of device.old) (sights_sent text.entry.bytes.now) (replicate (8 * room) 0))) lines.old at lines.new device.new result }
{
    let mut sights = [0u8; 40000];
    let mut list = [0u16; 32768];
    let steps = text.bytes.len();
    let count = 8 * room;
    run_through(
        device,
        text.bytes,
        &mut sights[0..steps],
        &mut list[0..count],
        lines,
        at,
    )
}

// A key that is heard or not.
fn press(device: &mut Device, number: u16, lines: &mut [u8], at: usize) -> Result<usize, Refusal>
    ensures { Responds (key_said (unit_key (unit_of device.old) number)) lines.old at lines.new device.new result }
{
    let heard = device.key(number)?;
    Ok(replies::put_heard(lines, at, heard.is_some()))
}

// Whether any cursor is set.
fn show_cursor(device: &Device, lines: &mut [u8], at: usize) -> usize
    ensures { Speaks (cursor_said device.now) lines.old at lines.new device.now result }
{
    phrases::either(device.any_cursor(), b"yes\n", b"no\n").put(lines, at)
}

// Words of the unit.
fn show_words(device: &Device, from: usize, count: usize, lines: &mut [u8], at: usize) -> usize
    ensures { Speaks (words_said device.now from count) lines.old at lines.new device.now result }
{
    let size = device.head.state.setup.size;
    contents::put_words(lines, at, &device.words, size, from, count)
}

// Answers a request of a line.
#[tactic(auto, using(crate::proofs::Fits::request_fits, text_put::proofs::Laws::put_no_text))]
fn answer_by(device: &mut Device, line: Text, lines: &mut [u8], at: usize) -> Result<usize, Refusal>
    ensures { Responds (said_by device.old line.entry.bytes.now (request_of line.entry.bytes.now)) lines.old at lines.new device.new result }
{
    Ok(match script::request_of(line.bytes) {
        Request::Fresh(size) => fresh(device, size, lines, at)?,
        Request::Load(size) => load_text(device, size, line.rest().rest(), lines, at)?,
        Request::Command(code, room) => {
            let text = line.rest().rest().rest();
            command_text(device, code, room, text, lines, at)?
        }
        Request::Halt => {
            device.halt();
            replies::put_ok(lines, at)
        }
        Request::SwitchOpen => {
            device.switch_to(false);
            replies::put_ok(lines, at)
        }
        Request::SwitchClosed => {
            device.switch_to(true);
            replies::put_ok(lines, at)
        }
        Request::Run(room) => run_text(device, room, line.rest().rest(), lines, at)?,
        Request::State => conditions::put_state(lines, at, device.head),
        Request::Words(from, count) => show_words(device, from, count, lines, at),
        Request::Key(number) => press(device, number, lines, at)?,
        Request::Cursor => show_cursor(device, lines, at),
        Request::Empty => phrases::put_nothing(lines, at),
        Request::Error => replies::put_error(lines, at),
    })
}

// Answers a line of a script: the unit is left as it makes it, and its answer put into the buffer from a place on.
#[tactic(auto, using(crate::proofs::Laws::said_short, crate::proofs::Laws::said_long))]
pub fn answer(device: &mut Device, line: &[u8], lines: &mut [u8], at: usize) -> usize
    ensures { Speaks (said_of device.old line.now) lines.old at lines.new device.new result }
{
    if line.len() <= 40000 {
        match answer_by(device, Text { bytes: line }, lines, at) {
            Ok(end) => end,
            Err(refusal) => replies::put_refused(lines, at, u8::from(refusal)),
        }
    } else {
        replies::put_error(lines, at)
    }
}
