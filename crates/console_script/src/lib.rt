// The requests of a script, line by line: what a line asks for, and what stands behind its words.
//
// The contracts cite `specs/Script.antt`.
#![tactic(auto)]

ghost use Rattle.std.specs.Prelude.{◌≡◌, ◌<◌, cond, ◌&&◌, eqb, length};
ghost use Rattle.std.specs.Option.{unwrap_or};
ghost use Rattle.text_parse.specs.Parse.{parsed_of};
ghost use Rattle.text_digits.specs.Digits.{all_below, hex_byte_at};
ghost use Rattle.console_script.specs.declared.Request.TheVariants.{Error};
ghost use Rattle.console_script.specs.Script.{first_word, rest_of, lone as Script·lone, are_hex, are_sights, up_to, load_in, room_in, command_in, run_in, range_in, code_in, key_in, argued_of, plain_of, request_of};

use text_digits as digits;
use text_parse as parse;
use text_parts as parts;

// What a line asks for. What follows the numbers, in `Load`, `Command` and `Run`, is found by `rest_of`.
// Not an Option: Error is a request that is answered, as each is.
#[derive(Clone, Copy)]
pub enum Request {
    Fresh(usize),
    Load(usize),
    Command(u8, usize),
    Halt,
    SwitchOpen,
    SwitchClosed,
    Run(usize),
    State,
    Words(usize, usize),
    // A key by its number.
    Key(u16),
    Cursor,
    Empty,
    Error,
}

// What stands behind the first space of a line.
#[tactic(auto, unfolding(crate::specs::Script::rest_of))]
pub fn rest_of(line: &[u8]) -> &[u8]
    ensures { result.now ≡ rest_of line.now }
{
    let end = parse::index_of(b' ', line);
    parts::behind(line, end + 1)
}

// Whether a line is one word.
#[tactic(auto, unfolding(crate::specs::Script::lone))]
fn lone(line: &[u8]) -> bool
    ensures { result ≡ Script·lone line.now }
{
    parse::index_of(b' ', line) == line.len()
}

// Whether a text is hexadecimal numbers of so many digits each.
#[tactic(auto, unfolding(crate::specs::Script::are_hex))]
fn is_hex(width: usize, text: &[u8]) -> bool
    requires { 0 < width }
    ensures { result ≡ are_hex width text.now }
{
    !text.is_empty() && text.len() % width == 0 && digits::all_below(16, text)
}

// Whether a text is sights of one digit each.
#[tactic(auto, unfolding(crate::specs::Script::are_sights))]
fn is_sights(text: &[u8]) -> bool
    ensures { result ≡ are_sights text.now }
{
    !text.is_empty() && digits::all_below(10, text)
}

// The byte of a text of two digits.
fn byte_of(text: &[u8]) -> Option<u8>
    ensures { result ≡ cond (eqb (length text.now) 2 && all_below 16 text.now) (Some (hex_byte_at text.now 0)) None }
{
    if text.len() != 2 || !digits::all_below(16, text) {
        return None;
    }
    Some(digits::byte_at(text, 0))
}

// The number of a text's first word, up to a bound.
#[tactic(auto, unfolding(crate::specs::Script::first_word))]
fn number_up_to(most: usize, text: &[u8]) -> Option<usize>
    ensures { result ≡ up_to most (parsed_of (first_word text.now)) }
{
    parse::number_of(parse::before(b' ', text)).filter(|number| *number <= most)
}

// What stands behind `load`.
#[tactic(auto, unfolding(crate::specs::Script::load_in, crate::specs::Script::first_word))]
fn load_of(rest: &[u8]) -> Option<Request>
    ensures { unwrap_or result Error ≡ load_in rest.now }
{
    if !is_hex(4, rest_of(rest)) {
        return None;
    }
    parse::number_of(parse::before(b' ', rest)).map(Request::Load)
}

// What stands behind a command's code.
#[tactic(auto, using(crate::proofs::Laws::room_is), unfolding(crate::specs::Script::room_in, crate::specs::Script::first_word))]
fn room_of(code: u8, rest: &[u8]) -> Option<Request>
    ensures { unwrap_or result Error ≡ room_in code rest.now }
{
    if !lone(rest) && !is_hex(2, rest_of(rest)) {
        return None;
    }
    Some(Request::Command(code, number_up_to(65535, rest)?))
}

// What stands behind `command`.
#[tactic(auto, unfolding(crate::specs::Script::command_in, crate::specs::Script::first_word))]
fn command_of(rest: &[u8]) -> Option<Request>
    ensures { unwrap_or result Error ≡ command_in rest.now }
{
    let code = byte_of(parse::before(b' ', rest))?;
    room_of(code, rest_of(rest))
}

// What stands behind `run`.
#[tactic(auto, using(crate::proofs::Laws::run_is), unfolding(crate::specs::Script::run_in, crate::specs::Script::first_word))]
fn run_of(rest: &[u8]) -> Option<Request>
    ensures { unwrap_or result Error ≡ run_in rest.now }
{
    if !lone(rest) && !is_sights(rest_of(rest)) {
        return None;
    }
    number_up_to(4096, rest).map(Request::Run)
}

// What stands behind `words`.
#[tactic(auto, unfolding(crate::specs::Script::range_in, crate::specs::Script::first_word))]
fn words_of(rest: &[u8]) -> Option<Request>
    ensures { unwrap_or result Error ≡ range_in rest.now }
{
    let from = parse::number_of(parse::before(b' ', rest))?;
    let count = parse::number_of(rest_of(rest))?;
    Some(Request::Words(from, count))
}

// The key of a code in two digits.
#[tactic(auto, unfolding(crate::specs::Script::code_in))]
fn code_of(rest: &[u8]) -> Option<Request>
    ensures { unwrap_or result Error ≡ code_in rest.now }
{
    Some(Request::Key(u16::from(byte_of(rest)?)))
}

// What stands behind `key`.
// By number: any code of two digits is a request, and one that no key has is the unit's refusal (`unit_key`).
#[tactic(auto, unfolding(crate::specs::Script::key_in))]
fn key_of(rest: &[u8]) -> Option<Request>
    ensures { unwrap_or result Error ≡ key_in rest.now }
{
    match rest {
        b"advance" => Some(Request::Key(256)),
        b"backspace" => Some(Request::Key(257)),
        b"jump" => Some(Request::Key(258)),
        _ => code_of(rest),
    }
}

// A request with arguments, by its first word.
#[tactic(auto, unfolding(crate::specs::Script::argued_of))]
fn argued_of(word: &[u8], rest: &[u8]) -> Option<Request>
    ensures { unwrap_or result Error ≡ argued_of word.now rest.now }
{
    match word {
        b"command" => command_of(rest),
        b"run" => run_of(rest),
        b"words" => words_of(rest),
        b"load" => load_of(rest),
        b"fresh" => parse::number_of(rest).map(Request::Fresh),
        b"key" => key_of(rest),
        _ => None,
    }
}

// A request of a line that is not passed over.
#[tactic(auto, unfolding(crate::specs::Script::plain_of, crate::specs::Script::first_word))]
fn plain_of(line: &[u8]) -> Option<Request>
    ensures { unwrap_or result Error ≡ plain_of line.now }
{
    // Not a match as in `argued_of`: with the two words of `switch` its default did not close.
    if line == b"state".as_slice() {
        return Some(Request::State);
    }
    if line == b"halt".as_slice() {
        return Some(Request::Halt);
    }
    if line == b"switch open".as_slice() {
        return Some(Request::SwitchOpen);
    }
    if line == b"switch closed".as_slice() {
        return Some(Request::SwitchClosed);
    }
    if line == b"cursor".as_slice() {
        return Some(Request::Cursor);
    }
    argued_of(parse::before(b' ', line), rest_of(line))
}

// What a line asks for.
#[tactic(auto, unfolding(crate::specs::Script::request_of))]
pub fn request_of(line: &[u8]) -> Request
    ensures { result ≡ request_of line.now }
{
    if line.is_empty() || line[0] == b'#' {
        return Request::Empty;
    }
    plain_of(line).unwrap_or(Request::Error)
}
