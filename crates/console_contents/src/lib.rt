// The lines of bytes that a command gave, and of words of the buffer, put into a buffer that the caller lends: each call answers where its
// line ends.
//
// The contracts cite `specs/Contents.antt`.
#![tactic(auto)]

ghost use Rattle.std.specs.Prelude.{◌≡◌, ◌+◌, ◌≤◌, get_or};
ghost use Rattle.text_put.specs.Text.{put_at, end_of, hex_byte, hex_word};
ghost use Rattle.ground_setup.specs.Setup.{size_of};
ghost use Rattle.console_contents.specs.Contents.{given_text, status_line, words_line};

use console_phrases::{Each, Row};
use console_replies as replies;
use ground_setup as setup;
use ground_setup::Size;
use ground_words as words;
use text_put::{HexByte, HexWord, Printed};

// The first bytes of a room.
// A count beside the room: given_text is of as many bytes as are told, and 0 behind the room's end.
#[derive(Clone, Copy)]
struct Bytes<'a>(&'a [u8], usize);

impl<'a> Row for Bytes<'a> {
    type Part = HexByte;

    ghost count = { λ r. r.1 };

    ghost text_of = { λ r i. hex_byte (get_or r.0.now i 0) };

    fn count(self) -> usize {
        self.1
    }

    fn part(self, i: usize) -> HexByte {
        HexByte(words::get_or(self.0, i, 0))
    }
}

// What stands behind a status: the bytes that were given, if there are any.
#[derive(Clone, Copy)]
struct Given<'a>(Bytes<'a>);

impl<'a> Printed for Given<'a> {
    ghost text = { λ g. given_text g.0.0.now g.0.1 };

    fn put(self, buffer: &mut [u8], at: usize) -> usize {
        if self.0.1 == 0 {
            return b"\n".put(buffer, at);
        }
        (b" ", Each(self.0), b"\n").put(buffer, at)
    }
}

// These two lines are functions with their own clauses: a line is put whole, so that a type for each would add a name and no promise.

// Puts a status and the first bytes of the room, as many as were given.
pub fn put_status(buffer: &mut [u8], at: usize, status: u8, room: &[u8], count: usize) -> usize
    ensures value { result ≡ end_of buffer.old at (status_line status room.now count) }
    ensures buffer_after { buffer.new ≡ put_at buffer.old at (status_line status room.now count) }
{
    (b"status ", HexByte(status), Given(Bytes(room, count))).put(buffer, at)
}

// The words from an address on, within the largest buffer.
#[derive(Clone, Copy)]
struct Words<'a> {
    words: &'a [u16],
    from: usize,
    count: usize,
    ghost within: { from + count ≤ 0x8000 },
}

impl<'a> Row for Words<'a> {
    type Part = HexWord;

    ghost count = { λ r. r.count };

    ghost text_of = { λ r i. hex_word (get_or r.words.now (r.from + i) 0) };

    fn count(self) -> usize {
        self.count
    }

    fn part(self, i: usize) -> HexWord {
        HexWord(words::word_at(self.words, self.from.saturating_add(i)))
    }
}

// Puts the line of the words from an address on, or `error` where there are none or they go past the size.
pub fn put_words(
    buffer: &mut [u8],
    at: usize,
    words: &[u16],
    size: Size,
    from: usize,
    count: usize,
) -> usize
    ensures value { result ≡ end_of buffer.old at (words_line words.now (size_of size) from count) }
    ensures buffer_after { buffer.new ≡ put_at buffer.old at (words_line words.now (size_of size) from count) }
{
    let end = setup::size_of(size);
    if count == 0 || end < count || end - count < from {
        return replies::put_error(buffer, at);
    }
    (Each(Words { words, from, count }), b"\n").put(buffer, at)
}
