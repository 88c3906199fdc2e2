// Writing bytes into a buffer, and reading them out of it, from an address on.
//
// The contracts cite `specs/Buffer.antt`.
#![tactic(auto)]

ghost use Rattle.std.specs.Prelude.{◌≡◌};
ghost use Rattle.unit_cursor.specs.Cursor.{buffer};
ghost use Rattle.unit_buffer.specs.Buffer.{wrote, bytes_written, given_of, ended_at, room_read, read_of};

use ground_location as location;
use ground_setup as setup;
use ground_setup::Size;
use ground_words as words;
use unit_cursor::Cursor;

// How a read ended: the bytes given, the address then, and whether the parity of all was good.
#[derive(Clone, Copy)]
pub struct Read {
    pub count: usize,
    pub address: usize,
    pub good: bool,
}

// Writes the bytes from an address on, and gives the address behind the last.
#[tactic(auto, using(crate::proofs::Writing::write_one, crate::proofs::Writing::write_long, crate::proofs::Writing::write_all))]
pub fn write_in(
    words: &mut [u16],
    cursor: &mut Cursor,
    size: Size,
    at: usize,
    bytes: &[u8],
) -> usize
    ensures { wrote result (buffer words.new cursor.new) ≡ bytes_written size at bytes.now (buffer words.old cursor.old) }
{
    let mut a = setup::wrap(size, at);
    for byte in bytes {
        cursor.store(words, a, location::word_of(*byte, false, true));
        a = setup::ahead(size, a, 1);
    }
    a
}

// The byte that a read gives of a word, by whether the cursor was found.
// A flag: whether the cursor was found, as given_of has it.
fn given(found: bool, word: u16) -> u8
    ensures { result ≡ given_of found word }
{
    if found { 0x1A } else { location::data_of(word) }
}

// A read that ends at a word.
fn ended(size: Size, count: usize, a: usize, word: u16) -> Read
    ensures { result ≡ ended_at size count a word }
{
    let good = location::good(word);
    let address = if good { a } else { setup::ahead(size, a, 1) };
    Read {
        count,
        address,
        good,
    }
}

// Reads from an address on into the room, and stops behind bad parity or, where it seeks the cursor, there.
// A flag: whether the cursor is sought is half of the read's end, and read_of has it.
#[tactic(auto, using(crate::proofs::Reading::given_on, crate::proofs::Reading::given_last, crate::proofs::Reading::given_all, crate::proofs::Reading::read_on, crate::proofs::Reading::read_last, crate::proofs::Reading::read_all))]
pub fn read_out(
    words: &[u16],
    cursor: Cursor,
    size: Size,
    seek: bool,
    at: usize,
    room: &mut [u8],
) -> Read
    ensures { (result ≡ read_of (buffer words.now cursor) size seek at room.old) × (room.new ≡ room_read (buffer words.now cursor) size seek at room.old) }
{
    let mut a = setup::wrap(size, at);
    for (i, byte) in room.iter_mut().enumerate() {
        let word = words::word_at(words, a);
        let here = seek && cursor.is_here(words, a);
        *byte = given(here, word);
        if here || !location::good(word) {
            return ended(size, i + 1, a, word);
        }
        a = setup::ahead(size, a, 1);
    }
    Read {
        count: room.len(),
        address: a,
        good: true,
    }
}
