// One location of the buffer: a 16-bit word of data, cursor bit, parity bit and the house bit "written".
//
// The contracts cite `specs/Location.antt`; `proofs/Laws.antt` says what a stored word holds.
#![tactic(auto)]

ghost use Rattle.std.specs.Prelude.{◌≡◌, ◌≤◌};
ghost use Rattle.ground_location.specs.Location.{data_of, cursor_of, parity_of, written_of, proper_of, good_of, word_of, parity_bit, fresh_word};

// The word of a location that nothing was stored in.
pub const FRESH: u16 = 0x200;

// The data byte.
pub fn data_of(word: u16) -> u8
    ensures { result ≡ data_of word }
{
    (word % 0x100) as u8
}

// Whether the cursor bit C is set.
pub fn cursor_of(word: u16) -> bool
    ensures { result ≡ cursor_of word }
{
    word / 0x100 % 2 == 1
}

// Whether the parity bit P is set.
pub fn parity_of(word: u16) -> bool
    ensures { result ≡ parity_of word }
{
    word / 0x200 % 2 == 1
}

// Whether the location is written.
pub fn written_of(word: u16) -> bool
    ensures { result ≡ written_of word }
{
    word / 0x400 % 2 == 1
}

// Whether no unused bit is set.
pub fn proper(word: u16) -> bool
    ensures { result ≡ proper_of word }
{
    word / 0x800 == 0
}

// Whether the ones among data, C and P are odd in number.
pub fn good(word: u16) -> bool
    ensures { result ≡ good_of word }
{
    (word % 0x400).count_ones() % 2 == 1
}

// The parity bit that goes with data and C.
fn parity_bit(low: u16) -> u16
    ensures { (result ≡ parity_bit low) × (result ≤ 0x200) }
{
    if low.count_ones() % 2 == 0 { 0x200 } else { 0 }
}

// The word that a store makes: its ones among data, C and P are odd in number.
#[tactic(auto, unfolding(crate::specs::Location::word_of))]
pub fn word_of(byte: u8, cursor: bool, written: bool) -> u16
    ensures { result ≡ word_of byte cursor written }
{
    let low = u16::from(byte) + u16::from(cursor) * 0x100;
    low + parity_bit(low) + u16::from(written) * 0x400
}

// The word of a location that nothing was stored in.
pub fn fresh() -> u16
    ensures { result ≡ fresh_word }
{
    FRESH
}
