// The working store that a search of an image is lent: a bit for each place, and entries of three bytes behind the bits. A bit or
// an entry outside the store reads as 0, and none is stored there.
//
// `specs/Layout.antt` has the layout's numbers, `specs/Store.antt` bits and entries, `proofs/Bits.antt` their laws.
#![tactic(auto)]

ghost use Rattle.std.specs.Prelude.{◌≡◌, ◌↔◌, IsTrue, ◌+◌, ◌<◌};
ghost use Rattle.validator_store.specs.Layout.{room_of, base_of, cap_of};
ghost use Rattle.validator_store.specs.Store.{bit_of, marked, entry_at, saved, cleared};

use ground_setup as setup;
use ground_setup::Size;
use ground_words as words;
use validator_places as places;

// The bytes that are lent whatever the size.
pub const LEAST: usize = 32768;

// How many bytes of a store are lent to a search.
pub fn room_of(size: Size) -> usize
    ensures { (result ≡ room_of size) × (result < 0x100000) }
{
    (3 * setup::size_of(size)).max(LEAST)
}

// Where the entries begin.
pub fn base_of(size: Size) -> usize
    ensures { (result ≡ base_of size) × (result < 0x100000) }
{
    places::places_of(size) / 8 + 1
}

// The last entry that there is room for.
pub fn last_of(size: Size) -> usize
    ensures { (result + 1 ≡ cap_of size) × (result < 0x10000) }
{
    places::half_of(size) / 2
}

// Whether place p is marked.
#[tactic(auto, unfolding(crate::specs::Store::bit_of))]
pub fn seen(store: &[u8], p: usize) -> bool
    ensures { IsTrue result ↔ bit_of store.now p ≡ 1 }
{
    let byte = words::get_or(store, p / 8, 0);
    (byte >> (p % 8)) % 2 == 1
}

// Place p is marked.
#[tactic(auto, using(crate::proofs::Bits::set_marked, crate::proofs::Bits::outside_marked))]
pub fn mark(store: &mut [u8], p: usize)
    ensures { store.new ≡ marked store.old p }
{
    let i = p / 8;
    if i < store.len() {
        store[i] |= 1 << (p % 8);
    }
}

// The entry at byte i, its high byte before its middle one: that is quicker, as `entry_at` says. Outside the store it is 0, and no Option.
#[tactic(auto, unfolding(crate::specs::Store::entry_at))]
pub fn load(store: &[u8], i: usize) -> usize
    ensures { result ≡ entry_at store.now i }
{
    if store.len() < 3 || store.len() - 3 < i {
        return 0;
    }
    u32::from_le_bytes([store[i], store[i + 2], store[i + 1], 0]) as usize
}

// The entry at byte i becomes v.
#[tactic(auto, unfolding(crate::specs::Store::saved))]
pub fn save(store: &mut [u8], i: usize, v: usize)
    ensures { store.new ≡ saved store.old i v }
{
    if store.len() < 3 || store.len() - 3 < i {
        return;
    }
    let [low, middle, high, ..] = v.to_le_bytes();
    store[i] = low;
    store[i + 1] = high;
    store[i + 2] = middle;
}

// The first n bytes, or all where there are fewer, are made zero.
pub fn clear(store: &mut [u8], n: usize)
    ensures { store.new ≡ cleared store.old n }
{
    let end = n.min(store.len());
    store[..end].fill(0);
}
