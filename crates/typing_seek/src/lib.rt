// The searches through a buffer's words that the keyboard makes: for the cursor, and for the order of a field.
//
// The contracts cite `specs/Seek.antt`.
#![tactic(auto)]

ghost use Rattle.std.specs.Prelude.{◌≡◌};
ghost use Rattle.unit_cursor.specs.Cursor.{buffer};
ghost use Rattle.typing_seek.specs.Seek.{cursor_in, order_from, order_behind};

use ground_setup as setup;
use ground_setup::Size;
use typing_signs as signs;
use typing_signs::Locations;
use unit_cursor::Cursor;

// The cursor: the lowest location that it is at.
pub fn cursor_in(words: &[u16], cursor: Cursor, size: Size) -> Option<usize>
    ensures { result ≡ cursor_in (buffer words.now cursor) size }
{
    (0..setup::size_of(size)).find(|a| cursor.is_here(words, *a))
}

// The first order among n addresses, from one on back by two.
// A loop: `try_fold` was tried for that of typing_jump; the lemma from its list of turns is longer than the loop's proof.
#[tactic(auto, using(crate::proofs::Turns::order_one, crate::proofs::Turns::order_none))]
fn order_from(locations: Locations, n: usize, at: usize) -> Option<usize>
    ensures { result ≡ order_from locations.entry.words.now locations.entry.size n at }
{
    let mut a = at;
    for _ in 0..n {
        if locations.order_at(a) {
            return Some(setup::wrap(locations.size, a));
        }
        a = signs::back(locations.size, a, 2);
    }
    None
}

// The order that a location stands behind.
#[tactic(auto, unfolding(crate::specs::Seek::order_behind))]
pub fn order_behind(locations: Locations, at: usize) -> Option<usize>
    ensures { result ≡ order_behind locations.entry.words.now locations.entry.size at }
{
    let from = signs::back(locations.size, signs::even(locations.size, at), 2);
    order_from(locations, setup::size_of(locations.size), from)
}
