// Loading a dump: a fresh unit with its words, or a refusal.
//
// The contracts cite `specs/Loading.antt`.
#![tactic(auto)]

ghost use Rattle.std.specs.Prelude.{◌≡◌, length};
ghost use Rattle.unit_head.specs.Head.{unit};
ghost use Rattle.unit_loading.specs.Loading.{all_proper, load_ended, fresh_loaded, unit_load};

use ground_location as location;
use ground_refusals::Refusal;
use ground_setup as setup;
use ground_setup::Size;
use ground_words::put_start;
use unit_cursor::Cursor;
use unit_head as head;
use unit_head::Head;

// Whether no word has an unused bit set.
#[tactic(auto, unfolding(crate::specs::Loading::all_proper))]
fn all_proper(dump: &[u16]) -> bool
    ensures { result ≡ all_proper dump.now }
{
    dump.iter().all(|word| location::proper(*word))
}

// Makes a unit a fresh one with the words of a dump.
#[tactic(auto, unfolding(crate::specs::Loading::dump_words))]
fn load_words(words: &mut [u16], size: Size, dump: &[u16]) -> Head
    ensures { unit words.new result ≡ fresh_loaded (length words.old) size dump.now }
{
    words.fill(location::FRESH);
    put_start(words, dump);
    head::fresh_head(size, Cursor::counted(words, size))
}

// Loads a dump: a fresh unit of that size with these words, or a refusal and the unit as it was.
// The size is a number: one that is none is a refusal.
#[tactic(auto, unfolding(crate::specs::Loading::unit_load))]
pub fn load(words: &mut [u16], head: &mut Head, size: usize, dump: &[u16]) -> Result<(), Refusal>
    ensures { load_ended words.new head.new result ≡ unit_load (unit words.old head.old) size dump.now }
{
    let size = Size::try_from(size)?;
    if dump.len() != setup::size_of(size) {
        return Err(Refusal::WrongCount);
    }
    if !all_proper(dump) {
        return Err(Refusal::UnusedBit);
    }
    *head = load_words(words, size, dump);
    Ok(())
}
