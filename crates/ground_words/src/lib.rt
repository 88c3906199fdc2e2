// The words of a buffer of any size, lent as a slice: one read and one store, for every index. The bytes that a command is sent and lent are
// read and put alike.
#![tactic(auto)]

ghost use Rattle.std.specs.Prelude.{◌≡◌, get_or, set, min, length};
ghost use Rattle.std.proofs.lemmas.List.Edits.{sets};

// The element at an index, and another one outside.
pub fn get_or<T: Copy>(elements: &[T], i: usize, outside: T) -> T
    ensures { result ≡ get_or elements.now i outside }
{
    elements.get(i).copied().unwrap_or(outside)
}

// Puts elements at the front of a slice, as far as there is room, and answers how many.
#[tactic(auto, using(crate::proofs::Puts::put_prefix))]
pub fn put_start<T: Copy>(elements: &mut [T], from: &[T]) -> usize
    ensures { (result ≡ min (length from.now) (length elements.old)) × (elements.new ≡ sets elements.old 0 from.now) }
{
    let n = from.len().min(elements.len());
    elements[..n].copy_from_slice(&from[..n]);
    n
}

// The word at an index, and 0 outside.
pub fn word_at(words: &[u16], i: usize) -> u16
    ensures { result ≡ get_or words.now i 0 }
{
    get_or(words, i, 0)
}

// Stores a word at an index, and nothing outside.
pub fn put_word(words: &mut [u16], i: usize, word: u16)
    ensures { words.new ≡ set words.old i word }
{
    // An index: of what `get_mut` lends, a proof knows no element afterwards.
    if i < words.len() {
        words[i] = word;
    }
}
