// Drawn items: the four cases of one, what a step may draw, and the list that is lent for them, eight numbers to an item.
#![tactic(auto)]

ghost use Rattle.std.specs.Prelude.{◌≡◌, cond, [], ◌∷◌, ◌+◌, ◌-◌, ◌*◌, ◌≤◌, length};
ghost use Rattle.std.proofs.lemmas.List.Edits.{sets};
ghost use Rattle.unit_items.specs.Items.{size_number, numbers_of, items_in, items_of, numbers, listed, listing};

use unit_beam::CharacterSize;

// One thing drawn, with the address of its first byte; of a point and a vector, whether the step that drew it left the screen.
#[derive(Clone, Copy)]
pub enum Item {
    Point {
        x: u16,
        y: u16,
        off: bool,
        at: u16,
    },
    Vector {
        from_x: u16,
        from_y: u16,
        x: u16,
        y: u16,
        off: bool,
        at: u16,
    },
    Character {
        size: CharacterSize,
        x: u16,
        y: u16,
        code: u16,
        at: u16,
    },
    Cursor {
        size: CharacterSize,
        x: u16,
        y: u16,
        code: u16,
        at: u16,
    },
}

// What coordinates draw, or one code.
// Not two Options: a second item comes only behind a first.
#[derive(Clone, Copy)]
pub enum Part {
    Nothing,
    One(Item),
    Two(Item, Item),
}

// What a step draws, in order: coordinates have the first part alone, two codes have one each.
#[derive(Clone, Copy)]
pub struct Drawn {
    pub first: Part,
    pub second: Part,
}

// A character size's number.
// The discriminant itself. No From: `size_number` stands here, above the type.
fn size_number(size: CharacterSize) -> u16
    ensures { result ≡ size_number size }
{
    size as u16
}

// The eight numbers of an item.
fn numbers_of(item: Item) -> [u16; 8]
    ensures { result ≡ numbers_of item }
{
    match item {
        Item::Point { x, y, off, at } => [1, x, y, x, y, u16::from(off), 0, at],
        Item::Vector {
            from_x,
            from_y,
            x,
            y,
            off,
            at,
        } => [2, from_x, from_y, x, y, u16::from(off), 0, at],
        Item::Character {
            x,
            y,
            code,
            size,
            at,
        } => [3, x, y, x, y, code, size_number(size), at],
        Item::Cursor {
            x,
            y,
            code,
            size,
            at,
        } => [4, x, y, x, y, code, size_number(size), at],
    }
}

// An item is put in its place.
#[tactic(auto, using(crate::proofs::Lists::run, crate::proofs::Lists::eight_numbers))]
fn put_item(out: &mut [u16], at: usize, item: Item)
    requires { at + 8 ≤ length out.old }
    ensures { out.new ≡ sets out.old at (numbers_of item) }
{
    out[at..at + 8].copy_from_slice(&numbers_of(item));
}

// How many items a part has.
// A quantity, not the number of a kind.
fn count(part: Part) -> usize
    ensures { (result ≡ length (items_in part)) × (result ≤ 2) }
{
    match part {
        Part::Nothing => 0,
        Part::One(_) => 1,
        Part::Two(_, _) => 2,
    }
}

// A part's items are put in their place.
fn put_part(out: &mut [u16], at: usize, part: Part)
    requires { at + 8 * length (items_in part) ≤ length out.old }
    ensures { out.new ≡ sets out.old at (numbers (items_in part)) }
{
    match part {
        Part::Nothing => {}
        Part::One(i) => put_item(out, at, i),
        Part::Two(i, j) => {
            put_item(out, at, i);
            put_item(out, at + 8, j);
        }
    }
}

// The items are put into the list behind those that it holds, where they all fit.
// The list and how many it holds are two parameters, as listing and listed have them and the C interface lends them.
#[tactic(auto, using(crate::proofs::Lists::two_runs, crate::proofs::Laws::none_listing, crate::proofs::Laws::none_listed), unfolding(crate::specs::Items::items_of, crate::specs::Items::listing, crate::specs::Items::listed))]
pub fn list(out: &mut [u16], held: usize, drawn: Drawn) -> Option<usize>
    ensures { (result ≡ listing (length out.old) held (items_of drawn)) × (out.new ≡ listed out.old held (items_of drawn)) }
{
    let n = count(drawn.first);
    let all = n + count(drawn.second);
    if all == 0 {
        Some(held)
    } else if all <= (out.len() / 8).saturating_sub(held) {
        put_part(out, held * 8, drawn.first);
        put_part(out, (held + n) * 8, drawn.second);
        Some(held + all)
    } else {
        None
    }
}

// One item is put into the list behind those that it holds, where it fits.
#[tactic(auto, unfolding(crate::specs::Items::listing, crate::specs::Items::listed))]
fn list_item(out: &mut [u16], held: usize, item: Item) -> Option<usize>
    ensures { (result ≡ listing (length out.old) held (item ∷ [])) × (out.new ≡ listed out.old held (item ∷ [])) }
{
    if held < out.len() / 8 {
        put_item(out, held * 8, item);
        Some(held + 1)
    } else {
        None
    }
}

// An item is put into the list behind those that it holds, if it is drawn, where it fits.
// A flag beside the item: an Option<Item> was tried, it proves, and vectors and codes are listed slower by a quarter and more.
#[tactic(auto, using(crate::proofs::Laws::none_listing, crate::proofs::Laws::none_listed))]
pub fn list_where(out: &mut [u16], held: usize, drawn: bool, item: Item) -> Option<usize>
    ensures { (result ≡ listing (length out.old) held (cond drawn (item ∷ []) [])) × (out.new ≡ listed out.old held (cond drawn (item ∷ []) [])) }
{
    if drawn {
        list_item(out, held, item)
    } else {
        Some(held)
    }
}
