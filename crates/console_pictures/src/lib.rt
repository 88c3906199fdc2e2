// The lines of drawn items, put into a buffer that the caller lends.
//
// The contracts cite `specs/Pictures.antt`.
#![tactic(auto)]

ghost use Rattle.std.specs.Prelude.{◌≡◌, ◌/◌, min, length};
ghost use Rattle.text_put.specs.Text.{put_at, end_of};
ghost use Rattle.console_pictures.specs.Pictures.{at_text, left_text, symbol_line, item_line, item_line_at, items_text};

use console_phrases as phrases;
use console_phrases::{Each, Paired, Row};
use ground_words as words;
use text_put::{Decimal, HexByte, Printed};

// The address that ends an item's line.
#[derive(Clone, Copy)]
struct At(u16);

impl Printed for At {
    ghost text = { λ a. at_text a.0 };

    fn put(self, buffer: &mut [u8], at: usize) -> usize {
        (b" at ", Decimal(usize::from(self.0)), b"\n").put(buffer, at)
    }
}

// What ends the line of a point or vector: `off` where the screen was left, and the address.
// The list's own numbers, as `left_text` and `item_line` take them: any number may stand there.
#[derive(Clone, Copy)]
struct Left(u16, u16);

impl Printed for Left {
    ghost text = { λ p. left_text p.0 p.1 };

    fn put(self, buffer: &mut [u8], at: usize) -> usize {
        (phrases::either(self.0 == 1, b" off", b""), At(self.1)).put(buffer, at)
    }
}

// An item, by its eight numbers.
// Numbers for kind and size, as item_line takes them: any may stand in a list that is lent.
#[derive(Clone, Copy)]
struct Item {
    kind: u16,
    x0: u16,
    y0: u16,
    x: u16,
    y: u16,
    code: u16,
    size: u16,
    address: u16,
}

// A character or a cursor, behind its word.
#[derive(Clone, Copy)]
struct Symbol<'a>(&'a [u8], Item);

impl<'a> Printed for Symbol<'a> {
    ghost text = { λ p. symbol_line p.0.now p.1.x p.1.y p.1.code p.1.size p.1.address };

    fn put(self, buffer: &mut [u8], at: usize) -> usize {
        let item = self.1;
        let code = (b" code ", HexByte((item.code % 256) as u8));
        let size = phrases::either(item.size == 1, b" basic", b" large");
        (
            Paired(self.0, item.x, item.y),
            (code, size),
            At(item.address),
        )
            .put(buffer, at)
    }
}

impl Printed for Item {
    ghost text = { λ i. item_line i.kind i.x0 i.y0 i.x i.y i.code i.size i.address };

    #[tactic(auto, unfolding(crate::specs::Pictures::item_line))]
    fn put(self, buffer: &mut [u8], at: usize) -> usize {
        let end = Left(self.code, self.address);
        match self.kind {
            1 => (Paired(b"point ", self.x, self.y), end).put(buffer, at),
            2 => (
                Paired(b"vector ", self.x0, self.y0),
                Paired(b" ", self.x, self.y),
                end,
            )
                .put(buffer, at),
            3 => Symbol(b"character ", self).put(buffer, at),
            _ => Symbol(b"cursor ", self).put(buffer, at),
        }
    }
}

// The first items of a list.
// A count beside the list: items_text is of the whole list, and of as many items as it has.
#[derive(Clone, Copy)]
struct Items<'a>(&'a [u16], usize);

impl<'a> Row for Items<'a> {
    type Part = Item;

    ghost count = { λ r. min r.1 (length r.0.now / 8) };

    ghost text_of = { λ r. item_line_at r.0.now };

    fn count(self) -> usize {
        self.1.min(self.0.len() / 8)
    }

    fn part(self, i: usize) -> Item {
        let k = 8 * i.min(self.0.len() / 8);
        let number = |j: usize| words::word_at(self.0, k + j);
        Item {
            kind: number(0),
            x0: number(1),
            y0: number(2),
            x: number(3),
            y: number(4),
            code: number(5),
            size: number(6),
            address: number(7),
        }
    }
}

// Puts a line for each of the first items of a list.
// A function with its own clauses: the lines are put whole, so that a type would add a name and no promise.
pub fn put_items(buffer: &mut [u8], at: usize, list: &[u16], count: usize) -> usize
    ensures value { result ≡ end_of buffer.old at (items_text list.now count) }
    ensures buffer_after { buffer.new ≡ put_at buffer.old at (items_text list.now count) }
{
    Each(Items(list, count)).put(buffer, at)
}
