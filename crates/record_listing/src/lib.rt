// The listing of records that come in pieces: takes in a piece, and puts a line for each record that is whole.
//
// The contracts cite `specs/Listing.antt`.
#![tactic(auto)]

ghost use Rattle.std.specs.Prelude.{◌≡◌, ◌+◌, ◌≤◌, ◌<◌, length, take, drop};
ghost use Rattle.text_put.specs.Text.{put_at, end_of};
ghost use Rattle.record_format.specs.Records.{kind_in, header_of, payload_of};
ghost use Rattle.record_intake.specs.Intake.{open_at};
ghost use Rattle.record_answer.specs.Answer.{LineAnswered};
ghost use Rattle.record_listing.specs.Listing.{last_line, Feeds, StoreLeft, Stops};

use ground_refusals::Refusal;
use record_answer as answer;
use record_format as records;
use record_format::Header;
use record_intake as intake;
use record_intake::KEPT;
use record_lines as lines;
use text_parts as parts;
use text_pieces as pieces;
use text_pieces::{Fed, Found};

// Where a listing stands between two pieces: the number of the record that is open, and how many bytes of it have come.
#[derive(Clone, Copy)]
pub struct ListingAt {
    pub number: usize,
    pub seen: usize,
}

// Puts the line of a whole record, by its first bytes.
fn put_line(out: &mut [u8], at: usize, number: usize, whole: &[u8], store: &mut [u8]) -> usize
    requires { 6 ≤ length whole.now }
    ensures { LineAnswered (payload_of (kind_in whole.now) (drop 6 whole.now)) (drop 10 whole.now) number store.old store.new out.old at out.new result }
{
    let Header::Record { kind, .. } = records::read_header(whole) else {
        return at;
    };
    answer::put_answer(out, at, number, kind, parts::behind(whole, 6), store)
}

impl ListingAt {
    // Nothing was taken in.
    pub fn begin() -> ListingAt
        ensures { result ≡ record { number = 1; seen = 0 } }
    {
        ListingAt { number: 1, seen: 0 }
    }

    // Takes in a piece until a record is whole, and puts its line.
    fn step(
        &mut self,
        kept: &mut [u8; KEPT],
        piece: &[u8],
        out: &mut [u8],
        at: usize,
        store: &mut [u8; 32768],
    ) -> Fed
        requires { (self.old.number < 18446744073709551615) × (at + 128 ≤ length out.old) × (0 < length piece.now) }
        ensures feeds { Feeds self.old kept.old piece.now out.old at result self.new kept.new out.new }
        ensures store_left { StoreLeft store.old store.new × (0 < result.used) }
    {
        let found = intake::next(self.seen, kept, piece);
        let Found::Whole {
            direct,
            count,
            used,
        } = found
        else {
            self.seen = intake::open_of(found);
            return Fed {
                used: piece.len(),
                end: at,
            };
        };
        let whole = pieces::first_found(direct, count, piece, kept);
        let end = put_line(out, at, self.number, whole, store);
        *self = ListingAt {
            number: self.number + 1,
            seen: 0,
        };
        Fed { used, end }
    }

    // Not one with console_dialogue's `feed`: a record wants a number too, and `Feeds` speaks of any bytes that came before.
    // Takes in a piece, and puts the lines of the records that are whole at the front of the buffer. Stops before the piece's end only where
    // a line finds no room, or a record no number.
    pub fn feed(
        &mut self,
        kept: &mut [u8; KEPT],
        piece: &[u8],
        out: &mut [u8],
        store: &mut [u8; 32768],
    ) -> Fed
        ensures feeds { Feeds self.old kept.old piece.now out.old 0 result self.new kept.new out.new }
        ensures store_left { StoreLeft store.old store.new }
        ensures stops { Stops self.old piece.now out.old result self.new }
    {
        let mut used = 0;
        let mut end = 0;
        // A while: a record uses as many bytes as it has.
        while used < piece.len() && out.len() - end >= 128 && self.number < usize::MAX {
            let fed = self.step(kept, &piece[used..], out, end, store);
            used += fed.used;
            end = fed.end;
        }
        Fed { used, end }
    }

    // Ends the listing: the record that is open is cut.
    pub fn close(self, kept: &[u8; KEPT], out: &mut [u8]) -> usize
        ensures value { result ≡ end_of out.old 0 (last_line self.number (header_of (take (open_at self.seen kept.now) kept.now))) }
        ensures out_after { out.new ≡ put_at out.old 0 (last_line self.number (header_of (take (open_at self.seen kept.now) kept.now))) }
    {
        let seen = intake::open_at(self.seen, kept);
        let head = records::read_header(parts::first(kept, seen));
        put_last(out, self.number, head)
    }
}

// Puts what is printed where the input ends, by what stands where a header was due.
#[tactic(auto, using(text_put::proofs::Laws::put_no_text), unfolding(text_put::specs::Text::end_of))]
fn put_last(out: &mut [u8], number: usize, head: Header) -> usize
    ensures value { result ≡ end_of out.old 0 (last_line number head) }
    ensures out_after { out.new ≡ put_at out.old 0 (last_line number head) }
{
    match head {
        Header::Record { kind, .. } => {
            let refusal = records::read_cut(kind);
            lines::put_refused(out, 0, number, usize::from(u8::from(refusal)))
        }
        Header::Cut => {
            let refusal = usize::from(u8::from(Refusal::CutOrShort));
            lines::put_refused(out, 0, number, refusal)
        }
        Header::End => 0,
    }
}
