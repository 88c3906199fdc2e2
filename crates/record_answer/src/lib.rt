// The line that is printed for a whole record, put into a buffer that the caller lends.
//
// The contracts cite `specs/Answer.antt`.
#![tactic(auto)]

ghost use Rattle.std.specs.Prelude.{◌≡◌, drop};
ghost use Rattle.text_put.specs.Text.{put_at, end_of};
ghost use Rattle.record_format.specs.Records.{payload_of};
ghost use Rattle.validator_verdict.specs.Verdict.{verdict_values};
ghost use Rattle.record_answer.specs.Answer.{verdict_line, LineAnswered};

use ground_refusals::Refusal;
use record_format as records;
use record_format::Image;
use record_lines as lines;
use text_parts as parts;
use validator_verdict as validator;
use validator_verdict::Verdict;

// Puts the line of a verdict, or of a refusal.
fn put_verdict(
    lines: &mut [u8],
    at: usize,
    number: usize,
    verdict: Result<Verdict, Refusal>,
) -> usize
    ensures value { result ≡ end_of lines.old at (verdict_line number (verdict_values verdict)) }
    ensures lines_after { lines.new ≡ put_at lines.old at (verdict_line number (verdict_values verdict)) }
{
    match verdict {
        Ok(Verdict::Passed(places)) => lines::put_passed(lines, at, number, places),
        Ok(Verdict::Fault(fault, address, steps)) => {
            let fault = usize::from(u8::from(fault));
            lines::put_fault(lines, at, number, fault, address, steps)
        }
        Err(refusal) => lines::put_refused(lines, at, number, usize::from(u8::from(refusal))),
    }
}

// Puts the line of a whole record of a kind, by its payload. A number: an unknown kind is a refusal.
pub fn put_answer(
    lines: &mut [u8],
    at: usize,
    number: usize,
    kind: usize,
    payload: &[u8],
    store: &mut [u8],
) -> usize
    ensures { LineAnswered (payload_of kind payload.now) (drop 4 payload.now) number store.old store.new lines.old at lines.new result }
{
    // A match: by `and_then`, whose closure borrows the store, `LineAnswered` did not close.
    let verdict = match records::read_payload(kind, payload) {
        Ok(Image { size, start }) => {
            validator::validate(parts::behind(payload, 4), size, start, store)
        }
        Err(refusal) => Err(refusal),
    };
    put_verdict(lines, at, number, verdict)
}
