// A stretch of plain data, gone over at once: as many steps as stand ahead, up to an order, a fault, bad parity, a sight that the pen sees, or
// the end of the buffer.
//
// The contracts cite `specs/Stretch.antt`.
#![tactic(auto)]

ghost use Rattle.std.specs.Prelude.{◌≡◌, true};
ghost use Rattle.unit_step.specs.Run.{is_idle};
ghost use Rattle.unit_stretch.specs.Stretch.{Reaches};

use ground_look as look;
use unit_head::State;
use unit_motion as motion;
use unit_pen as pen;
use unit_plain as plain;
use unit_step as step;

// How many steps a stretch has, and the state behind it.
// Not an Advanced: a state stands beside the steps, and no end.
#[derive(Clone, Copy)]
pub struct Stretch {
    pub steps: usize,
    pub state: State,
}

// The stretch of plain data ahead of a state in idle mode, over sights: nothing is drawn, and the beam stays where it is.
// A loop of its own: in the one for the other modes an idle step takes twice the time (docs/BENCHMARK.md).
#[tactic(auto, using(crate::proofs::Laws::covered_none, crate::proofs::Laws::covered_reaches, crate::proofs::Laws::covered_passed))]
fn pass(words: &[u16], start: State, sights: &[u8]) -> Stretch
    requires { is_idle start.mode ≡ true }
    ensures { Reaches words.now sights.now start result }
{
    let end = plain::clear_below(words, start.setup.size);
    let mut state = start;
    for i in 0..sights.len() {
        let at = state.address;
        if end <= at || !plain::is_data(false, words[at], words[at + 1], 0, 0) {
            return Stretch { steps: i, state };
        }
        state.address = at + 2;
    }
    Stretch {
        steps: sights.len(),
        state,
    }
}

// The stretch of plain data that move the beam ahead of a state, over sights.
// Beside list_traces of unit_ahead: nothing is listed; of the loop only its ends are the same.
#[tactic(auto, using(crate::proofs::Laws::covered_none, crate::proofs::Laws::covered_reaches, crate::proofs::Laws::covered_moved))]
fn move_over(words: &[u16], start: State, sights: &[u8]) -> Stretch
    ensures { Reaches words.now sights.now start result }
{
    let mode = start.mode;
    let placing = look::is_placing(mode);
    let span = plain::span(placing);
    let mut state = start;
    for (i, sight) in sights.iter().enumerate() {
        let at = state.address;
        let Some((a, b, c, d)) = plain::plain_at(words, start.setup.size, at, placing) else {
            return Stretch { steps: i, state };
        };
        if pen::seen_of(start.pen, *sight) != 0 {
            return Stretch { steps: i, state };
        }
        state = State {
            address: at + span,
            beam: motion::moved_by(mode, a, b, c, d, state.beam),
            ..state
        };
    }
    Stretch {
        steps: sights.len(),
        state,
    }
}

// The stretch of plain data ahead of a state, over sights.
pub fn over(words: &[u16], start: State, sights: &[u8]) -> Stretch
    ensures { Reaches words.now sights.now start result }
{
    if step::is_idle(start.mode) {
        pass(words, start, sights)
    } else {
        move_over(words, start, sights)
    }
}
