// The head of a unit: all of it but the words of its buffer, by value. What a command, a key or a run does is said of the words, which are
// lent as a slice, and of this head.
//
// The contracts cite `specs/Head.antt`.
#![tactic(auto)]

ghost use Rattle.std.specs.Prelude.{◌≡◌};
ghost use Rattle.unit_head.specs.Head.{fresh_head, with_address, switched_head};

use ground_orders::{Mode, PenMode};
use ground_setup::{Setup, Size};
use unit_beam::Beam;
use unit_cursor::Cursor;
use unit_pen as pen;
use unit_pen::Pen;

// What a step of regeneration goes by: what the unit is built with, and what moves. The address stands first, so that a copy has no gap.
#[derive(Clone, Copy)]
pub struct State {
    pub address: usize,
    pub setup: Setup,
    pub mode: Mode,
    pub running: bool,
    pub beam: Beam,
    pub pen: Pen,
}

// The sense bits that stand until they are reset, and whether Sense has given them.
#[derive(Clone, Copy)]
pub struct Sense {
    pub reject: bool,
    pub check: bool,
    pub detect: bool,
    pub ended: bool,
    pub given: bool,
}

// The head. A status of 0 is no status waiting.
// Words and head are two parameters of a call: the words are lent as a slice of any size.
#[derive(Clone, Copy)]
pub struct Head {
    pub state: State,
    // A byte and no Option: 00 is a status byte too, the one that Test I/O and a state line give.
    pub status: u8,
    pub sense: Sense,
    pub cursor: Cursor,
}

// The head of a fresh unit, whose words have this cursor.
pub fn fresh_head(size: Size, cursor: Cursor) -> Head
    ensures { result ≡ fresh_head size cursor }
{
    Head {
        state: State {
            setup: Setup { size },
            address: 0,
            mode: Mode::Idle,
            running: false,
            beam: Beam { x: 0, y: 0 },
            pen: Pen {
                mode: PenMode::Normal,
                closed: false,
                spent: false,
                armed: false,
                seen: false,
            },
        },
        status: 0,
        sense: Sense {
            reject: false,
            check: false,
            detect: false,
            ended: false,
            given: false,
        },
        cursor,
    }
}

// The state at another address.
pub fn with_address(state: State, address: usize) -> State
    ensures { result ≡ with_address state address }
{
    State { address, ..state }
}

// The pen's switch closed or opened. The flag is what the switch then is.
#[tactic(auto, unfolding(crate::specs::Head::switched_head))]
pub fn switch_head(head: &mut Head, closed: bool)
    ensures { head.new ≡ switched_head head.old closed }
{
    head.state.pen = pen::after_switch(head.state.pen, closed);
}
