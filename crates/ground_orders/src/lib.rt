// The orders of a display program: the modes that they enter, the constant table of their rows, and the look-up by a code.
//
// The contract cites `specs/Orders.antt`; `specs/Rule.antt` has the table's rule, `proofs/Laws.antt` what it gives.
#![tactic(auto)]

ghost use Rattle.std.specs.Prelude.{◌≡◌};
ghost use Rattle.ground_orders.specs.Orders.{order_of};

// What data mean where a step finds no order.
#[derive(Clone, Copy, PartialEq, Eq)]
pub enum Mode {
    Idle,
    Point,
    Vector,
    IncrementalPoint,
    IncrementalVector,
    Basic,
    Large,
}

// When the light pen's detects count.
#[derive(Clone, Copy, PartialEq, Eq)]
pub enum PenMode {
    Normal,
    Disabled,
    NoSwitch,
}

// What follows an order.
#[derive(Clone, Copy)]
pub enum Follows {
    // Data of a mode.
    Enter(Mode),
    // Nothing: a no-op.
    Pass,
    // The end of the sequence.
    End,
    // The regeneration timer.
    Timer,
    // A mode of the pen.
    SetPen(PenMode),
    // An address that is gone to.
    Transfer,
    // An address that is gone to where there was no detect.
    NoDetect,
}

// An order's row: its code, its length in bytes, and what follows.
#[derive(Clone, Copy)]
pub struct Row {
    pub code: u8,
    pub length: u8,
    pub follows: Follows,
}

// 000 p.24, Table 4, with the codes of its notes 4 and 5.
const TABLE: [Row; 20] = [
    Row {
        code: 0x00,
        length: 2,
        follows: Follows::Enter(Mode::Point),
    },
    Row {
        code: 0x02,
        length: 2,
        follows: Follows::Enter(Mode::Vector),
    },
    Row {
        code: 0x04,
        length: 2,
        follows: Follows::Enter(Mode::IncrementalPoint),
    },
    Row {
        code: 0x05,
        length: 2,
        follows: Follows::Enter(Mode::IncrementalVector),
    },
    Row {
        code: 0x40,
        length: 2,
        follows: Follows::Enter(Mode::Basic),
    },
    Row {
        code: 0x41,
        length: 2,
        follows: Follows::Enter(Mode::Large),
    },
    Row {
        code: 0x44,
        length: 2,
        follows: Follows::Enter(Mode::Basic),
    },
    Row {
        code: 0x45,
        length: 2,
        follows: Follows::Enter(Mode::Large),
    },
    Row {
        code: 0x50,
        length: 2,
        follows: Follows::Enter(Mode::Basic),
    },
    Row {
        code: 0x51,
        length: 2,
        follows: Follows::Enter(Mode::Large),
    },
    Row {
        code: 0x52,
        length: 2,
        follows: Follows::Enter(Mode::Basic),
    },
    Row {
        code: 0x80,
        length: 2,
        follows: Follows::Pass,
    },
    Row {
        code: 0x81,
        length: 2,
        follows: Follows::End,
    },
    Row {
        code: 0x82,
        length: 2,
        follows: Follows::Timer,
    },
    Row {
        code: 0x84,
        length: 2,
        follows: Follows::SetPen(PenMode::Normal),
    },
    Row {
        code: 0x85,
        length: 2,
        follows: Follows::SetPen(PenMode::Disabled),
    },
    Row {
        code: 0x86,
        length: 2,
        follows: Follows::SetPen(PenMode::NoSwitch),
    },
    Row {
        code: 0xC0,
        length: 4,
        follows: Follows::Pass,
    },
    Row {
        code: 0xFD,
        length: 4,
        follows: Follows::NoDetect,
    },
    Row {
        code: 0xFF,
        length: 4,
        follows: Follows::Transfer,
    },
];

// The row of the table that has the code.
#[tactic(auto, unfolding(crate::specs::Orders::find_in, crate::specs::Orders::order_of, crate::specs::Orders::table))]
pub fn order_of(code: u8) -> Option<Row>
    ensures { result ≡ order_of code }
{
    // A match over the codes: a search over the rows was slower, and its proof did not close.
    let rows = TABLE;
    match code {
        0x00 => Some(rows[0]),
        0x02 => Some(rows[1]),
        0x04 => Some(rows[2]),
        0x05 => Some(rows[3]),
        0x40 => Some(rows[4]),
        0x41 => Some(rows[5]),
        0x44 => Some(rows[6]),
        0x45 => Some(rows[7]),
        0x50 => Some(rows[8]),
        0x51 => Some(rows[9]),
        0x52 => Some(rows[10]),
        0x80 => Some(rows[11]),
        0x81 => Some(rows[12]),
        0x82 => Some(rows[13]),
        0x84 => Some(rows[14]),
        0x85 => Some(rows[15]),
        0x86 => Some(rows[16]),
        0xC0 => Some(rows[17]),
        0xFD => Some(rows[18]),
        0xFF => Some(rows[19]),
        _ => None,
    }
}
