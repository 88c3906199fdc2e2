// The light pen: its three modes, its switch, arming, and what a detect and a transfer on no detect leave behind.
#![tactic(auto)]

ghost use Rattle.std.specs.Prelude.{◌≡◌};
ghost use Rattle.unit_pen.specs.Pen.{ordered, timed, switched, detects, seen_of, spent_pen, detected, transfers, transferred};

use ground_orders::PenMode;

#[derive(Clone, Copy, PartialEq, Eq)]
pub struct Pen {
    pub mode: PenMode,
    // The switch is closed.
    pub closed: bool,
    // This closure has had its detect, or its no-detect transfer, in normal mode.
    pub spent: bool,
    // A sight in normal mode is a detect.
    pub armed: bool,
    // A detect has come in no-switch mode.
    pub seen: bool,
}

// The pen after a light-pen mode order.
#[tactic(auto, unfolding(crate::specs::Pen::ordered))]
pub fn after_order(pen: Pen, mode: PenMode) -> Pen
    ensures { result ≡ ordered pen mode }
{
    match mode {
        PenMode::Normal | PenMode::Disabled => Pen { mode, ..pen },
        PenMode::NoSwitch => Pen {
            mode,
            seen: false,
            ..pen
        },
    }
}

// The pen after Start Regeneration Timer.
#[tactic(auto, unfolding(crate::specs::Pen::timed))]
pub fn after_timer(pen: Pen) -> Pen
    ensures { result ≡ timed pen }
{
    Pen {
        mode: PenMode::Normal,
        armed: pen.armed || (pen.closed && !pen.spent),
        seen: false,
        ..pen
    }
}

// The pen after its switch was closed or opened. The flag is what the switch then is.
#[tactic(auto, unfolding(crate::specs::Pen::switched))]
pub fn after_switch(pen: Pen, closed: bool) -> Pen
    ensures { result ≡ switched pen closed }
{
    if pen.closed == closed {
        pen
    } else {
        Pen {
            closed,
            spent: false,
            armed: false,
            ..pen
        }
    }
}

// Whether a sight is a detect.
#[tactic(auto, unfolding(crate::specs::Pen::detects))]
pub fn is_detecting(pen: Pen) -> bool
    ensures { result ≡ detects pen }
{
    // An arm to a mode, as the definition has them.
    match pen.mode {
        PenMode::Normal => pen.armed,
        PenMode::Disabled => false,
        PenMode::NoSwitch => true,
    }
}

// What the pen sees of a sight.
// A number, as C and a script lend it: the parts of what a step draws are counted by it.
#[tactic(auto, unfolding(crate::specs::Pen::seen_of))]
pub fn seen_of(pen: Pen, sight: u8) -> u8
    ensures { result ≡ seen_of pen sight }
{
    if is_detecting(pen) { sight } else { 0 }
}

// The closure has had its detect or its transfer.
#[tactic(auto, unfolding(crate::specs::Pen::spent_pen))]
fn spent_pen(pen: Pen) -> Pen
    ensures { result ≡ spent_pen pen }
{
    Pen {
        spent: true,
        armed: false,
        ..pen
    }
}

// The pen after a detect.
#[tactic(auto, unfolding(crate::specs::Pen::detected, crate::specs::Pen::seen_pen))]
pub fn after_detect(pen: Pen) -> Pen
    ensures { result ≡ detected pen }
{
    match pen.mode {
        PenMode::Normal => spent_pen(pen),
        PenMode::Disabled => pen,
        PenMode::NoSwitch => Pen { seen: true, ..pen },
    }
}

// Whether Transfer On No Detect goes.
#[tactic(auto, unfolding(crate::specs::Pen::transfers))]
pub fn is_transferring(pen: Pen) -> bool
    ensures { result ≡ transfers pen }
{
    // An arm to a mode, as the definition has them.
    match pen.mode {
        PenMode::Normal => pen.armed,
        PenMode::Disabled => false,
        PenMode::NoSwitch => !pen.seen,
    }
}

// The pen after a Transfer On No Detect that went.
#[tactic(auto, unfolding(crate::specs::Pen::transferred))]
pub fn after_transfer(pen: Pen) -> Pen
    ensures { result ≡ transferred pen }
{
    match pen.mode {
        PenMode::Normal => spent_pen(pen),
        PenMode::Disabled | PenMode::NoSwitch => pen,
    }
}
