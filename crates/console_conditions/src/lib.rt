// The line of the unit's state, put into a buffer that the caller lends.
//
// The contracts cite `specs/Conditions.antt`.
#![tactic(auto)]

ghost use Rattle.std.specs.Prelude.{◌≡◌};
ghost use Rattle.text_put.specs.Text.{put_at, end_of};
ghost use Rattle.console_conditions.specs.Conditions.{mode_text, pen_mode_text, latched_zero, latched_one, state_line};

use console_phrases as phrases;
use console_phrases::Paired;
use ground_orders::{Mode, PenMode};
use text_put::{Decimal, HexByte, Printed};
use unit_head::{Head, Sense};

// The name of a mode.
fn mode_name(mode: Mode) -> &'static [u8]
    ensures { result.now ≡ mode_text mode }
{
    match mode {
        Mode::Idle => b" mode idle",
        Mode::Point => b" mode point",
        Mode::Vector => b" mode vector",
        Mode::IncrementalPoint => b" mode ipoint",
        Mode::IncrementalVector => b" mode ivector",
        Mode::Basic => b" mode basic",
        Mode::Large => b" mode large",
    }
}

// The name of a pen mode.
fn pen_mode_name(mode: PenMode) -> &'static [u8]
    ensures { result.now ≡ pen_mode_text mode }
{
    match mode {
        PenMode::Normal => b" pen normal",
        PenMode::Disabled => b" pen disabled",
        PenMode::NoSwitch => b" pen noswitch",
    }
}

// The latched bits of sense byte 0. Not by unit_sense: Buffer Running and Character Mode are no latched bits, and are left out.
fn latched_zero(sense: Sense) -> u8
    ensures { result ≡ latched_zero sense }
{
    0x80 * u8::from(sense.reject) + 0x08 * u8::from(sense.check)
}

// The latched bits of sense byte 1.
fn latched_one(sense: Sense) -> u8
    ensures { result ≡ latched_one sense }
{
    0x80 * u8::from(sense.detect) + 0x40 * u8::from(sense.ended)
}

// Puts the line of a head: its state, the waiting status and the latched sense bits.
// A function with its own clauses: the line is put whole, so that a type would add a name and no promise.
pub fn put_state(buffer: &mut [u8], at: usize, head: Head) -> usize
    ensures value { result ≡ end_of buffer.old at (state_line head) }
    ensures buffer_after { buffer.new ≡ put_at buffer.old at (state_line head) }
{
    let state = head.state;
    let pen = state.pen;
    (
        (
            phrases::either(state.running, b"running", b"stopped"),
            (b" at ", Decimal(state.address)),
            mode_name(state.mode),
        ),
        Paired(b" beam ", state.beam.x, state.beam.y),
        (
            pen_mode_name(pen.mode),
            phrases::either(pen.closed, b" switch closed", b" switch open"),
            phrases::either(pen.armed, b" armed yes", b" armed no"),
        ),
        (
            (b" status ", HexByte(head.status)),
            (b" sense ", HexByte(latched_zero(head.sense))),
            (b" ", HexByte(latched_one(head.sense))),
            b"\n",
        ),
    )
        .put(buffer, at)
}
