// The field of a location: whether it stands among characters, in which mode, and whether they are protected.
//
// The contracts cite `specs/Fields.antt`.
#![tactic(auto)]

ghost use Rattle.std.specs.Prelude.{◌≡◌};
ghost use Rattle.typing_fields.specs.Fields.{protected_by, mode_field, follows_field, code_field, field_of};

use ground_orders as orders;
use ground_orders::{Follows, Mode};
use typing_seek as seek;
use typing_signs as signs;
use typing_signs::Locations;

// A field of characters: their mode, and whether they are protected.
#[derive(Clone, Copy)]
pub struct Field {
    pub mode: Mode,
    pub shut: bool,
}

// Whether an order's code protects the characters behind it.
fn is_protected(code: u8) -> bool
    ensures { result ≡ protected_by code }
{
    matches!(code, 0x44 | 0x45)
}

// The field behind an order that enters a mode.
fn mode_field(shut: bool, mode: Mode) -> Option<Field>
    ensures { result ≡ mode_field shut mode }
{
    match mode {
        Mode::Basic | Mode::Large => Some(Field { mode, shut }),
        _ => None,
    }
}

// The field behind an order.
fn follows_field(shut: bool, follows: Follows) -> Option<Field>
    ensures { result ≡ follows_field shut follows }
{
    match follows {
        Follows::Enter(mode) => mode_field(shut, mode),
        _ => None,
    }
}

// The field behind an order of a code.
#[tactic(auto, unfolding(crate::specs::Fields::code_field))]
pub fn code_field(code: u8) -> Option<Field>
    ensures { result ≡ code_field code }
{
    let row = orders::order_of(code)?;
    follows_field(is_protected(code), row.follows)
}

// The field of a location, which is in none where its own pair is an order.
#[tactic(auto, unfolding(crate::specs::Fields::field_of))]
pub fn field_of(locations: Locations, at: usize) -> Option<Field>
    ensures { result ≡ field_of locations.entry.words.now locations.entry.size at }
{
    if locations.order_at(signs::even(locations.size, at)) {
        return None;
    }
    let order = seek::order_behind(locations, at)?;
    code_field(locations.code_at(order))
}
