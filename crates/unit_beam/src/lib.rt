// The beam of the display: absolute coordinates, increments, spacings and new line. It knows numbers alone, and of a
// coordinate that is handed over it takes the ten lowest bits.
#![tactic(auto)]

ghost use Rattle.std.specs.Prelude.{◌≡◌, ◌*◌, ◌/◌, ◌<◌, ◌≤◌, pos, ◌+ℤ◌};
ghost use Rattle.unit_beam.specs.Beam.{ten_bits, absolute, placed, blanked_place, exact_sum, sum_of, shifted, blanked_step, spaced, across, down, line_below, new_line, after_character, high_byte, low_byte};

// Where the beam stands.
#[derive(Clone, Copy)]
pub struct Beam {
    pub x: u16,
    pub y: u16,
}

// A coordinate and an increment added: the ten bits of the sum, and whether the exact sum left 0 to 1,023.
#[derive(Clone, Copy)]
struct Sum {
    cut: u16,
    off: bool,
}

// The beam moved by increments: where it then stands, and whether an exact sum left the screen.
#[derive(Clone, Copy)]
pub struct Shift {
    pub to: Beam,
    pub off: bool,
}

// The two sizes of characters, with the numbers that 01 gives them in a drawn item.
#[derive(Clone, Copy)]
pub enum CharacterSize {
    Basic = 1,
    Large = 2,
}

// Raster units from a basic character to the next one.
const ACROSS: u8 = 14;

// Raster units from a line of basic characters to the next one.
const DOWN: u8 = 20;

// A coordinate's ten bits.
fn ten_bits(c: u16) -> u16
    ensures { (result ≡ ten_bits c) × (result < 1024) }
{
    c % 1024
}

// The coordinate of two bytes.
fn absolute_of(high: u8, low: u8) -> u16
    ensures { result ≡ absolute high low }
{
    u16::from_be_bytes([high % 16, low]) / 4
}

// The beam at the absolute coordinates of four bytes.
#[tactic(auto, unfolding(crate::specs::Beam::placed))]
pub fn place(xh: u8, xl: u8, yh: u8, yl: u8) -> Beam
    ensures { result ≡ placed xh xl yh yl }
{
    Beam {
        x: absolute_of(xh, xl),
        y: absolute_of(yh, yl),
    }
}

// Whether absolute coordinates are blanked, by the first of their bytes.
#[tactic(auto, unfolding(crate::specs::Beam::blanked_place))]
pub fn blanked_place(xh: u8) -> bool
    ensures { result ≡ blanked_place xh }
{
    xh / 64 % 2 == 1
}

// The exact sum of a coordinate and an increment, told as 1,024 more, so that it is never below 0.
#[tactic(auto, using(crate::proofs::Sums::raised), unfolding(crate::specs::Beam::exact_sum))]
fn exact_sum(c: u16, b: u8) -> u16
    ensures { pos result ≡ exact_sum c b +ℤ pos 1024 }
{
    ten_bits(c) + (u16::from(b) / 2 + 64) % 128 + 960
}

// A coordinate and an increment added.
#[tactic(auto, using(crate::proofs::Sums::cut_raised, crate::proofs::Sums::off_raised), unfolding(crate::specs::Beam::summed))]
fn sum_of(c: u16, b: u8) -> Sum
    ensures { result ≡ sum_of c b }
{
    let sum = exact_sum(c, b);
    Sum {
        cut: sum % 1024,
        off: sum / 1024 != 1,
    }
}

// The beam moved by the increments of two bytes.
#[tactic(auto, unfolding(crate::specs::Beam::stepped, crate::specs::Beam::leaves_screen, crate::specs::Beam::shifted))]
pub fn step(beam: Beam, dx: u8, dy: u8) -> Shift
    ensures { result ≡ shifted beam dx dy }
{
    let x = sum_of(beam.x, dx);
    let y = sum_of(beam.y, dy);
    Shift {
        to: Beam { x: x.cut, y: y.cut },
        off: x.off || y.off,
    }
}

// Whether increments are blanked, by the second of their bytes.
#[tactic(auto, unfolding(crate::specs::Beam::blanked_step))]
pub fn blanked_step(dy: u8) -> bool
    ensures { result ≡ blanked_step dy }
{
    dy % 2 == 1
}

// A distance of basic characters as it is in a size.
// The size is what distances depend on (000).
fn spaced_in(size: CharacterSize, basic: u8) -> u16
    ensures { (result ≡ spaced size basic) × (result ≤ basic * 3 / 2) }
{
    match size {
        CharacterSize::Basic => u16::from(basic),
        CharacterSize::Large => u16::from(basic) * 3 / 2,
    }
}

// How far a character stands from the one before.
fn across_of(size: CharacterSize) -> u16
    ensures { (result ≡ across size) × (result ≤ 21) }
{
    spaced_in(size, ACROSS)
}

// How far a line stands below the one before.
fn down_of(size: CharacterSize) -> u16
    ensures { (result ≡ down size) × (result ≤ 30) }
{
    spaced_in(size, DOWN)
}

// The Y of the line that is so far below.
#[tactic(auto, unfolding(crate::specs::Beam::line_below))]
fn line_below(y: u16, distance: u16) -> u16
    ensures { result ≡ line_below y distance }
{
    y.checked_sub(distance).unwrap_or(1023)
}

// The beam at the start of the next line.
#[tactic(auto, unfolding(crate::specs::Beam::new_line))]
pub fn new_line(size: CharacterSize, beam: Beam) -> Beam
    ensures { result ≡ new_line size beam }
{
    Beam {
        x: 0,
        y: line_below(ten_bits(beam.y), down_of(size)),
    }
}

// The beam where the character after this one stands.
#[tactic(auto, unfolding(crate::specs::Beam::after_character))]
pub fn after_character(size: CharacterSize, beam: Beam) -> Beam
    ensures { result ≡ after_character size beam }
{
    let x = ten_bits(beam.x) + across_of(size);
    if x <= 1023 {
        Beam {
            x,
            y: ten_bits(beam.y),
        }
    } else {
        new_line(size, beam)
    }
}

// The first of the two bytes that give a coordinate back.
pub fn high_byte(c: u16) -> u8
    ensures { result ≡ high_byte c }
{
    let [high, _] = (ten_bits(c) * 4).to_be_bytes();
    high
}

// The second of the two bytes that give a coordinate back.
pub fn low_byte(c: u16) -> u8
    ensures { result ≡ low_byte c }
{
    let [_, low] = (ten_bits(c) * 4).to_be_bytes();
    low
}
