// How the calls for programs in other languages begin: a dump is loaded into a fresh unit, the pen's switch set, and the unit started at an
// address by its command.
//
// The contracts cite `specs/Started.antt`.
#![tactic(auto)]

ghost use Rattle.std.specs.Prelude.{◌≡◌};
ghost use Rattle.unit_loading.specs.Loading.{unit_load};
ghost use Rattle.device_2250.specs.Device.{unit_of};
ghost use Rattle.capi_started.specs.Started.{start_leaves, starts_at, begun_by, loaded_before, start_of};

use device_2250::Device;
use ground_refusals::Refusal;
use ground_setup::Size;

// Starts a unit at an address by its command.
fn start_at(device: &mut Device, start: u16) -> Result<(), Refusal>
    ensures { start_leaves device.new result ≡ begun_by (starts_at (unit_of device.old) start) }
{
    let mut room = [0u8; 1];
    device.command(0x27, &start.to_be_bytes(), &mut room)?;
    Ok(())
}

// Loads a dump into a unit, sets the pen's switch and starts the unit at an address.
fn load_and_start(
    device: &mut Device,
    dump: &[u16],
    size: usize,
    start: u16,
    closed: bool,
) -> Result<(), Refusal>
    ensures { start_leaves device.new result ≡ loaded_before (unit_load (unit_of device.old) size dump.now) start closed }
{
    device.load(size, dump)?;
    device.switch_to(closed);
    start_at(device, start)
}

// Loads a dump into a fresh unit, sets the pen's switch and starts the unit at an address by its command: the unit, and whether it stands
// ready to run.
#[tactic(auto, unfolding(crate::specs::Started::start_of))]
pub fn start_dump(
    dump: &[u16],
    size: usize,
    start: u16,
    closed: bool,
) -> (Device, Result<(), Refusal>)
    ensures { start_leaves result.0 result.1 ≡ start_of size dump.now start closed }
{
    let mut device = Device::fresh(Size::K4);
    let answer = load_and_start(&mut device, dump, size, start, closed);
    (device, answer)
}
