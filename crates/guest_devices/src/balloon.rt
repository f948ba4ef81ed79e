// A balloon as a device of a guest.
ghost use Rattle.std.specs.Prelude.{◌≡◌, true};
ghost use Rattle.guest_devices.specs.declared.device.Device.{Device};
ghost use Rattle.guest_devices.specs.declared.device.Device.TheVariants as device;
ghost use Rattle.guest_devices.specs.declared.new_device.NewDevice.{NewDevice};
ghost use Rattle.guest_devices.specs.declared.new_device.NewDevice.TheVariants as starts;
ghost use Rattle.guest_devices.specs.Devices.{device_changed, device_next, device_wants, new_left};
ghost use Rattle.guest_devices.specs.Kept.{device_left, device_port, is_kept, is_sized, kept_of};

use crate::block::rounds_sized;
use crate::change::DeviceChange;
use balloon_device::{BalloonDevice, BalloonKind, NewBalloon, new_balloon_device};
use queue_device::QueueRounds;
use vm_types::{Actor, Op, Reply};

/// The balloon of this port that has done nothing, in a guest of so many pages.
pub fn new_balloon(port: u8, pages: u32, what: &NewBalloon) -> BalloonDevice
    ensures { (new : NewDevice) → new ≡ starts.Balloon what.now → device_left (device.Balloon result) ≡ new_left port pages new }
{
    new_balloon_device(port, pages, what.interval)
}

/// What it wants.
pub fn want_of_balloon(balloon: &BalloonDevice) -> Op
    ensures { (it : Device) → it ≡ device.Balloon balloon.now → result ≡ device_wants (device_left it) }
{
    balloon.want()
}

/// It is given its reply.
pub fn give_balloon(balloon: &mut BalloonDevice, reply: Reply)
    ensures { (it after : Device) → it ≡ device.Balloon balloon.old → after ≡ device.Balloon balloon.new →
        device_left after ≡ device_next (device_left it) reply }
{
    balloon.give(reply);
}

/// It is told of a change, if that is one of a balloon.
pub fn tell_balloon(balloon: &mut BalloonDevice, change: DeviceChange)
    ensures { (it after : Device) → it ≡ device.Balloon balloon.old → after ≡ device.Balloon balloon.new →
        device_left after ≡ device_changed change (device_left it) }
{
    match change {
        DeviceChange::Balloon(change) => balloon.change(change),
        DeviceChange::Block(_) => {}
        DeviceChange::Net(_) => {}
    }
}

// Data have the sizes of their types.
fn has_sizes(state: &QueueRounds<BalloonKind>)
    ensures { is_sized (kept_of (device.Balloon state.now)) ≡ true }
{
    rounds_sized(&state.rounds);
}

// What it keeps, which may be kept.
fn kept_balloon(balloon: &BalloonDevice) -> &QueueRounds<BalloonKind>
    ensures state { result.now ≡ balloon.now }
    ensures kept { (it : Device) → it ≡ device.Balloon balloon.now → is_kept it ≡ true }
{
    let kept = balloon.state();
    has_sizes(kept);
    kept
}

/// A balloon that keeps the same.
pub fn balloon_again(balloon: &BalloonDevice) -> BalloonDevice
    ensures balloon { result ≡ balloon.now }
    ensures kept { (it : Device) → it ≡ device.Balloon balloon.now → is_kept it ≡ true }
{
    let _kept = kept_balloon(balloon);
    balloon.again()
}

/// The number of its port.
pub fn port_of_balloon(balloon: &BalloonDevice) -> u8
    ensures port { result ≡ device_port (device.Balloon balloon.now) }
    ensures kept { (it : Device) → it ≡ device.Balloon balloon.now → is_kept it ≡ true }
{
    kept_balloon(balloon).rounds.port
}
