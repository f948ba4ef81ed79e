// An entropy device as a device of a guest.
ghost use Rattle.std.specs.Prelude.{◌≡◌, true};
ghost use Rattle.guest_devices.specs.declared.device.Device.{Device};
ghost use Rattle.guest_devices.specs.declared.device.Device.TheVariants as device;
ghost use Rattle.guest_devices.specs.declared.new_device.NewDevice.{NewDevice};
ghost use Rattle.guest_devices.specs.declared.new_device.NewDevice.TheVariants as starts;
ghost use Rattle.guest_devices.specs.Devices.{device_changed, device_next, device_wants, new_left};
ghost use Rattle.guest_devices.specs.Kept.{device_left, device_port, is_kept, is_sized, kept_of};

use crate::block::rounds_sized;
use crate::change::DeviceChange;
use entropy_device::{EntropyDevice, EntropyKind, NewEntropy, new_entropy_device};
use queue_device::QueueRounds;
use vm_types::{Actor, Op, Reply};

/// The entropy device of this port that has done nothing, in a guest of so many pages.
pub fn new_entropy(port: u8, pages: u32, what: &NewEntropy) -> EntropyDevice
    ensures { (new : NewDevice) → new ≡ starts.Entropy what.now → device_left (device.Entropy result) ≡ new_left port pages new }
{
    new_entropy_device(port, pages, what.limits.again())
}

/// What it wants.
pub fn want_of_entropy(entropy: &EntropyDevice) -> Op
    ensures { (it : Device) → it ≡ device.Entropy entropy.now → result ≡ device_wants (device_left it) }
{
    entropy.want()
}

/// It is given its reply.
pub fn give_entropy(entropy: &mut EntropyDevice, reply: Reply)
    ensures { (it after : Device) → it ≡ device.Entropy entropy.old → after ≡ device.Entropy entropy.new →
        device_left after ≡ device_next (device_left it) reply }
{
    entropy.give(reply);
}

/// It is told of a change, and none is one of an entropy device.
pub fn tell_entropy(entropy: &mut EntropyDevice, change: DeviceChange)
    ensures { (it after : Device) → it ≡ device.Entropy entropy.old → after ≡ device.Entropy entropy.new →
        device_left after ≡ device_changed change (device_left it) }
{
    let _ = entropy;
    let _ = change;
}

// Data have the sizes of their types.
fn has_sizes(state: &QueueRounds<EntropyKind>)
    ensures { is_sized (kept_of (device.Entropy state.now)) ≡ true }
{
    rounds_sized(&state.rounds);
}

// What it keeps, which may be kept.
fn kept_entropy(entropy: &EntropyDevice) -> &QueueRounds<EntropyKind>
    ensures state { result.now ≡ entropy.now }
    ensures kept { (it : Device) → it ≡ device.Entropy entropy.now → is_kept it ≡ true }
{
    let kept = entropy.state();
    has_sizes(kept);
    kept
}

/// An entropy device that keeps the same.
pub fn entropy_again(entropy: &EntropyDevice) -> EntropyDevice
    ensures entropy { result ≡ entropy.now }
    ensures kept { (it : Device) → it ≡ device.Entropy entropy.now → is_kept it ≡ true }
{
    let _kept = kept_entropy(entropy);
    entropy.again()
}

/// The number of its port.
pub fn port_of_entropy(entropy: &EntropyDevice) -> u8
    ensures port { result ≡ device_port (device.Entropy entropy.now) }
    ensures kept { (it : Device) → it ≡ device.Entropy entropy.now → is_kept it ≡ true }
{
    kept_entropy(entropy).rounds.port
}
