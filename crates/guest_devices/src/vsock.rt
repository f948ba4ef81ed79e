// A vsock device as a device of a guest.
ghost use Rattle.std.specs.Prelude.{◌≡◌, true};
ghost use Rattle.guest_devices.specs.declared.device.Device.{Device};
ghost use Rattle.guest_devices.specs.declared.device.Device.TheVariants as device;
ghost use Rattle.guest_devices.specs.declared.new_device.NewDevice.{NewDevice};
ghost use Rattle.guest_devices.specs.declared.new_device.NewDevice.TheVariants as starts;
ghost use Rattle.guest_devices.specs.Devices.{device_changed, device_next, device_wants, left_reset, new_left};
ghost use Rattle.guest_devices.specs.Kept.{device_left, device_port, is_kept, is_sized, kept_of};

use crate::block::rounds_sized;
use crate::change::DeviceChange;
use queue_device::QueueRounds;
use vm_types::{Actor, Op, Reply};
use vsock_device::{NewVsock, VsockChange, VsockDevice, VsockKind, new_vsock_device};

/// The vsock device of this port that has done nothing, in a guest of so many pages.
pub fn new_vsock(port: u8, pages: u32, what: &NewVsock) -> VsockDevice
    ensures { (new : NewDevice) → new ≡ starts.Vsock what.now → device_left (device.Vsock result) ≡ new_left port pages new }
{
    new_vsock_device(port, pages, what.guest_cid)
}

/// What it wants.
pub fn want_of_vsock(vsock: &VsockDevice) -> Op
    ensures { (it : Device) → it ≡ device.Vsock vsock.now → result ≡ device_wants (device_left it) }
{
    vsock.want()
}

/// It is given its reply.
pub fn give_vsock(vsock: &mut VsockDevice, reply: Reply)
    ensures { (it after : Device) → it ≡ device.Vsock vsock.old → after ≡ device.Vsock vsock.new →
        device_left after ≡ device_next (device_left it) reply }
{
    vsock.give(reply);
}

/// The Reset that comes before a create.
pub fn reset_vsock(vsock: &mut VsockDevice)
    ensures { (it after : Device) → it ≡ device.Vsock vsock.old → after ≡ device.Vsock vsock.new →
        device_left after ≡ left_reset (device_left it) }
{
    vsock.change(VsockChange::Reset);
}

/// It is told of a change, and none is one of a vsock device.
pub fn tell_vsock(vsock: &mut VsockDevice, change: DeviceChange)
    ensures { (it after : Device) → it ≡ device.Vsock vsock.old → after ≡ device.Vsock vsock.new →
        device_left after ≡ device_changed change (device_left it) }
{
    let _ = vsock;
    let _ = change;
}

// Data have the sizes of their types.
fn has_sizes(state: &QueueRounds<VsockKind>)
    ensures { is_sized (kept_of (device.Vsock state.now)) ≡ true }
{
    rounds_sized(&state.rounds);
}

// What it keeps, which may be kept.
fn kept_vsock(vsock: &VsockDevice) -> &QueueRounds<VsockKind>
    ensures state { result.now ≡ vsock.now }
    ensures kept { (it : Device) → it ≡ device.Vsock vsock.now → is_kept it ≡ true }
{
    let kept = vsock.state();
    has_sizes(kept);
    kept
}

/// A vsock device that keeps the same.
pub fn vsock_again(vsock: &VsockDevice) -> VsockDevice
    ensures vsock { result ≡ vsock.now }
    ensures kept { (it : Device) → it ≡ device.Vsock vsock.now → is_kept it ≡ true }
{
    let _kept = kept_vsock(vsock);
    vsock.again()
}

/// The number of its port.
pub fn port_of_vsock(vsock: &VsockDevice) -> u8
    ensures port { result ≡ device_port (device.Vsock vsock.now) }
    ensures kept { (it : Device) → it ≡ device.Vsock vsock.now → is_kept it ≡ true }
{
    kept_vsock(vsock).rounds.port
}
