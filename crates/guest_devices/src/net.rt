// A network device as a device of a guest.
ghost use Rattle.std.specs.Prelude.{◌≡◌, true};
ghost use Rattle.guest_devices.specs.declared.device.Device.{Device};
ghost use Rattle.guest_devices.specs.declared.device.Device.TheVariants as device;
ghost use Rattle.guest_devices.specs.declared.new_device.NewDevice.{NewDevice};
ghost use Rattle.guest_devices.specs.declared.new_device.NewDevice.TheVariants as starts;
ghost use Rattle.guest_devices.specs.Devices.{device_changed, device_next, device_wants, new_left};
ghost use Rattle.guest_devices.specs.Kept.{device_left, device_port, is_kept, is_sized, kept_of};

use crate::block::rounds_sized;
use crate::change::DeviceChange;
use net_device::{NetDevice, NetKind, NewNet, new_net_device};
use queue_device::QueueRounds;
use vm_types::{Actor, Op, Reply};

/// The network device of this port that has done nothing, in a guest of so many pages.
pub fn new_net(port: u8, pages: u32, what: &NewNet) -> NetDevice
    ensures { (new : NewDevice) → new ≡ starts.Net what.now → device_left (device.Net result) ≡ new_left port pages new }
{
    new_net_device(port, pages, what.rx.again(), what.tx.again())
}

/// What it wants.
pub fn want_of_net(net: &NetDevice) -> Op
    ensures { (it : Device) → it ≡ device.Net net.now → result ≡ device_wants (device_left it) }
{
    net.want()
}

/// It is given its reply.
pub fn give_net(net: &mut NetDevice, reply: Reply)
    ensures { (it after : Device) → it ≡ device.Net net.old → after ≡ device.Net net.new →
        device_left after ≡ device_next (device_left it) reply }
{
    net.give(reply);
}

/// It is told of a change, if that is one of a network device.
pub fn tell_net(net: &mut NetDevice, change: DeviceChange)
    ensures { (it after : Device) → it ≡ device.Net net.old → after ≡ device.Net net.new →
        device_left after ≡ device_changed change (device_left it) }
{
    match change {
        DeviceChange::Net(change) => net.change(change),
        DeviceChange::Block(_) => {}
        DeviceChange::Balloon(_) => {}
    }
}

// Data have the sizes of their types.
fn has_sizes(state: &QueueRounds<NetKind>)
    ensures { is_sized (kept_of (device.Net state.now)) ≡ true }
{
    rounds_sized(&state.rounds);
}

// What it keeps, which may be kept.
fn kept_net(net: &NetDevice) -> &QueueRounds<NetKind>
    ensures state { result.now ≡ net.now }
    ensures kept { (it : Device) → it ≡ device.Net net.now → is_kept it ≡ true }
{
    let kept = net.state();
    has_sizes(kept);
    kept
}

/// A network device that keeps the same.
pub fn net_again(net: &NetDevice) -> NetDevice
    ensures net { result ≡ net.now }
    ensures kept { (it : Device) → it ≡ device.Net net.now → is_kept it ≡ true }
{
    let _kept = kept_net(net);
    net.again()
}

/// The number of its port.
pub fn port_of_net(net: &NetDevice) -> u8
    ensures port { result ≡ device_port (device.Net net.now) }
    ensures kept { (it : Device) → it ≡ device.Net net.now → is_kept it ≡ true }
{
    kept_net(net).rounds.port
}
