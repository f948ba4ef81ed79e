// Several devices, by their numbers.
ghost use Rattle.std.specs.Prelude.{◌≡◌, slice_get};
ghost use Rattle.guest_devices.specs.Kept.{device_want, devices_given, devices_left};

use crate::device::Device;
use vm_types::{Actor, Op, Reply};

/// What the device of this number wants, if it is there.
pub fn want_of_device(devices: &[Device], number: u8) -> Option<Op>
    ensures { result ≡ device_want (slice_get (devices_left devices.now) number) }
{
    match devices.get(number as usize) {
        Some(device) => Some(device.want()),
        None => None,
    }
}

/// The device of this number is given its reply, if it is there.
pub fn give_device(devices: &mut [Device], number: u8, reply: Reply)
    ensures { devices_left devices.new ≡
        devices_given (slice_get (devices_left devices.old) number) (devices_left devices.old) number reply }
{
    let number = number as usize;
    if number < devices.len() {
        devices[number].give(reply);
    }
}
