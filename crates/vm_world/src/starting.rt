// The ports and the devices as a start makes them.
ghost use Rattle.std.specs.Prelude.{◌≡◌, ◌≤◌, All, IfOk, OnOk, length, map};
ghost use Rattle.guest_devices.specs.Devices.{FitsNew};
ghost use Rattle.guest_devices.specs.Kept.{devices_left};
ghost use Rattle.guest_devices.specs.Ports as kinds;
ghost use Rattle.vm_world.specs.Starting.{lefts_at_start};

use guest_devices::{Device, NewDevice, port_at_start};
use mmio_port::Port;
use std::alloc::{AllocError, Global};

/// A port for each device. What a device starts with fits.
pub fn ports_at_start(alloc: Global, devices: &[NewDevice]) -> Result<Vec<Port>, AllocError>
    ensures ports { IfOk result (λ made. made.items ≡ map kinds.port_at_start devices.now) }
    ensures fit { OnOk result (All FitsNew devices.now) }
{
    let mut ports = Vec::new(alloc);
    for what in devices {
        ports.push(port_at_start(what))?;
    }
    Ok(ports)
}

/// The devices, which have done nothing, in a guest of so many pages. The first has the number 0.
pub fn devices_at_start(
    alloc: Global,
    pages: u32,
    devices: &[NewDevice],
) -> Result<Vec<Device>, AllocError>
    requires { length devices.now ≤ 16 }
    ensures { IfOk result (λ made. devices_left made.items ≡ lefts_at_start pages 0 devices.now) }
{
    let mut made = Vec::new(alloc);
    for (number, what) in devices.iter().enumerate() {
        made.push(Device::new(number as u8, pages, what))?;
    }
    Ok(made)
}
