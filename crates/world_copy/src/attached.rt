// Ports and devices, as a copy has them, and back.
ghost use Rattle.std.specs.Prelude.{◌≡◌, IfOk};
ghost use Rattle.guest_devices.specs.Kept.{AreReset, IsReset};

use file_format::{Counted, Items, Listed};
use guest_devices::Device;
use mmio_port::Port;
use snap_devices::{Saved, SavedDevice};
use std::alloc::{AllocError, Global};

fn port_again(port: &Port) -> Port
    ensures { result ≡ port.now }
{
    Port::from_state(*port.state()).unwrap()
}

/// The ports of a copy.
pub fn ports_kept(alloc: Global, ports: &[Port]) -> Result<Items<Counted<Saved<Port>>>, AllocError>
    ensures { IfOk result (λ kept. kept ≡ ports.now) }
{
    let mut kept = Items::new(alloc);
    for port in ports {
        kept.push(Counted {
            value: Saved {
                value: port_again(port),
            },
        })?;
    }
    Ok(kept)
}

// The copy is reset, and the device isn't.
fn device_kept(device: &Device) -> Listed<SavedDevice>
    ensures { IsReset device.now result }
{
    let mut kept = device.again();
    kept.reset();
    Listed {
        value: SavedDevice::new(kept),
    }
}

/// The devices of a copy: each as it is behind a Reset.
pub fn devices_kept(
    alloc: Global,
    devices: &[Device],
) -> Result<Items<Listed<SavedDevice>>, AllocError>
    ensures { IfOk result (λ kept. AreReset devices.now kept) }
{
    let mut kept = Items::new(alloc);
    for device in devices {
        kept.push(device_kept(device))?;
    }
    Ok(kept)
}

/// The ports that a copy had.
pub fn ports_of(alloc: Global, kept: Vec<Counted<Saved<Port>>>) -> Result<Vec<Port>, AllocError>
    ensures { IfOk result (λ ports. ports.items ≡ kept.items) }
{
    let mut ports = Vec::new(alloc);
    let mut rest = kept.into_iter();
    while let Some(port) = rest.next() {
        let saved = port.value;
        ports.push(saved.value)?;
    }
    Ok(ports)
}

/// The devices that a copy had.
pub fn devices_of(alloc: Global, kept: Vec<Listed<SavedDevice>>) -> Result<Vec<Device>, AllocError>
    ensures { IfOk result (λ devices. devices.items ≡ kept.items) }
{
    let mut devices = Vec::new(alloc);
    let mut rest = kept.into_iter();
    while let Some(device) = rest.next() {
        let saved = device.value;
        devices.push(saved.into_device())?;
    }
    Ok(devices)
}
