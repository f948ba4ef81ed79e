// Which kinds of ports and devices there are.
ghost use Rattle.std.specs.Prelude.{◌≡◌, map, slice_get};
ghost use Rattle.vm_config.specs.Devices.{balloon_devices, entropy_devices, vsock_devices};
ghost use Rattle.snap_state.specs.Valid as valid;

use crate::attached::{balloon_count, vsock_count};
use crate::configuration::Configuration;
use crate::filed::Filed;
use api_calls::{Balloon, Entropy, Vsock};
use file_format::{Counted, Listed};
use mmio_port::Port;
use port_table::DeviceKind;
use snap_devices::{Saved, SavedDevice};

fn is_kind(due: DeviceKind, kind: DeviceKind) -> bool
    ensures { result ≡ valid.is_kind due kind }
{
    match (due, kind) {
        (DeviceKind::Net, DeviceKind::Net)
        | (DeviceKind::Block, DeviceKind::Block)
        | (DeviceKind::Balloon, DeviceKind::Balloon)
        | (DeviceKind::Vsock, DeviceKind::Vsock)
        | (DeviceKind::Entropy, DeviceKind::Entropy) => true,
        _ => false,
    }
}

fn is_kind_due(due: Option<DeviceKind>, kind: DeviceKind) -> bool
    ensures { result ≡ valid.is_kind_due due kind }
{
    match due {
        None => false,
        Some(due) => is_kind(due, kind),
    }
}

fn vsock_kind(vsock: &Option<Filed<Vsock>>) -> Option<DeviceKind>
    ensures { result ≡ slice_get (map valid.kind_configured (vsock_devices vsock.now)) 0 }
{
    match vsock {
        None => None,
        Some(_) => Some(DeviceKind::Vsock),
    }
}

fn balloon_kind(balloon: &Option<Balloon>) -> Option<DeviceKind>
    ensures { result ≡ slice_get (map valid.kind_configured (balloon_devices balloon.now)) 0 }
{
    match balloon {
        None => None,
        Some(_) => Some(DeviceKind::Balloon),
    }
}

fn entropy_kind(entropy: &Option<Entropy>) -> Option<DeviceKind>
    ensures { result ≡ slice_get (map valid.kind_configured (entropy_devices entropy.now)) 0 }
{
    match entropy {
        None => None,
        Some(_) => Some(DeviceKind::Entropy),
    }
}

// The kind of the device of this number, if there is to be one.
fn kind_due(
    configuration: &Configuration,
    entropy: &Option<Entropy>,
    number: usize,
) -> Option<DeviceKind>
    ensures { result ≡ slice_get (valid.kinds_of configuration.now entropy.now) number }
{
    let drives = configuration.drives.count();
    if number < drives {
        return Some(DeviceKind::Block);
    }
    let behind = number - drives;
    let interfaces = configuration.interfaces.count();
    if behind < interfaces {
        return Some(DeviceKind::Net);
    }
    let last = behind - interfaces;
    let sockets = vsock_count(&configuration.vsock);
    if last < sockets {
        return vsock_kind(&configuration.vsock);
    }
    let rest = last - sockets;
    let balloons = balloon_count(&configuration.balloon);
    if rest < balloons {
        return balloon_kind(&configuration.balloon);
    }
    if rest == balloons {
        return entropy_kind(entropy);
    }
    None
}

/// Whether these are the ports of the devices that are configured.
pub fn are_ports(
    configuration: &Configuration,
    entropy: &Option<Entropy>,
    ports: &[Counted<Saved<Port>>],
) -> bool
    ensures { result ≡ valid.are_kinds (valid.kinds_of configuration.now entropy.now) 0 (map valid.port_kind ports.now) }
{
    for (number, port) in ports.iter().enumerate() {
        if !is_kind_due(
            kind_due(configuration, entropy, number),
            port.value.value.state().kind,
        ) {
            return false;
        }
    }
    kind_due(configuration, entropy, ports.len()).is_none()
}

/// Whether these are the devices that are configured.
pub fn are_device_kinds(
    configuration: &Configuration,
    entropy: &Option<Entropy>,
    devices: &[Listed<SavedDevice>],
) -> bool
    ensures { result ≡ valid.are_kinds (valid.kinds_of configuration.now entropy.now) 0 (map valid.kind_of devices.now) }
{
    for (number, device) in devices.iter().enumerate() {
        if !is_kind_due(
            kind_due(configuration, entropy, number),
            device.value.device().kind(),
        ) {
            return false;
        }
    }
    kind_due(configuration, entropy, devices.len()).is_none()
}
