// The port of a device that has done nothing, by its kind, and what it shows of a change.
ghost use Rattle.std.specs.Prelude.{◌≡◌};
ghost use Rattle.balloon_device.specs.Port as balloon;
ghost use Rattle.entropy_device.specs.Port as entropy;
ghost use Rattle.net_device.specs.Port as net;
ghost use Rattle.vsock_device.specs.Port as vsock;
ghost use Rattle.guest_devices.specs.declared.new_device.NewDevice.{NewDevice};
ghost use Rattle.guest_devices.specs.declared.new_device.NewDevice.TheVariants as starts;
ghost use Rattle.guest_devices.specs.Devices.{FitsNew};
ghost use Rattle.guest_devices.specs.Kinds.{FitsChange};
ghost use Rattle.guest_devices.specs.Ports as ports;

use crate::change::DeviceChange;
use crate::drive::NewDrive;
use crate::new_device::NewDevice;
use balloon_device::{NewBalloon, configuration as balloon_configuration};
use block_device::BlockChange;
use entropy_device::NewEntropy;
use le_fields::put64;
use mmio_port::Port;
use net_device::{NewNet, configuration as net_configuration};
use port_table::{DeviceKind, Feature};
use vsock_device::{NewVsock, configuration as vsock_configuration};

// The capacity of a disk in sectors of 512 bytes (VIRTIO 1.2, 5.2.4).
fn capacity(sectors: u64) -> [u8; 8]
    ensures { result ≡ ports.capacity sectors }
{
    let mut bytes = [0; 8];
    put64(&mut bytes, 0, sectors);
    bytes
}

fn feature_if(has: bool, feature: Feature) -> u64
    ensures { result ≡ ports.feature_if has feature }
{
    if has { feature.mask() } else { 0 }
}

fn offered(drive: &NewDrive) -> u64
    ensures { result ≡ ports.offered drive.now }
{
    feature_if(drive.is_read_only, Feature::BlockReadOnly)
        | feature_if(drive.offers_flush, Feature::BlockFlush)
}

fn block_port(drive: &NewDrive) -> Port
    ensures port { result ≡ ports.block_port drive.now }
    ensures fits { (what : NewDevice) → what ≡ starts.Block drive.now → FitsNew what }
{
    Port::new(DeviceKind::Block, offered(drive), &capacity(drive.sectors))
}

fn net_port(what: &NewNet) -> Port
    ensures port { result ≡ net.net_port what.now }
    ensures fits { (new : NewDevice) → new ≡ starts.Net what.now → FitsNew new }
{
    Port::new(
        DeviceKind::Net,
        what.features(),
        &net_configuration(what.mac),
    )
}

fn vsock_port(what: &NewVsock) -> Port
    ensures port { result ≡ vsock.vsock_port what.now }
    ensures fits { (new : NewDevice) → new ≡ starts.Vsock what.now → FitsNew new }
{
    Port::new(DeviceKind::Vsock, 0, &vsock_configuration(what.guest_cid))
}

// The driver has given no page yet.
fn balloon_port(what: &NewBalloon) -> Port
    ensures port { result ≡ balloon.balloon_port what.now }
    ensures fits { (new : NewDevice) → new ≡ starts.Balloon what.now → FitsNew new }
{
    Port::new(
        DeviceKind::Balloon,
        what.features(),
        &balloon_configuration(what.target, 0),
    )
}

// It has no configuration.
fn entropy_port(what: &NewEntropy) -> Port
    ensures port { result ≡ entropy.entropy_port }
    ensures fits { (new : NewDevice) → new ≡ starts.Entropy what.now → FitsNew new }
{
    let _ = what;
    Port::new(DeviceKind::Entropy, 0, &[])
}

/// The port of a device as a start makes it. What the device starts with fits.
pub fn port_at_start(what: &NewDevice) -> Port
    ensures port { result ≡ ports.port_at_start what.now }
    ensures fits { FitsNew what.now }
{
    match what {
        NewDevice::Block(drive) => block_port(drive),
        NewDevice::Net(what) => net_port(what),
        NewDevice::Vsock(what) => vsock_port(what),
        NewDevice::Balloon(what) => balloon_port(what),
        NewDevice::Entropy(what) => entropy_port(what),
    }
}

impl DeviceChange {
    /// The configuration that the device's port shows from this change on, if it shows the change. Its numbers fit their fields.
    pub fn shown(&self) -> Option<[u8; 8]>
        ensures shown { result ≡ ports.shown_by self.now }
        ensures fits { FitsChange self.now }
    {
        match self {
            DeviceChange::Block(BlockChange::Sectors(sectors)) => Some(capacity(*sectors)),
            DeviceChange::Block(BlockChange::Limits(_, _)) => None,
            DeviceChange::Net(_) => None,
            DeviceChange::Balloon(_) => None,
        }
    }
}
