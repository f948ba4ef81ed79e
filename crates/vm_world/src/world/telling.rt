// What a device shows and tells.
ghost use Rattle.std.specs.Prelude.{◌≡◌, true, Some, option_and_then, option_map, slice_get};
ghost use Rattle.guest_devices.specs.declared.device.Device.{Device};
ghost use Rattle.guest_devices.specs.Kept.{is_kept};
ghost use Rattle.port_table.specs.declared.state.PortState.{PortState};
ghost use Rattle.vm_world.specs.Telling as telling;

use super::World;
use balloon_device::Statistics;
use guest_devices::Device;

fn statistics_of(device: &Device) -> Option<Statistics>
    ensures { result ≡ telling.statistics_of device.now }
{
    match device {
        Device::Balloon(balloon) => Some(balloon.state().kind.statistics()),
        Device::Block(_) => None,
        Device::Net(_) => None,
        Device::Vsock(_) => None,
        Device::Entropy(_) => None,
    }
}

// A device's data are such as may be kept.
fn keeps(device: &Device)
    ensures { is_kept device.now ≡ true }
{
    let _port = device.port();
}

impl World {
    /// The configuration that the port of this number shows, if it is there.
    pub fn shown(&self, device: u8) -> Option<[u8; 8]>
        ensures { result ≡ option_map (λ (p : PortState). p.config) (slice_get self.now.ports device) }
    {
        match self.ports.get(device as usize) {
            Some(port) => Some(port.state().config),
            None => None,
        }
    }

    /// What the driver of the device of this number told last of its memory, if it is a balloon (VIRTIO 1.2, 5.5.6.3). What is kept
    /// of the device may be kept.
    pub fn statistics(&self, device: u8) -> Option<Statistics>
        ensures told { result ≡ option_and_then telling.statistics_of (slice_get self.now.devices device) }
        ensures kept { (it : Device) → slice_get self.now.devices device ≡ Some it → is_kept it ≡ true }
    {
        match self.devices.get(device as usize) {
            Some(device) => {
                keeps(device);
                statistics_of(device)
            }
            None => None,
        }
    }
}
