// The devices of a machine by their numbers.
ghost use Rattle.std.specs.Prelude.{◌≡◌, ◌+◌, ◌≤◌, length};
ghost use Rattle.std.specs.List.{position};
ghost use Rattle.vm_config.specs.Devices as devices;
ghost use Rattle.vm_config.specs.Interfaces.{is_interface};

use crate::config::Config;
use api_calls::{Balloon, Entropy, Interface, Vsock};

fn vsock_count(vsock: &Option<Vsock>) -> usize
    ensures count { result ≡ devices.vsock_count vsock.now }
    ensures most { result ≤ 1 }
{
    match vsock {
        Some(_) => 1,
        None => 0,
    }
}

fn balloon_count(balloon: &Option<Balloon>) -> usize
    ensures { result ≡ devices.balloon_count balloon.now }
{
    match balloon {
        Some(_) => 1,
        None => 0,
    }
}

fn entropy_count(entropy: &Option<Entropy>) -> usize
    ensures { result ≡ devices.entropy_count entropy.now }
{
    match entropy {
        Some(_) => 1,
        None => 0,
    }
}

fn place_of(interfaces: &[Interface], id: &str) -> Option<usize>
    ensures { result ≡ position (is_interface id.now) interfaces.now }
{
    interfaces
        .iter()
        .position(|interface| interface.iface_id.as_str() == id)
}

impl Config {
    /// How many devices a machine has by what is configured: one for each drive and each interface, the vsock device, the
    /// balloon and the entropy device.
    pub fn device_count(&self) -> u128
        ensures { result ≡ devices.device_count self.now }
    {
        let drives = self.drives.as_slice().len() as u128;
        let interfaces = self.interfaces.as_slice().len() as u128;
        drives
            + interfaces
            + vsock_count(&self.vsock) as u128
            + balloon_count(&self.balloon) as u128
            + entropy_count(&self.entropy) as u128
    }

    /// The number of the device that the interface of this id is.
    pub fn interface_device(&self, id: &str) -> Option<usize>
        ensures { result ≡ devices.interface_device self.now id.now }
    {
        let place = place_of(self.interfaces.as_slice(), id)?;
        Some(self.drives.as_slice().len() + place)
    }

    // How many devices there are before the balloon.
    fn others(&self) -> usize
        ensures { result ≡ length self.now.drives + length self.now.interfaces + devices.vsock_count self.now.vsock }
    {
        let drives = self.drives.as_slice().len();
        let interfaces = self.interfaces.as_slice().len();
        drives + interfaces + vsock_count(&self.vsock)
    }

    /// The number of the device that the balloon is.
    pub fn balloon_device(&self) -> Option<usize>
        ensures { result ≡ devices.balloon_device self.now }
    {
        match self.balloon {
            Some(_) => Some(self.others()),
            None => None,
        }
    }
}
