// Which host objects the devices have.
ghost use Rattle.std.specs.Prelude.{ℕ, ◌≡◌, ◌≢◌, option_copied};
ghost use Rattle.vm_outside.specs.Known.{Tells};
ghost use Rattle.flat_machine.specs.Machine.{Machine};
ghost use Rattle.monitor_machine.specs.Kinds as kinds;
ghost use Rattle.monitor_machine.specs.Kinds.{disks, links, vsocks};
ghost use Rattle.monitor_machine.specs.Objects.{AreNamed, Named, Uncalled};
ghost use Rattle.monitor_machine.specs.State.{IsLive};

use crate::machine::LiveMachine;
use vm_config::Config;
use vm_host::{Disk, Link, VsockHost};

/// A guest has at most so many devices, one at each port.
const MOST_DEVICES: u8 = 16;

// The file that is configured for the device of this number, if it is a drive's.
fn file_of(config: &Config, device: usize) -> Option<&str>
    ensures { option_copied result ≡ kinds.file_of config.now device }
{
    let drive = config.drives.at_device(device)?;
    Some(drive.path_on_host.as_str())
}

// The link, if it is an interface's.
fn link_of(config: &Config, device: usize) -> Option<&str>
    ensures { option_copied result ≡ kinds.link_of config.now device }
{
    let place = device.checked_sub(config.drives.as_slice().len())?;
    let interface = config.interfaces.as_slice().get(place)?;
    Some(interface.host_dev_name.as_str())
}

// The socket of the vsock device.
fn socket_of(config: &Config) -> Option<&str>
    ensures { (device : ℕ) → option_copied result ≡ kinds.socket_of config.now device }
{
    let vsock = config.vsock.as_ref()?;
    Some(vsock.uds_path.as_str())
}

fn attach_disk<D: Disk>(config: &Config, device: u8, disk: &mut D)
    ensures attached { Named disks (D.known disk.old).health config.now device (D.known disk.new) }
    ensures others { Tells (D.known disk.old).health → (other : ℕ) → other ≢ device →
        (D.known disk.new).files other ≡ (D.known disk.old).files other }
    ensures uncalled { Uncalled disks (D.known disk.old) (D.known disk.new) }
{
    if let Some(name) = file_of(config, device as usize) {
        disk.attach(device, name);
    }
}

fn attach_link<L: Link>(config: &Config, device: u8, link: &mut L)
    ensures attached { Named links (L.known link.old).health config.now device (L.known link.new) }
    ensures others { Tells (L.known link.old).health → (other : ℕ) → other ≢ device →
        (L.known link.new).sockets other ≡ (L.known link.old).sockets other }
    ensures uncalled { Uncalled links (L.known link.old) (L.known link.new) }
{
    if let Some(name) = link_of(config, device as usize) {
        link.attach(device, name);
    }
}

// What it is attached for is the device of this number.
fn attach_socket<V: VsockHost>(config: &Config, device: u8, vsock: &mut V)
    ensures attached { (k : ℕ) → Named vsocks (V.known vsock.old).health config.now k (V.known vsock.new) }
    ensures uncalled { Uncalled vsocks (V.known vsock.old) (V.known vsock.new) }
{
    if let Some(name) = socket_of(config) {
        vsock.attach(device, name);
    }
}

impl LiveMachine {
    /// Where there is a guest, the disk of each of its devices is the file that its drive names from now on. What can't be
    /// opened fails later.
    pub fn attach_disks<D: Disk>(&self, disk: &mut D)
        ensures attached { (m : Machine) → IsLive self.now m →
            AreNamed disks (D.known disk.old).health m (D.known disk.new) }
        ensures uncalled { Uncalled disks (D.known disk.old) (D.known disk.new) }
    {
        if self.guest.is_none() {
            return;
        }
        for device in 0..MOST_DEVICES {
            attach_disk(self.config.get(), device, disk);
        }
    }

    /// The same of the links of its interfaces.
    pub fn attach_links<L: Link>(&self, link: &mut L)
        ensures attached { (m : Machine) → IsLive self.now m →
            AreNamed links (L.known link.old).health m (L.known link.new) }
        ensures uncalled { Uncalled links (L.known link.old) (L.known link.new) }
    {
        if self.guest.is_none() {
            return;
        }
        for device in 0..MOST_DEVICES {
            attach_link(self.config.get(), device, link);
        }
    }

    /// The same of the host's end of its vsock device, which is the device behind those of drives and interfaces.
    pub fn attach_vsock<V: VsockHost>(&self, vsock: &mut V)
        ensures attached { (m : Machine) → IsLive self.now m →
            AreNamed vsocks (V.known vsock.old).health m (V.known vsock.new) }
        ensures uncalled { Uncalled vsocks (V.known vsock.old) (V.known vsock.new) }
    {
        if self.guest.is_none() {
            return;
        }
        let config = self.config.get();
        let before = config
            .drives
            .as_slice()
            .len()
            .saturating_add(config.interfaces.as_slice().len());
        let device = before.min(MOST_DEVICES as usize) as u8;
        attach_socket(config, device, vsock);
    }
}
