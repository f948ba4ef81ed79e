// Which drives, interfaces and devices there are, and at which of them metadata are given.
ghost use Rattle.std.specs.Prelude.{◌≡◌, count_by, nat_le};
ghost use Rattle.std.specs.List.{list_all};
ghost use Rattle.api_calls.specs.Drives.{is_root};
ghost use Rattle.api_calls.specs.Form.{is_id, is_id_byte};
ghost use Rattle.vm_config.specs.Devices.{balloon_count, entropy_count, vsock_count};
ghost use Rattle.vm_config.specs.Interfaces.{has_interface};
ghost use Rattle.vm_config.specs.Named.{are_apart, has_named};
ghost use Rattle.guest_devices.specs.Moments.{is_timely};
ghost use Rattle.snap_state.specs.Valid.{are_devices, are_drives, are_interfaces, has_room, is_device, is_drive, is_interface};

use crate::address::holds_mac;
use crate::filed::Filed;
use crate::limits::holds_limiter;
use crate::valid::is_path;
use api_calls::{Balloon, Drive, Entropy, Interface, Vsock};
use file_format::Listed;
use port_table::MOST_DEVICES;
use snap_devices::SavedDevice;
use vm_config::Named;
use vm_types::TextList;

const MOST_ID: usize = 64;

fn is_id_byte(b: u8) -> bool
    ensures { result ≡ is_id_byte b }
{
    b.is_ascii_alphanumeric() || b == b'_'
}

fn are_id_bytes(bytes: &[u8]) -> bool
    ensures { result ≡ list_all is_id_byte bytes.now }
{
    bytes.iter().all(|b| is_id_byte(*b))
}

pub(crate) fn is_id(id: &str) -> bool
    ensures { result ≡ is_id id.now }
{
    let bytes = id.as_bytes();
    0 < bytes.len() && bytes.len() <= MOST_ID && are_id_bytes(bytes)
}

fn is_drive(drive: &Drive) -> bool
    ensures { result ≡ is_drive drive.now }
{
    is_id(drive.drive_id.as_str())
        && is_path(drive.path_on_host.as_str())
        && holds_limiter(&drive.rate_limiter)
}

fn is_used<T: Named>(id: &str, things: &[T]) -> bool
    ensures { result ≡ has_named T.id_of things.now id.now }
{
    things.iter().any(|thing| thing.id() == id)
}

// No two have one id.
fn are_apart<T: Named>(things: &[T]) -> bool
    ensures { result ≡ are_apart T.id_of things.now }
{
    let mut left = things;
    while let Some((first, others)) = left.split_first() {
        if is_used(first.id(), others) {
            return false;
        }
        left = others;
    }
    true
}

fn have_names(drives: &[Drive]) -> bool
    ensures { result ≡ list_all is_drive drives.now }
{
    drives.iter().all(|drive| is_drive(drive))
}

fn have_few_roots(drives: &[Drive]) -> bool
    ensures { result ≡ nat_le (count_by is_root drives.now) 1 }
{
    drives.iter().filter(|drive| drive.is_root_device).count() <= 1
}

/// Whether there are such drives.
pub fn are_drives(drives: &[Drive]) -> bool
    ensures { result ≡ are_drives drives.now }
{
    drives.len() <= MOST_DEVICES
        && have_names(drives)
        && are_apart(drives)
        && have_few_roots(drives)
}

fn is_interface(interface: &Interface) -> bool
    ensures { result ≡ is_interface interface.now }
{
    is_id(interface.iface_id.as_str())
        && is_path(interface.host_dev_name.as_str())
        && holds_mac(&interface.guest_mac)
        && holds_limiter(&interface.rx_rate_limiter)
        && holds_limiter(&interface.tx_rate_limiter)
}

fn have_links(interfaces: &[Interface]) -> bool
    ensures { result ≡ list_all is_interface interfaces.now }
{
    interfaces.iter().all(|interface| is_interface(interface))
}

/// Whether there are such interfaces.
pub fn are_interfaces(interfaces: &[Interface]) -> bool
    ensures { result ≡ are_interfaces interfaces.now }
{
    have_links(interfaces) && are_apart(interfaces)
}

/// Whether each of these ids is that of one of them.
pub fn are_there(interfaces: &[Interface], ids: &[TextList]) -> bool
    ensures { result ≡ list_all (has_interface interfaces.now) ids.now }
{
    ids.iter().all(|id| is_used(id.as_str(), interfaces))
}

/// How many of them there are.
pub fn balloon_count(balloon: &Option<Balloon>) -> usize
    ensures { result ≡ balloon_count balloon.now }
{
    match balloon {
        None => 0,
        Some(_) => 1,
    }
}

fn entropy_count(entropy: &Option<Entropy>) -> usize
    ensures { result ≡ entropy_count entropy.now }
{
    match entropy {
        None => 0,
        Some(_) => 1,
    }
}

/// How many of them there are.
pub fn vsock_count(vsock: &Option<Filed<Vsock>>) -> usize
    ensures { result ≡ vsock_count vsock.now }
{
    match vsock {
        None => 0,
        Some(_) => 1,
    }
}

/// Whether there are no more devices than there may be.
pub fn has_room(
    drives: &[Drive],
    interfaces: &[Interface],
    vsock: &Option<Filed<Vsock>>,
    balloon: &Option<Balloon>,
    entropy: &Option<Entropy>,
) -> bool
    ensures { result ≡ has_room drives.now interfaces.now vsock.now balloon.now entropy.now }
{
    let before = drives.len() as u128 + interfaces.len() as u128 + vsock_count(vsock) as u128;
    before + balloon_count(balloon) as u128 + entropy_count(entropy) as u128 <= MOST_DEVICES as u128
}

fn is_device(pages: u32, port: usize, item: &Listed<SavedDevice>) -> bool
    ensures { result ≡ is_device pages port item.now }
{
    let device = item.value.device();
    device.port() as usize == port && device.pages() == pages
}

/// Whether these are the devices of the ports from 0 on, in a guest of so many pages.
pub fn are_devices(pages: u32, devices: &[Listed<SavedDevice>]) -> bool
    ensures { result ≡ are_devices pages 0 devices.now }
{
    for (port, device) in devices.iter().enumerate() {
        if !is_device(pages, port, device) {
            return false;
        }
    }
    true
}

/// Whether no request of a device passed later than this time.
pub fn are_timely(time: u64, devices: &[Listed<SavedDevice>]) -> bool
    ensures { result ≡ list_all (is_timely time) devices.now }
{
    devices
        .iter()
        .all(|item| item.value.device().is_timely(time))
}
