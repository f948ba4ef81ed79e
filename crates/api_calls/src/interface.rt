// Network interfaces.
use crate::limiter::Limiter;
use vm_types::TextList;

/// A network interface: a network device (VIRTIO 1.2, 5.1) over a link of the host.
#[derive(Drop)]
pub struct Interface {
    /// Its name among the interfaces: 1 to 64 letters and digits of ASCII, and `_`.
    pub iface_id: TextList,
    /// The name of the link, of 1 to 4,095 bytes.
    pub host_dev_name: TextList,
    /// The address that its driver is told (5.1.4): six pairs of hexadecimal digits, the letters small, with colons between.
    pub guest_mac: Option<TextList>,
    /// The limits of the frames that its guest receives.
    pub rx_rate_limiter: Option<Limiter>,
    /// The limits of the frames that its guest sends.
    pub tx_rate_limiter: Option<Limiter>,
}

/// What is to be replaced of an interface; what isn't given stays.
#[derive(Drop)]
pub struct InterfacePatch {
    /// The name of the interface.
    pub iface_id: TextList,
    pub rx_rate_limiter: Option<Limiter>,
    pub tx_rate_limiter: Option<Limiter>,
}
