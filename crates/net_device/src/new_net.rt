// What a machine starts a network device with.
ghost use Rattle.std.specs.Prelude.{◌≡◌};
ghost use Rattle.net_device.specs.Port.{config_of, offered};

use le_fields::put64;
use port_table::Feature;
use rate_gate::RateGate;

/// What a machine starts a network device with (VIRTIO 1.2, 5.1).
#[derive(Drop)]
pub struct NewNet {
    /// The MAC address that the device is given, if it is (VIRTIO_NET_F_MAC): its six bytes as a number, the first byte the lowest.
    pub mac: Option<u64>,
    /// How much it may receive.
    pub rx: RateGate,
    /// How much it may transmit.
    pub tx: RateGate,
}

impl NewNet {
    /// What it offers beside VIRTIO_F_VERSION_1.
    pub fn features(&self) -> u64
        ensures { result ≡ offered self.now }
    {
        match self.mac {
            None => 0,
            Some(_) => Feature::NetMac.mask(),
        }
    }
}

/// The configuration of a network device's port (5.1.4): its MAC address, or zeros.
pub fn configuration(mac: Option<u64>) -> [u8; 8]
    ensures { result ≡ config_of mac }
{
    let mut bytes = [0; 8];
    put64(&mut bytes, 0, mac.unwrap_or(0));
    bytes
}
