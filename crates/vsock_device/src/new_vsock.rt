// What a machine starts a vsock device with.
ghost use Rattle.std.specs.Prelude.{◌≡◌};
ghost use Rattle.vsock_device.specs.Port.{config_of};

use le_fields::put64;

/// What a machine starts a vsock device with (VIRTIO 1.2, 5.10).
#[derive(Clone, Copy, Drop)]
pub struct NewVsock {
    /// The guest's CID.
    pub guest_cid: u64,
}

/// The configuration of a vsock device's port (5.10.4): the guest's CID.
pub fn configuration(guest_cid: u64) -> [u8; 8]
    ensures { result ≡ config_of guest_cid }
{
    let mut bytes = [0; 8];
    put64(&mut bytes, 0, guest_cid);
    bytes
}
