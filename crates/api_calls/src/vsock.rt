// The vsock device.
use vm_types::TextList;

/// A vsock device (VIRTIO 1.2, 5.10) over a Unix socket of the host.
#[derive(Drop)]
pub struct Vsock {
    /// The guest's CID (5.10.4), from 3 to 4,294,967,294.
    pub guest_cid: u64,
    /// The name of the socket, of 1 to 4,095 bytes. Those of ports that the guest dials begin with it.
    pub uds_path: TextList,
}
