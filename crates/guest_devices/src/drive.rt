// What a machine starts a block device with.
use rate_gate::RateGate;

/// What a machine starts a block device with (VIRTIO 1.2, 5.2).
#[derive(Drop)]
pub struct NewDrive {
    /// What GET_ID gives.
    pub drive_id: [u8; 20],
    /// The size of its disk, in sectors of 512 bytes.
    pub sectors: u64,
    pub is_read_only: bool,
    /// The driver may ask that what was written lasts (VIRTIO_BLK_F_FLUSH).
    pub offers_flush: bool,
    /// How much its requests may pass.
    pub limits: RateGate,
}
