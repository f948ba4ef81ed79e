// What a port keeps.

use crate::kind::DeviceKind;

/// The registers of one queue (VIRTIO 1.2, 4.2.2).
#[derive(Clone, Copy, Drop)]
pub struct PortQueue {
    /// QueueDesc: the guest address of the descriptor table.
    pub descriptors: u64,
    /// QueueDriver: the guest address of the available ring.
    pub available: u64,
    /// QueueDevice: the guest address of the used ring.
    pub used: u64,
    /// QueueNum: its size in descriptors, as the driver wrote it.
    pub size: u32,
    /// QueueReady, as the driver wrote it: the queue is worked on where it is 1.
    pub ready: u32,
    /// The driver wrote its number to QueueNotify since the device's last look.
    pub is_kicked: bool,
}

/// A port between two acts (VIRTIO 1.2, 4.2.2): what kind of device has it, and its registers.
#[derive(Clone, Copy, Drop)]
pub struct PortState {
    /// DeviceFeatures: what the device offers, a bit a feature.
    pub offered: u64,
    /// DriverFeatures: what the driver accepted of them.
    pub accepted: u64,
    /// Three queues, of which the device has the first `queue_count`.
    pub queues: [PortQueue; 3],
    /// DeviceFeaturesSel: which 32 bits DeviceFeatures shows.
    pub offered_select: u32,
    /// DriverFeaturesSel: which 32 bits DriverFeatures writes.
    pub accepted_select: u32,
    /// QueueSel: which queue the queue's registers are of.
    pub queue_select: u32,
    /// InterruptStatus: 1 a used buffer, 2 a configuration change.
    pub interrupt_status: u32,
    pub status: u32,
    pub config_generation: u32,
    /// The configuration: the first `config_length` bytes are the device's.
    pub config: [u8; 8],
    pub kind: DeviceKind,
    /// The driver asked for a reset, which the device's next look makes.
    pub is_reset_asked: bool,
}
