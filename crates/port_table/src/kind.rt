// What kinds of devices there are.
ghost use Rattle.std.specs.Prelude.{◌≡◌, ◌≤◌};
ghost use Rattle.port_table.specs.Kinds as kinds;

/// A device by its type (VIRTIO 1.2, 5).
#[derive(Clone, Copy, Drop)]
pub enum DeviceKind {
    Net,
    Block,
    Balloon,
    Vsock,
    Entropy,
}

/// A feature that a device may offer (VIRTIO 1.2, 6 and "Feature bits" of each type).
#[derive(Clone, Copy, Drop)]
pub enum Feature {
    /// VIRTIO_F_VERSION_1, which each device offers.
    Version1,
    /// VIRTIO_F_INDIRECT_DESC: a descriptor may name a table of descriptors.
    IndirectDescriptors,
    /// VIRTIO_F_EVENT_IDX: driver and device say at which index they want to be told.
    EventIndex,
    /// VIRTIO_NET_F_MAC: the device has a given MAC address.
    NetMac,
    /// VIRTIO_BLK_F_RO: the device is read-only.
    BlockReadOnly,
    /// VIRTIO_BLK_F_FLUSH: the device takes flush requests.
    BlockFlush,
    /// VIRTIO_BALLOON_F_STATS_VQ: the device asks for the guest's memory statistics.
    BalloonStatistics,
    /// VIRTIO_BALLOON_F_DEFLATE_ON_OOM: the guest may take pages back when it is short of memory.
    BalloonDeflateOnOom,
}

impl Feature {
    /// The number of which its bit alone is set.
    pub fn mask(self) -> u64
        ensures { result ≡ kinds.feature_mask self }
    {
        match self {
            Feature::Version1 => 0x1_0000_0000,
            Feature::IndirectDescriptors => 0x1000_0000,
            Feature::EventIndex => 0x2000_0000,
            Feature::NetMac => 0x20,
            Feature::BlockReadOnly => 0x20,
            Feature::BlockFlush => 0x200,
            Feature::BalloonStatistics => 0x2,
            Feature::BalloonDeflateOnOom => 0x4,
        }
    }
}

impl DeviceKind {
    /// The number of its type, which the register DeviceID shows.
    pub fn device_id(self) -> u32
        ensures { result ≡ kinds.device_id self }
    {
        match self {
            DeviceKind::Net => 1,
            DeviceKind::Block => 2,
            DeviceKind::Balloon => 5,
            DeviceKind::Vsock => 19,
            DeviceKind::Entropy => 4,
        }
    }

    /// How many queues it has, of which there are three at most.
    pub fn queue_count(self) -> u32
        ensures count { result ≡ kinds.queue_count self }
        ensures most { result ≤ 3 }
    {
        match self {
            DeviceKind::Net => 2,
            DeviceKind::Block => 1,
            DeviceKind::Balloon => 3,
            DeviceKind::Vsock => 3,
            DeviceKind::Entropy => 1,
        }
    }

    /// How many bytes its configuration has, of which there are eight at most.
    pub fn config_length(self) -> usize
        ensures length { result ≡ kinds.config_length self }
        ensures most { result ≤ 8 }
    {
        match self {
            DeviceKind::Net => 6,
            DeviceKind::Block | DeviceKind::Balloon | DeviceKind::Vsock => 8,
            DeviceKind::Entropy => 0,
        }
    }
}
