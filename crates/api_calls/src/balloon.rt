// The balloon.

/// A memory balloon (VIRTIO 1.2, 5.5).
#[derive(Clone, Copy, Drop)]
pub struct Balloon {
    /// How much memory the guest is to give, in MiB: at most all that it has.
    pub amount_mib: u64,
    /// Whether its driver may take memory back when it is short of it (VIRTIO_BALLOON_F_DEFLATE_ON_OOM).
    pub deflate_on_oom: bool,
    /// How many seconds there are between two reports of its driver, below 2^16. 0 is none at all (VIRTIO_BALLOON_F_STATS_VQ).
    pub stats_polling_interval_s: u64,
}

/// How much memory the guest is to give from now on, in MiB.
#[derive(Clone, Copy, Drop)]
pub struct BalloonPatch {
    pub amount_mib: u64,
}

/// How many seconds there are between two reports from now on, below 2^16.
#[derive(Clone, Copy, Drop)]
pub struct StatisticsPatch {
    pub stats_polling_interval_s: u64,
}
