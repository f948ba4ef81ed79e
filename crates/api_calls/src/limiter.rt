// Limits on what a device passes.

/// A token bucket: how much may pass at once, and how soon as much may pass again.
#[derive(Clone, Copy, Drop)]
pub struct BucketConfig {
    /// How many tokens it holds, below 2^48. 0 is no limit.
    pub size: u64,
    /// In how many milliseconds so many flow in, below 2^32. 0 is no limit.
    pub refill_time: u64,
    /// How many more there are once, below 2^48.
    pub one_time_burst: Option<u64>,
}

/// The limits of a drive, of a direction of a network interface, or of an entropy device.
#[derive(Clone, Copy, Drop)]
pub struct Limiter {
    /// Of the bytes that pass.
    pub bandwidth: Option<BucketConfig>,
    /// Of the requests or the frames that pass.
    pub ops: Option<BucketConfig>,
}
