// What a process knows of its snapshots.

use vm_types::Identity;

/// What a process knows of its snapshots.
#[derive(Clone, Copy, Drop)]
pub struct Ids {
    /// The lineage of this process.
    pub lineage: u64,
    /// The last snapshot that was written or loaded.
    pub base: Option<Identity>,
    /// The number of the next snapshot. A number is below 2^63.
    pub next: u64,
}
