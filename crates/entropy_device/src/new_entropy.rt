// What a machine starts an entropy device with.

use rate_gate::RateGate;

/// What a machine starts an entropy device with (VIRTIO 1.2, 5.4).
#[derive(Drop)]
pub struct NewEntropy {
    /// How much it may give.
    pub limits: RateGate,
}
