// The entropy device.
use crate::limiter::Limiter;

/// An entropy device (VIRTIO 1.2, 5.4) over the random source of the host.
#[derive(Clone, Copy, Drop)]
pub struct Entropy {
    pub rate_limiter: Option<Limiter>,
}
