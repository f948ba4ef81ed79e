//! What passes the limits of an entropy device (VIRTIO 1.2, 5.4) in any window of guest time is bounded by its buckets.
//!
//! `specs/Limits.antt` says which chains pass by a trace of the device, and at which guest times. `law` says that this is a life of
//! its buckets, and so is bounded.
#![tactic(auto)]

mod law;

pub use law::entropy_is_limited;
