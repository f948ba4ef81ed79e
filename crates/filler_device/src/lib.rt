//! A kind of device that no machine has, on the rounds of `queue_device`: two queues, of which one waits for guest time.
#![tactic(auto)]

mod kind;
mod law;

pub use kind::{FillerChange, FillerKind};
pub use law::{filler_goes_on, filler_kept, filler_stays, filler_waits};
