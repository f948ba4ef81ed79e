//! A balloon (VIRTIO 1.2, 5.5) as a kind of device on the rounds of `queue_device`. `BalloonDevice` keeps what one has still to
//! do.
#![tactic(auto)]

mod device;
mod kind;
mod law;
mod new_balloon;
mod pages;
mod statistics;
mod telling;
mod valid;

pub use device::{BalloonDevice, new_balloon_device};
pub use kind::{BalloonChange, BalloonKind, Stage};
pub use law::{balloon_does, balloon_goes_on, balloon_kept, balloon_stays};
pub use new_balloon::{NewBalloon, configuration};
pub use statistics::Statistics;
