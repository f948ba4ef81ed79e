//! The host objects that a running guest's actors ask: the disks, the links, the host's end of the vsock device, the
//! words for entropy devices, and the clock.
//!
//! Each is a trait with one ghost fact, what is known of it: whether it tells its content, and that content. What is
//! said of the content holds where the object tells it: the kinds in memory do, and an adapter to a real object need
//! not. All but the clock, which never fails, have a count of their faults, and a call answers `Failed` exactly where
//! it rose, as at the objects of `vm_outside`. `Host` has one of each kind.
#![tactic(auto)]

mod attached;
mod clock;
mod disk;
mod guest_words;
mod host;
mod link;
mod vsock_host;

pub use attached::Attached;
pub use clock::Clock;
pub use disk::{Disk, DiskCall, PART, SECTOR};
pub use guest_words::GuestWords;
pub use host::Host;
pub use link::Link;
pub use vsock_host::{HostAct, HostEvent, VsockHost};
