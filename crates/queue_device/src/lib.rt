//! A device with queues (VIRTIO 1.2, 2.6): its rounds, once for all kinds.
//!
//! `specs/Lanes.antt` has the queues with where the device stands in each, `specs/Service.antt` what a kind has of its own,
//! and `specs/Rounds.antt` the groups of acts: a look at the port, a question to the host object, a chain of a queue, guest
//! time where the kind has a limit, a wait. `specs/Confined.antt` says what such a device may do. No kind is named.
//! `QueueRounds` is such a device in code, over what a `Kind` does, and `QueueDevice` one that is in a state that it may be in.
#![tactic(auto)]

mod again;
mod begun;
mod chain;
mod device;
mod going;
mod in_place;
mod inside;
mod kind;
mod lanes;
mod law;
mod opening;
mod phase;
mod spill;
mod standing;
mod valid;

pub use again::{collect_again, parts_again};
pub use chain::{SoundQueue, TakenChain, TakenParts};
pub use device::QueueRounds;
pub use kind::{Begin, Kind};
pub use lanes::{Due, Lane, Rounds, Which, is_running};
pub use law::{queue_goes_on, queue_kept, queue_one, queue_stays, queue_writes};
pub use phase::{InHand, Phase, Work};
pub use spill::Spill;
pub use standing::QueueDevice;
pub use valid::is_state;
