//! The state file: what is kept of a machine that stands still, and how it is read back from bytes that anyone may
//! have written.
//!
//! `specs/Files.antt` says which bytes are a state file of which copy, over the formats of the parts: `Configured`,
//! `Boards`, `Copies`, and those of `snap_harts` and `snap_devices`. `Valid` says which copies there are, a line a rule.
//! `encode_behind_gate` writes the file of a copy but its gate, which is opened last; `decode` answers the one copy that the bytes are a file of, or the first refusal
//! that fits. `specs/Copy.antt` says of which board and of which harts a copy is.
#![tactic(auto)]

mod address;
mod attached;
mod balloon;
mod board;
mod configuration;
mod copy;
mod devices;
mod drives;
mod entropy;
mod file;
mod filed;
mod interfaces;
mod kinds;
mod law;
mod limits;
mod listed;
mod mmds;
mod sections;
mod valid;
mod vsock;

pub use board::SavedBoard;
pub use configuration::{BootSource, Configuration};
pub use copy::{Reservation, StateCopy};
pub use file::{STATE_HEADER, Saved, decode, encode_behind_gate, state_magic};
pub use filed::{Filed, taken};
pub use law::{one_copy, one_of_each};
pub use listed::{Item, SavedDrives, SavedInterfaces, SavedList};
pub use sections::{Section, entropy_in, sections_of};
pub use valid::is_valid;
