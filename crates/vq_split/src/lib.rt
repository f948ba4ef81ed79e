//! The walk of a split queue's next chain, act by act.
//!
//! `chain_walk` of `specs/Chain.antt` says what is read of a queue's tables and what comes of it. `ChainWalk`
//! is what is left of such a walk: it wants what that wants, and a reply leads it on.
#![tactic(auto)]

mod descriptor;
mod entry;
mod fields;
mod flaw;
mod law;
mod queue;
mod valid;
mod walk;

pub use descriptor::Descriptor;
pub use fields::{index_in, is_inside, read_bytes, value16, value32, value64};
pub use flaw::queue_flaw;
pub use law::{walk_kept, walk_stays};
pub use queue::{Part, PartList, Queue, Table, Why};
pub use valid::{are_inside, is_sound};
pub use walk::{ChainWalk, Stage, Walk};
