//! The end of a create: what becomes of the ids of a machine and of its guest.
//!
//! When a create comes here, the two files of its snapshot are written, or a call on them failed. `end_create` spends the
//! number of the snapshot either way, so that no two snapshots have it. Only where both files are written it makes the
//! snapshot the base, resets the guest, and takes the mark of every page away: else the next diff would lack pages that no file
//! has, and a create that failed would have reset the guest.
#![tactic(auto)]

mod ending;

pub use ending::end_create;
