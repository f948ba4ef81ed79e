//! A full snapshot, the diffs since it, and their merge: what creates wrote is what merges read, and what they leave loads
//! as the machine that was saved last, whichever processes it went through.
//!
//! `specs/Chains.antt` says which creates are a chain; `law` has what holds of every one. What a create and a load are is
//! the flat machine's definition, what a merge leaves that of `snapshot_merge`.
#![tactic(auto)]

mod law;
mod listed;

pub use law::{answered_creates, created_files, diffs_of_creates, merged_then_load, on_inside};
pub use listed::listed_creates;
