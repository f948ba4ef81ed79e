//! Files that hold what a list of creates made, at every moment of creates and merges, and what loads of them.
//!
//! `specs/Listed.antt` says which files agree with a list. `law` says that they stay so over any files of the model, by what
//! `snap_writer::create` and `snapshot_merge::rebase` ensure, and that what loads is the copy of a completed create.
#![tactic(auto)]

mod law;

pub use law::any_files;
