//! A snapshot is read: what a load finds under the names of its two files, over any files. That is the snapshot, or the first
//! refusal that fits. No file is changed, and nothing is kept of what was refused.
//!
//! `find` looks at the state file first: it reads the header, and all of it only where that fits the file's size. Of the
//! memory file it reads the header, and its pages once nothing refuses them, by `load_pages`, in blocks as a create writes
//! them. `specs/Finding.antt` says what an answer is of what the flat machine finds.
#![tactic(auto)]

mod finding;
mod judging;
mod loading;

pub use finding::{FindError, FoundSnapshot, find};
pub use loading::load_pages;
