//! A diff file is written anew under another name, in the version that a create writes.
//!
//! `convert` reads the diff, of either version, and refuses by the first rule that fits. Else it writes the file of the same
//! diff under the second name, behind a gate as a create does. All memory is taken before the first of these calls.
#![tactic(auto)]

mod converting;
mod planning;

pub use converting::convert;
