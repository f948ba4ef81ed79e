//! A diff is merged into the memory file that it changes.
//!
//! `rebase` reads both files, and refuses by the first rule that fits (`specs/Plans.antt`). Else it makes the calls of
//! `specs/Calls.antt` in that order: in stages, each of which writes to the base and syncs it, so that the base says at
//! each moment what was begun. A merge that was cut off is gone on with by calling it again. All memory is taken before
//! the first of these calls. `law` says that what is left is the encoding of the copy that the diff makes.
#![tactic(auto)]

mod checking;
mod error;
mod finding;
mod judging;
mod law;
mod merge;
mod rebasing;
mod room;
mod stages;

pub use error::RebaseError;
pub use finding::{DiffStart, diff_pages, find_diff};
pub use law::{merged, merged_in_order, stops};
pub use merge::{Merge, merge_of};
pub use rebasing::rebase;
