//! A machine that was saved, and one that was loaded of what it saved, are alike for every later list.
//!
//! `specs/Alike.antt` says which machines are alike: they are the same, but for lineages. `law` has what holds of them: each
//! run of the one is one of the other, which shows the same and leaves them alike.
#![tactic(auto)]

mod law;

pub use law::{any_later_run, any_later_trace, saved_is_loaded, started_is_configured};
