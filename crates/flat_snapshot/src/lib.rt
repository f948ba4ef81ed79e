//! Snapshots of the flat machine: what is kept of a guest, which files it makes, what a load finds in files, and the
//! guest that goes on from it.
//!
//! `specs/` says it, in the order Copies, Files, Found, Carried; `law` has what holds of every guest and snapshot.
#![tactic(auto)]

mod law;

pub use law::{
    copied_again, create_then_load, diff_since, goes_on, goes_on_alike, load_of_files, no_snapshot,
    one_copy_of, unwritten_pages, valid_copies,
};
