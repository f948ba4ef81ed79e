//! A snapshot is written: a memory file and a state file, each behind a gate.
//!
//! `create` makes the calls of `specs/Create.antt` in that order: both files are closed, filled and synced, and then
//! opened, the memory file first. Where a call failed it says how far it came. What stands in the files is handed in
//! as bytes and pages, all of a memory or some (`SavedPages`). Memory is written in blocks of `BLOCK_SIZE` bytes, and the room for one is handed in too, so
//! that no memory is taken once the first call is made. `SavedPages::kinds` and `chosen` say which pages of a diff are stored.
//! `save` writes one file alone.
#![tactic(auto)]

mod creating;
mod filling;
mod kinds;
mod pages;
mod room;
mod saved_pages;
mod saving;

pub use creating::create;
pub use kinds::chosen;
pub use pages::BLOCK_SIZE;
pub use room::Room;
pub use saved_pages::SavedPages;
pub use saving::save;
