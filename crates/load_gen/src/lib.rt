//! The script of a number: a load of any size that a number names.
//!
//! `generate` writes it to a sink: two harts that add to pages, a full snapshot, and 1 to 64 rounds of steps with a diff
//! behind each. `specs/Load.antt` says which script it is; `load_is_read` proves that each of its lines is an item.
#![tactic(auto)]

mod beginning;
mod draws;
mod generating;
mod law;
mod rounds;
mod writing;

pub use draws::rounds_of;
pub use generating::generate;
pub use law::load_is_read;
