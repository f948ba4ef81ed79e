//! The places of a machine as places of one kind, in a list by their index: the pages, the ports and the board.
//!
//! A table of turns has one kind of place. `MachinePlace` is that of a machine, and acts as the place that it is. `place_all` puts a
//! machine's places into a list in which each has its index (`index_of`), and `take_all` takes them out again. No two places have one index. None of it takes memory.
#![tactic(auto)]

mod index;
mod law;
mod listing;
mod place;

pub use index::index_of;
pub use law::indices_differ;
pub use listing::{place_all, take_all};
pub use place::MachinePlace;
