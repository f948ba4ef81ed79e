//! What harts do in a slice, written down in little room.
//!
//! Most acts of a hart are accesses to a page, of eight bytes at most: a fetch, a load or a store. An `AccessEntry` keeps the entry of
//! one of them in four words and seven bytes. Contracts see the entry that it stands for.
#![tactic(auto)]

mod access_entry;

pub use access_entry::{Access, AccessEntry};
