//! What is reserved in memory, as a copy of a machine has it, and back.
//!
//! `reservations_of` lists what is reserved in the pages, by page and then by hart, and `reserve` reserves in pages what
//! a copy lists. Which list is that of which memory is said by `reservations_from` and `slots_with` of `flat_snapshot`.
#![tactic(auto)]

mod reserving;

pub use reserving::{reservations_of, reserve};
