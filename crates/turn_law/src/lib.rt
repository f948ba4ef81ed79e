//! What a round of turns comes to: its journals, in the order of their stamps, are a run of the machine.
//!
//! The journals have each entry once, and the seat with all parts of the right to act has the same entries, each at the index of its
//! place (`turn_table`). What that seat is told when the round ends is a history for each place. So nothing has to be compared.
#![tactic(auto)]

mod law;

pub use law::{told_is_run, told_is_stamped};
