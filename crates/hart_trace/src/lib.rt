//! A hart's trace, and the hart that follows it.
//!
//! A trace is a list of whole groups of steps, and says what a hart may want and be answered; it knows
//! nothing of how a hart is kept. `hart_follows` ties the two: where the steps of a trace lead to a hart,
//! its want is the one op that continues them. `look` is what a hart makes of the reply to a look at the board;
//! `hart_rv64` has the hart itself.
#![tactic(auto)]

mod law;
mod looks;

pub use law::{hart_asks, hart_follows, hart_kept, hart_shaped, one_op};
pub use looks::{Interrupt, look};
