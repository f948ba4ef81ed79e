//! The flat machine's guest: memory as one list, the board, the ports of its devices, the timer and harts by their traces,
//! and the devices by their items.
//!
//! `specs/` says what a guest is, what an event does to it, how it starts, and which guests a body's data are; `law`
//! has what holds of every guest. `place` says where an op acts.
#![tactic(auto)]

mod boot;
mod law;
mod places;

pub use boot::MOST_MIB;
pub use law::{one_step, same_events, same_shape, some_step, wide_events};
pub use places::{Layout, place};
