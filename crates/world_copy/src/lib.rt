//! A world as the copy that a snapshot keeps of it, and the world that goes on from a copy.
//!
//! `copy_world` answers the copy of each guest that a ready world is, behind a Reset (`flat_snapshot`), which is one that a state
//! file can have. `world_of` makes of a copy, which it takes, and the pages of its memory the world of the guest that goes on from them.
#![tactic(auto)]

mod attached;
mod configuring;
mod copying;
mod going_on;

pub use configuring::config_of;
pub use copying::copy_world;
pub use going_on::{Carried, world_of};
