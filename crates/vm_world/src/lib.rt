//! The world of the machine: guest memory in pages, the board, and the actors; one event of one actor at a time.
//!
//! `World::step` makes the flat machine's event (`FlatStep` of `flat_guest/specs/Steps.antt`) of each guest that the
//! world is, and refuses exactly what isn't one, with nothing changed. `World::run` makes so many events of one actor,
//! or as many as there are before the guest is off or the actor waits for a host object's reply. `World::change` is
//! what the API changes of a device, and `World::statistics` what a balloon tells.
#![tactic(auto)]

mod actors;
mod burst;
mod hart_run;
mod memory;
mod starting;
mod step_error;
mod world;

pub use step_error::{NoActor, NotRam, StepError};
pub use world::{World, WorldParts};
