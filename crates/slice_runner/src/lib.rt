//! Slices: harts and devices side by side over places that pass from one to another by turns, and one list of events.
//!
//! `run_slice` moves a world's pages, its ports and its board into a table of turns, lets each hart work in a thread of its own
//! and the timer and the devices beside them in this one, brings everything home, and puts what all of them did in one order. The
//! events are a run of the flat machine from the world before to the world after, each with the reply that it got, whoever came
//! first: the table's rule says so, and nothing is compared. Pages stay marked exactly where events wrote them; each actor has one
//! stop, with its cause. `specs/Slices.antt` says so, and `specs/Stops.antt` why an actor stops. All room is made before the
//! first step. Nothing is said of time: not that an actor gets on, nor that two threads ran at once.
#![tactic(auto)]

mod acting;
mod devices;
mod objects;
mod places;
mod room;
mod running;
mod sharing;
mod slice;
mod staffing;
mod stop;
mod worker;

pub use devices::Devices;
pub use objects::DeviceObjects;
pub use slice::{Slice, run_slice};
pub use stop::{Stop, Stopped};
pub use worker::ask_clock;
