//! The port of a device as a place: it answers what `port_table` says, always, and takes no memory.
//!
//! `Port` is made by the kind of its device, and is told by it of a new configuration. What harts read and write and
//! what the device does at its port are acts, whose order is the order of the port's events.
#![tactic(auto)]

mod config;
mod openings;
mod port;
mod queues;
mod registers;
mod valid;
mod window;

pub use port::Port;
