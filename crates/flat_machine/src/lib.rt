//! The flat machine: its data, what a request and an item do to it, its run over acts, and the replay of a
//! whole script.
//!
//! `specs/` says it, in the order Machine, Outcome, Requests, Items, Run, Replay, Stops; `law` has what holds of every
//! machine and script. What computes it is the monitor, whose contracts are these definitions.
#![tactic(auto)]

mod law;

pub use law::{
    between_creates, create_then_load, every_run_ready, no_devices, one_replay, one_run,
    some_replay, whole_lines,
};
