//! The command `generate N`: the script of a number, to a sink.
//!
//! `generate_main` has the words read and writes the script. Its contract joins the words, what the sink took and the cause
//! of a fault.
#![tactic(auto)]

mod generating;

pub use generating::{generate_by, generate_main};
