//! The program's commands: `replay`, which `monitor_cli` has, `generate`, which `load_cli` has, `run`, which `load_run` has,
//! and `serve`.
//!
//! `firecracker_main` judges the words and does the command. Of `serve` its contract is trace fidelity: what the trace
//! took is a run of the flat machine, which shows what the connections and the sink took (`specs/Serving.antt`). Read
//! `top` first, then `serving`, and last `closing`.
#![tactic(auto)]

mod closing;
mod outside;
mod serving;
mod top;

pub use outside::ServeOutside;
pub use top::firecracker_main;
