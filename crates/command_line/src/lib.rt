//! The words of both programs, as `clap` reads them.
//!
//! `monitor_command` reads those of `firecracker`: one `clap::Command` with its subcommands, built once and matched once.
//! Its contract is that of the words alone (`specs/Commands.antt`): the command that they say, and `Usage` only where they say
//! none. `replay_id`, `generate_number` and `run_number` are for a caller that has one command. Read `commands` for what `clap` is told,
//! then `reading`. `parsing` has what the editor's words are read with too.
#![tactic(auto)]

mod commands;
mod machine_id;
mod number;
mod parsing;
mod reading;

pub use machine_id::DEFAULT_ID;
pub use parsing::{NoCommand, matches_of, named_in, program, value_in, value_option};
pub use reading::{
    MonitorCommand, ServeWords, generate_number, monitor_command, replay_id, run_number,
};
