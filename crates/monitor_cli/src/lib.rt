//! The command `replay`: a script from a source, its answers to a sink, over any files.
//!
//! `replay_main` has a command's words read and replays: the status, the bytes that the sink took and what the files hold are
//! those of the flat machine's run over the script's lines, and where a host object failed or memory was wanted, the answers
//! so far and the reason. Read `top` first, then `replaying`, which joins a script's run (`script`, `lines`, `items`) and its
//! ending.
#![tactic(auto)]

mod closing;
mod items;
mod last_line;
mod lines;
mod no_words;
mod outside;
mod replaying;
mod script;
mod top;

pub use last_line::write_last;
pub use lines::ScriptRun;
pub use no_words::NoWords;
pub use outside::Outside;
pub use script::run_script;
pub use top::{refuse, refuse_words, replay_by, replay_main};
