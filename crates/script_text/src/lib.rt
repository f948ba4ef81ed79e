//! The lines of a script, read into items and written.
//!
//! `read_line` gives the item that a line asks for, and `write_item` its line. A `LineReader` is fed a script's bytes
//! as they come, and `next` gives its items; it holds at most one byte over the longest line of a line that hasn't
//! ended. `one_line` proves that the two ways fit, for every line and item, and `whole_text` for whole scripts.
//! The functions on `= HEX` and `?` lines give the bytes of what is shown and of lines that don't apply.
#![tactic(auto)]

mod answers;
mod item;
mod law;
mod line_reader;
mod lines_of_actors;
mod lines_of_connection;
mod lines_of_host;
mod lines_shown;
mod output;
mod reading;
mod telling;
mod writing;

pub use item::{HostReply, Item};
pub use law::{one_line, whole_text};
pub use line_reader::{LineReader, Next};
pub use output::{Misfit, memory_line, misfit_line, register_line, waits_line};
pub use reading::read_line;
pub use writing::write_item;
