//! Runs of calls on one file: made whole, its front read, or behind a gate, which is its byte 0.
//!
//! A file behind a gate is made closed and synced, filled and synced, and at last opened and synced, so a crash at any
//! moment leaves it as it was, without its gate open, or whole. `close_file` and `open_file` make the first and the
//! last of these calls. What writes says of all that it did, and where a call failed, how far it came; what reads
//! changes nothing. `law` says what a crash leaves of a file behind a gate, at each moment of its calls.
#![tactic(auto)]

mod file_error;
mod gate;
mod law;
mod reading;
mod starting;
mod whole;

pub use file_error::FileError;
pub use gate::{close_file, open_file};
pub use law::{any_moment, any_pair, any_stage};
pub use reading::{read_front, zeros};
pub use starting::{FileStart, read_start};
pub use whole::save_file;
