//! A diff file: the pages of a memory that were written since another snapshot.
//!
//! `specs/Copies.antt` says what a diff is and what it makes of a copy of the memory, `Runs.antt`, `Headers.antt` and
//! `Diffs.antt` which bytes its file is, in versions 1 and 2. `DiffHeader::read` answers the header that a file's bytes begin
//! with, or the first refusal that fits, and `read_table` the runs of the table behind it;
//! `DiffHeader::encode_behind_gate` gives both as bytes of version 2, but the gate, which is opened last. The stored pages
//! behind the table are as the memory has them. `law` has what holds of every diff.
#![tactic(auto)]

mod header;
mod law;
mod making;
mod run;
mod table;

pub use header::{DiffHeader, DiffNames};
pub use law::{later_diffs, one_diff, overlay, written_diff};
pub use making::runs_of;
pub use run::{Run, is_filled};
pub use table::{count_pages, read_table};
