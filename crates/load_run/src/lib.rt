//! The command `run N`: the script of a number is replayed in memory, its diffs are merged, and what is left is loaded.
//!
//! `run_main` judges the words and writes one line, which tells what the machine of the replay and the one that was loaded
//! show. `specs/Running.antt` says which line it is, by the flat machine, and `law` what the merges leave: the copy that the full
//! snapshot kept, overlaid with the diffs. Read `running` first, which joins a replay
//! (`replaying`), the merges (`merging`) and what a machine shows (`showing`).
#![tactic(auto)]

mod failures;
mod law;
mod line;
mod merging;
mod no_line;
mod replaying;
mod running;
mod scripts;
mod showing;
mod top;

pub use law::{alike_show_alike, merged_is_overlaid, numbers_said, restored_shows_alike};
pub use top::{run_by, run_main};
