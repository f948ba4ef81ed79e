//! A full snapshot with its later diffs, merged in order by calls of the merge command, is loaded as the machine that its last
//! create left, and answers every later list alike.
//!
//! `specs/Merged.antt` says which calls of the merge command are meant, and `specs/Restored.antt` which creates and which load.
//! `law` joins what the calls of the programs ensure: what `firecracker` makes of requests is the flat machine's, and what
//! `snapshot_editor` leaves of files is a merge's.
#![tactic(auto)]

mod law;

pub use law::{calls_merge, restored_chain};
