//! How parts of a disk's sectors are read from its file and written there: a block is read at once, and a sector is written with
//! its last part.
//!
//! What the file then holds is shown by `object_cases`, over a real one.
#![tactic(auto)]

mod parts;

pub use parts::DiskParts;
