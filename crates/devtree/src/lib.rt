//! The device tree of a machine, as the bytes that its guest finds in memory.
//!
//! `write_tree` gives the flattened tree (Devicetree Specification 0.4, chapter 5, version 17) of a configuration.
//! `specs/Machine.antt` has the tree as data, nodes with properties; `specs/Flat.antt` says how any tree is flattened.
#![tactic(auto)]

mod flat;
mod law;
mod machine;
mod token;

pub use law::trees_have_room;
pub use machine::{InitrdPlace, write_tree};
