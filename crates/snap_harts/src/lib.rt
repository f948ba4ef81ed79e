//! A hart in a state file: its registers with what it is at, and whether it runs.
//!
//! `specs/Harts.antt` and `specs/HartStates.antt` say which bytes are which hart's, one encoding for each; the bytes of
//! anything else are refused. `specs/Copy.antt` says of which hart a copy is, and which copy is a hart's.
#![tactic(auto)]

mod hart;
mod hart_state;

pub use hart::{HartPlace, SavedHart};
pub use hart_state::SavedHartState;
