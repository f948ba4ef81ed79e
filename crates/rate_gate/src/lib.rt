//! A gate of two token buckets, one of bytes and one of operations: a request takes from both or from neither.
//!
//! `specs/Gate.antt` says when a request passes, what both keep of it, and what it waits for else, by what they keep and
//! by the definitions of `token_bucket`. `specs/Saved.antt` has the saved form, from which a gate goes on as the one that
//! made it. `specs/Lives.antt` says what passes of one bucket while requests come, buckets are replaced, and gates are saved
//! and go on: that is a life of the bucket, so how much passes in any window is bounded.
#![tactic(auto)]

mod gate;
mod law;
mod state;

pub use gate::{Pass, RateGate};
pub use law::{lives_are_bounded, loads_as_it_was};
pub use state::GateState;
pub use token_bucket::{Bucket, State};
