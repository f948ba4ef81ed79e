//! A token bucket in exact integers: time is a parameter, and nothing is rounded.
//!
//! `specs/Allowance.antt` says what may pass, by sums over the list of needs that passed. A `Bucket` keeps
//! three numbers in place of the list; its contracts hold for every start and list whose saved form these are.
#![tactic(auto)]

mod bucket;
mod law;
mod state;

pub use bucket::Bucket;
pub use law::{by_what_is_kept, life_goes_on, rate_bound, some_start};
pub use state::{BucketParts, State};
