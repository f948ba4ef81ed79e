//! The refusals of calls, request heads, files and merges: one table for every part that refuses.
//!
//! A `Refusal` stands for a row of the table. Its contracts give the row's number and text, the HTTP status that
//! goes with it, and the body of the reply that tells it.
#![tactic(auto)]

mod refusal;

pub use refusal::{Refusal, fault_text};
