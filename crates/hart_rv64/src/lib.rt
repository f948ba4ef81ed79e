//! A hart of the monitor: 64-bit RISC-V instructions, one event at a time.
//!
//! `Hart` is an actor whose want and next state are those of the definition (`hart_trace`), so by
//! `hart_trace::hart_follows` its entries are a hart's trace, or the first of one; `op_after` says so of each list of
//! steps. `asks` and `takes` are its wants and replies in few bytes: a word is decoded once, and an `Op` is made only
//! where someone reads it.
#![tactic(auto)]

mod begun;
mod hart;
mod traces;

pub use hart::Hart;
pub use traces::op_after;
