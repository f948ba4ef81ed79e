//! Actors at work by turns, each with a seat and a journal that has what the seat noted.
//!
//! A `Worker` begins with one part of the right to act (`Worker::new`), acts at places by turns (`act`) or with no place (`act_out`), and
//! leaves (`leave`): its seat is joined to another, and its journal comes back. The journal has each of its acts, and the seat has noted
//! just those that have a place. So the seat that all others were joined to has noted just what all journals have (`HasNoted`), which
//! `turn_law` asks. None of it takes memory.
#![tactic(auto)]

mod worker;

pub use worker::Worker;
