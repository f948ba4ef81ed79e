//! The board of the machine: the console as a ring of 4,096 bytes, whether the guest is off, guest time, interrupt
//! lines and the registers that show them, and the state of each hart.
//!
//! An act on it is what `board_table` says. All its memory is taken once; a byte that the guest puts costs one store,
//! `console` lends what is held, and `drain` moves the oldest bytes out.
#![tactic(auto)]

mod board;
mod openings;

pub use board::{Board, HartParts};
