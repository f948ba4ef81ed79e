//! Words of instructions that are decoded once, for a hart that comes to them again.
//!
//! `Decoded::of` says what a word does as one `Operation` with its registers and its number, so that whoever does it chooses once;
//! by `specs/Decoded.antt` it is the instruction that the table of `rv_rows` says. `DecodedWords` keeps 512 of them by the
//! addresses that their words were fetched from. It is asked with the word that was fetched: one that has changed since isn't
//! found. `branch` and the others do what computes, jumps or branches.
#![tactic(auto)]

mod decoding;
mod doing;
mod operation;
mod words;

pub use decoding::Decoded;
pub use doing::{
    branch, by_immediate, by_registers, constant, jump_by_register, jump_near, multiplied,
    put_into_rd, upper, upper_of_pc, value_of_rs1, word_multiplied,
};
pub use operation::Operation;
pub use words::DecodedWords;
