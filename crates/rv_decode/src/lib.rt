//! A fast decoder of RV64IMA with Zicsr.
//!
//! `decode` says what a word is, as the table of `rv_rows` does row by row: both give the same on each of the 2^32
//! words. It goes by the opcode, then by funct3, and then by funct7, funct6 or funct5 where the group has one
//! (unprivileged manual, 2.2 and chapter 24). `groups` has the words of one opcode each, for whoever has the opcode,
//! and `operations` what is computed by those that compute.
#![tactic(auto)]

mod dispatch;
pub mod function_fields;
mod functions;
pub mod groups;
pub mod operations;

pub use dispatch::decode;
pub use rv_rows::{AluOp, AmoKind, Condition, CsrOp, Instr, LoadKind, MulDivOp, Register, Width};
