//! The instructions of RV64IMA with Zicsr: the table that says what each word is, and what each instruction does.
//!
//! The definitions stand in `specs/`: `Table` has one row an instruction, as the manual's listing; `Effects` says
//! what an instruction does, given its own address and the values of its two registers; `Alu`, `MulDiv`, `Amo`,
//! `Branches` and `Loads` are the formulas. This crate's program is the plain one: `instr_of` goes through the
//! table row by row, and is proved to give what `specs/Table.antt` gives. `fields` and `operands` read a word's
//! fields, and `numbers` extends signs, for every crate above.
//!
//! The manuals are the RISC-V unprivileged manual, 20191213, and the privileged manual, 20211203.
#![tactic(auto)]

mod alu;
mod branch;
mod csr;
mod effect;
mod exception;
pub mod fields;
mod form;
mod instr;
mod memory;
mod names;
pub mod numbers;
pub mod operands;
mod register;
mod table;

pub use alu::{AluOp, MulDivOp};
pub use branch::Condition;
pub use csr::{CsrAccess, CsrOp};
pub use effect::Effect;
pub use exception::Exception;
pub use instr::Instr;
pub use memory::{LoadKind, Width};
pub use register::Register;
pub use table::instr_of;
pub use vm_types::AmoKind;
