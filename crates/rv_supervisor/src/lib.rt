//! A hart in supervisor mode: its registers, its control and status registers, and how an instruction ends.
//!
//! `Regs` is a hart between two instructions, and `start_regs` one that begins. `csr_of` names the CSR of a number,
//! `csr_value` is what a read of one sees and `write_csr` what a write keeps; all others are illegal. Every function
//! is one equation with `specs/`.
#![tactic(auto)]

mod csr;
mod ends;
mod integers;
mod regs;

pub use csr::{
    Csr, HartCsr, INTERRUPTS, access_csr, csr_of, csr_value, is_read, software_cleared,
    software_set, write_csr,
};
pub use ends::{finish, jump, return_from_trap, trap, wait};
pub use integers::Integers;
pub use regs::{A0, A1, Regs, Turn, start_regs};
