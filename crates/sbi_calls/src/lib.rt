//! The calls of the supervisor binary interface, on the hart's side: RISC-V SBI 1.0, of which Base, TIME, IPI, RFENCE,
//! HSM, SRST and the legacy putchar are here.
//!
//! `sbi` says what an ECALL does: it ends at once, or it is one act on the board. `end_call` and `end_act` are what
//! becomes of the registers then. The table of `specs/Table.antt` says which calls there are, `specs/Calls.antt` what
//! each does, and `specs/Ends.antt` what it leaves. An ECALL never traps.
#![tactic(auto)]

mod ends;
mod law;
mod step;
mod table;

pub use ends::{end_act, end_call};
pub use law::sbi_asks;
pub use step::{SbiReturn, SbiStep, sbi};
pub use table::{SbiCall, call_of, is_extension};
