//! What the instructions of RV64IMA with Zicsr compute of numbers, and what each does before any memory or CSR is asked.
//!
//! Each function of numbers is one formula of `rv_rows`, and its contract is one equation with it: the operations of the
//! base and of extension M, the conditions of branches, and what a load puts into its register.
//!
//! `effect` takes the instruction, its address and the values of the two registers that it reads, and gives what
//! `rv_rows/specs/Effects.antt` gives: a value for a register, a jump, an access that is aligned, what a CSR
//! instruction asks for, or a trap. `low_bytes` are a number's bytes of a width, and `even` the target of a JALR.
#![tactic(auto)]

mod accesses;
mod base;
mod branches;
mod csr;
mod effects;
mod extension_m;
mod jumps;
mod loads;

pub use accesses::low_bytes;
pub use base::alu;
pub use branches::is_taken;
pub use effects::effect;
pub use extension_m::muldiv;
pub use jumps::even;
pub use loads::{atomic_load_value, load_value};
