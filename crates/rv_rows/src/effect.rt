// What an instruction does.

use crate::csr::CsrAccess;
use crate::exception::Exception;
use crate::memory::{LoadKind, Width};
use crate::register::Register;
use vm_types::AmoKind;

/// What an instruction does, before any memory or CSR is asked. Where nothing else is said, the next instruction is
/// the one behind it.
#[derive(Clone, Copy, Debug, Drop)]
pub enum Effect {
    /// rd gets the value.
    Put {
        rd: Register,
        value: u64,
    },
    /// rd gets `link`, the address behind the jump, and the next instruction is at the target.
    Jump {
        rd: Register,
        link: u64,
        target: u64,
    },
    /// A branch is taken: the next instruction is at the target.
    Branch {
        target: u64,
    },
    /// Nothing: a branch that isn't taken, or a fence.
    Nothing,
    /// rd gets what is loaded from this address.
    Load {
        kind: LoadKind,
        rd: Register,
        address: u64,
    },
    /// The value, of no more bits than the width has, is stored at this address.
    Store {
        width: Width,
        address: u64,
        value: u64,
    },
    /// rd gets what is loaded from this address, which the hart reserves.
    LoadReserved {
        wide: bool,
        rd: Register,
        address: u64,
    },
    /// Where the hart holds a reservation, the value, of 32 bits where it isn't wide, is stored at this address; rd
    /// gets 0 where it was stored, or else 1.
    StoreConditional {
        wide: bool,
        rd: Register,
        address: u64,
        value: u64,
    },
    /// rd gets what is loaded from this address, and what the operation makes of it and of the value, the whole
    /// register, is stored there.
    Amo {
        kind: AmoKind,
        wide: bool,
        rd: Register,
        address: u64,
        value: u64,
    },
    /// rd gets what the CSR held.
    Csr {
        rd: Register,
        csr: u32,
        access: CsrAccess,
    },
    /// It traps, and writes no register; `value` goes into stval.
    Trap {
        exception: Exception,
        value: u64,
    },
    Ecall,
    Sret,
    Wfi,
}
