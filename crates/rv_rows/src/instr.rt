// What a word says.
ghost use Rattle.std.specs.Prelude.{◌≡◌};
ghost use Rattle.rv_rows.specs.Sources.{rs1_of, rs2_of};

use crate::alu::{AluOp, MulDivOp};
use crate::branch::Condition;
use crate::csr::CsrOp;
use crate::memory::{LoadKind, Width};
use crate::register::Register;
use vm_types::AmoKind;

/// An instruction. Immediates and offsets are sign-extended to 64 bits.
#[derive(Clone, Copy, Debug, Drop)]
pub enum Instr {
    Lui {
        rd: Register,
        value: u64,
    },
    Auipc {
        rd: Register,
        offset: u64,
    },
    Jal {
        rd: Register,
        offset: u64,
    },
    Jalr {
        rd: Register,
        rs1: Register,
        offset: u64,
    },
    Branch {
        condition: Condition,
        rs1: Register,
        rs2: Register,
        offset: u64,
    },
    Load {
        kind: LoadKind,
        rd: Register,
        rs1: Register,
        offset: u64,
    },
    Store {
        width: Width,
        rs1: Register,
        rs2: Register,
        offset: u64,
    },
    /// The second operand is an immediate; at a shift it is the amount, below 64, and below 32 in the word forms.
    AluImm {
        op: AluOp,
        rd: Register,
        rs1: Register,
        value: u64,
    },
    Alu {
        op: AluOp,
        rd: Register,
        rs1: Register,
        rs2: Register,
    },
    MulDiv {
        op: MulDivOp,
        rd: Register,
        rs1: Register,
        rs2: Register,
    },
    LoadReserved {
        wide: bool,
        rd: Register,
        rs1: Register,
    },
    StoreConditional {
        wide: bool,
        rd: Register,
        rs1: Register,
        rs2: Register,
    },
    Amo {
        kind: AmoKind,
        wide: bool,
        rd: Register,
        rs1: Register,
        rs2: Register,
    },
    Fence,
    FenceI,
    Ecall,
    Ebreak,
    Sret,
    Wfi,
    SfenceVma,
    /// `csr` is below 2^12.
    Csr {
        op: CsrOp,
        rd: Register,
        csr: u32,
        rs1: Register,
    },
    /// `csr` is below 2^12, and `value` below 32.
    CsrImm {
        op: CsrOp,
        rd: Register,
        csr: u32,
        value: u64,
    },
}

impl Instr {
    /// The first register that it reads, or x0 where it reads none.
    pub fn rs1(self) -> Register
        ensures { result ≡ rs1_of self }
    {
        match self {
            Instr::Jalr { rs1, .. } => rs1,
            Instr::Branch { rs1, .. } => rs1,
            Instr::Load { rs1, .. } => rs1,
            Instr::Store { rs1, .. } => rs1,
            Instr::AluImm { rs1, .. } => rs1,
            Instr::Alu { rs1, .. } => rs1,
            Instr::MulDiv { rs1, .. } => rs1,
            Instr::LoadReserved { rs1, .. } => rs1,
            Instr::StoreConditional { rs1, .. } => rs1,
            Instr::Amo { rs1, .. } => rs1,
            Instr::Csr { rs1, .. } => rs1,
            _ => Register::X0,
        }
    }

    /// The second register that it reads, or x0 where it reads none.
    pub fn rs2(self) -> Register
        ensures { result ≡ rs2_of self }
    {
        match self {
            Instr::Branch { rs2, .. } => rs2,
            Instr::Store { rs2, .. } => rs2,
            Instr::Alu { rs2, .. } => rs2,
            Instr::MulDiv { rs2, .. } => rs2,
            Instr::StoreConditional { rs2, .. } => rs2,
            Instr::Amo { rs2, .. } => rs2,
            _ => Register::X0,
        }
    }
}
