// Instructions with the operands that a word has for them.
ghost use Rattle.std.specs.Prelude.{◌≡◌};
ghost use Rattle.rv_rows.specs.declared.instr.Instr.TheVariants.{Lui, Auipc, Jal, Jalr, Branch, Load, Store, AluImm, Alu, MulDiv, StoreConditional, Amo};
ghost use Rattle.rv_rows.specs.Table.{r_type, i_type, s_type, b_type, u_type, j_type, shift, word_shift, lr_type, csr_type, csr_imm_type};

use crate::alu::{AluOp, MulDivOp};
use crate::branch::Condition;
use crate::csr::CsrOp;
use crate::fields;
use crate::fields::{
    b_immediate, csr, i_immediate, j_immediate, rd, rs1, rs2, s_immediate, shift_amount,
    u_immediate, word_shift_amount,
};
use crate::instr::Instr;
use crate::memory::{LoadKind, Width};
use vm_types::AmoKind;

/// LUI.
#[inline]
pub fn lui(word: u32) -> Instr
    ensures { result ≡ u_type Lui word }
{
    Instr::Lui {
        rd: rd(word),
        value: u_immediate(word),
    }
}

/// AUIPC.
#[inline]
pub fn auipc(word: u32) -> Instr
    ensures { result ≡ u_type Auipc word }
{
    Instr::Auipc {
        rd: rd(word),
        offset: u_immediate(word),
    }
}

/// JAL.
#[inline]
pub fn jal(word: u32) -> Instr
    ensures { result ≡ j_type Jal word }
{
    Instr::Jal {
        rd: rd(word),
        offset: j_immediate(word),
    }
}

/// JALR.
#[inline]
pub fn jalr(word: u32) -> Instr
    ensures { result ≡ i_type Jalr word }
{
    Instr::Jalr {
        rd: rd(word),
        rs1: rs1(word),
        offset: i_immediate(word),
    }
}

/// A conditional branch.
#[inline]
pub fn branch(condition: Condition, word: u32) -> Instr
    ensures { result ≡ b_type (Branch condition) word }
{
    Instr::Branch {
        condition,
        rs1: rs1(word),
        rs2: rs2(word),
        offset: b_immediate(word),
    }
}

/// A load.
#[inline]
pub fn load(kind: LoadKind, word: u32) -> Instr
    ensures { result ≡ i_type (Load kind) word }
{
    Instr::Load {
        kind,
        rd: rd(word),
        rs1: rs1(word),
        offset: i_immediate(word),
    }
}

/// A store.
#[inline]
pub fn store(width: Width, word: u32) -> Instr
    ensures { result ≡ s_type (Store width) word }
{
    Instr::Store {
        width,
        rs1: rs1(word),
        rs2: rs2(word),
        offset: s_immediate(word),
    }
}

/// An operation with an immediate of the I-type.
#[inline]
pub fn alu_immediate(op: AluOp, word: u32) -> Instr
    ensures { result ≡ i_type (AluImm op) word }
{
    Instr::AluImm {
        op,
        rd: rd(word),
        rs1: rs1(word),
        value: i_immediate(word),
    }
}

/// A shift by an immediate of 6 bits.
#[inline]
pub fn shift(op: AluOp, word: u32) -> Instr
    ensures { result ≡ shift (AluImm op) word }
{
    Instr::AluImm {
        op,
        rd: rd(word),
        rs1: rs1(word),
        value: shift_amount(word),
    }
}

/// A shift by an immediate of 5 bits.
#[inline]
pub fn word_shift(op: AluOp, word: u32) -> Instr
    ensures { result ≡ word_shift (AluImm op) word }
{
    Instr::AluImm {
        op,
        rd: rd(word),
        rs1: rs1(word),
        value: word_shift_amount(word),
    }
}

/// An operation on two registers.
#[inline]
pub fn alu(op: AluOp, word: u32) -> Instr
    ensures { result ≡ r_type (Alu op) word }
{
    Instr::Alu {
        op,
        rd: rd(word),
        rs1: rs1(word),
        rs2: rs2(word),
    }
}

/// An operation of the extension M.
#[inline]
pub fn muldiv(op: MulDivOp, word: u32) -> Instr
    ensures { result ≡ r_type (MulDiv op) word }
{
    Instr::MulDiv {
        op,
        rd: rd(word),
        rs1: rs1(word),
        rs2: rs2(word),
    }
}

/// LR, of 8 bytes where it is wide.
#[inline]
pub fn load_reserved(wide: bool, word: u32) -> Instr
    ensures { result ≡ lr_type wide word }
{
    Instr::LoadReserved {
        wide,
        rd: rd(word),
        rs1: rs1(word),
    }
}

/// SC, of 8 bytes where it is wide.
#[inline]
pub fn store_conditional(wide: bool, word: u32) -> Instr
    ensures { result ≡ r_type (StoreConditional wide) word }
{
    Instr::StoreConditional {
        wide,
        rd: rd(word),
        rs1: rs1(word),
        rs2: rs2(word),
    }
}

/// An atomic memory operation, of 8 bytes where it is wide.
#[inline]
pub fn amo(kind: AmoKind, wide: bool, word: u32) -> Instr
    ensures { result ≡ r_type (Amo kind wide) word }
{
    Instr::Amo {
        kind,
        wide,
        rd: rd(word),
        rs1: rs1(word),
        rs2: rs2(word),
    }
}

/// A CSR instruction whose source is a register.
#[inline]
pub fn csr_register(op: CsrOp, word: u32) -> Instr
    ensures { result ≡ csr_type op word }
{
    Instr::Csr {
        op,
        rd: rd(word),
        csr: csr(word),
        rs1: rs1(word),
    }
}

/// A CSR instruction whose source is an immediate.
#[inline]
pub fn csr_immediate(op: CsrOp, word: u32) -> Instr
    ensures { result ≡ csr_imm_type op word }
{
    Instr::CsrImm {
        op,
        rd: rd(word),
        csr: csr(word),
        value: fields::csr_immediate(word),
    }
}
