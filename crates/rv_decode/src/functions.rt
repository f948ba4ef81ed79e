// What the function fields of a word choose in each group.
ghost use Rattle.std.specs.Prelude.{◌≡◌};
ghost use Rattle.rv_decode.specs.Functions.{funct3, funct5, funct6, funct7, choice, load_kinds, store_widths, branch_conditions, immediate_ops, left_shifts, right_shifts, left_word_shifts, right_word_shifts, alu_ops, other_alu_ops, muldiv_ops, word_ops, other_word_ops, word_muldiv_ops, atomic_widths, amo_kinds, csr_ops, csr_imm_ops};

use crate::function_fields::{funct3, funct5, funct6, funct7};
use rv_rows::{AluOp, AmoKind, Condition, CsrOp, LoadKind, MulDivOp, Width};

/// LOAD by funct3.
pub fn load_kind(word: u32) -> Option<LoadKind>
    ensures { result ≡ choice load_kinds (funct3 word) }
{
    match funct3(word) {
        0 => Some(LoadKind::Byte),
        1 => Some(LoadKind::Half),
        2 => Some(LoadKind::Word),
        3 => Some(LoadKind::Double),
        4 => Some(LoadKind::ByteUnsigned),
        5 => Some(LoadKind::HalfUnsigned),
        6 => Some(LoadKind::WordUnsigned),
        _ => None,
    }
}

/// STORE by funct3.
pub fn store_width(word: u32) -> Option<Width>
    ensures { result ≡ choice store_widths (funct3 word) }
{
    match funct3(word) {
        0 => Some(Width::Byte),
        1 => Some(Width::Half),
        2 => Some(Width::Word),
        3 => Some(Width::Double),
        _ => None,
    }
}

/// BRANCH by funct3.
pub fn branch_condition(word: u32) -> Option<Condition>
    ensures { result ≡ choice branch_conditions (funct3 word) }
{
    match funct3(word) {
        0 => Some(Condition::Eq),
        1 => Some(Condition::Ne),
        4 => Some(Condition::Lt),
        5 => Some(Condition::Ge),
        6 => Some(Condition::Ltu),
        7 => Some(Condition::Geu),
        _ => None,
    }
}

/// OP-IMM by funct3, where it is no shift.
pub fn immediate_op(word: u32) -> Option<AluOp>
    ensures { result ≡ choice immediate_ops (funct3 word) }
{
    match funct3(word) {
        0 => Some(AluOp::Add),
        2 => Some(AluOp::Slt),
        3 => Some(AluOp::Sltu),
        4 => Some(AluOp::Xor),
        6 => Some(AluOp::Or),
        7 => Some(AluOp::And),
        _ => None,
    }
}

/// OP-IMM with funct3 1, by funct6.
pub fn left_shift(word: u32) -> Option<AluOp>
    ensures { result ≡ choice left_shifts (funct6 word) }
{
    match funct6(word) {
        0 => Some(AluOp::Sll),
        _ => None,
    }
}

/// OP-IMM with funct3 5, by funct6.
pub fn right_shift(word: u32) -> Option<AluOp>
    ensures { result ≡ choice right_shifts (funct6 word) }
{
    match funct6(word) {
        0 => Some(AluOp::Srl),
        0x10 => Some(AluOp::Sra),
        _ => None,
    }
}

/// OP-IMM-32 with funct3 1, by funct7.
pub fn left_word_shift(word: u32) -> Option<AluOp>
    ensures { result ≡ choice left_word_shifts (funct7 word) }
{
    match funct7(word) {
        0 => Some(AluOp::Sllw),
        _ => None,
    }
}

/// OP-IMM-32 with funct3 5, by funct7.
pub fn right_word_shift(word: u32) -> Option<AluOp>
    ensures { result ≡ choice right_word_shifts (funct7 word) }
{
    match funct7(word) {
        0 => Some(AluOp::Srlw),
        0x20 => Some(AluOp::Sraw),
        _ => None,
    }
}

/// OP with funct7 0, by funct3.
pub fn alu_op(word: u32) -> Option<AluOp>
    ensures { result ≡ choice alu_ops (funct3 word) }
{
    match funct3(word) {
        0 => Some(AluOp::Add),
        1 => Some(AluOp::Sll),
        2 => Some(AluOp::Slt),
        3 => Some(AluOp::Sltu),
        4 => Some(AluOp::Xor),
        5 => Some(AluOp::Srl),
        6 => Some(AluOp::Or),
        7 => Some(AluOp::And),
        _ => None,
    }
}

/// OP with funct7 0x20, by funct3.
pub fn other_alu_op(word: u32) -> Option<AluOp>
    ensures { result ≡ choice other_alu_ops (funct3 word) }
{
    match funct3(word) {
        0 => Some(AluOp::Sub),
        5 => Some(AluOp::Sra),
        _ => None,
    }
}

/// OP with funct7 1, by funct3.
pub fn muldiv_op(word: u32) -> Option<MulDivOp>
    ensures { result ≡ choice muldiv_ops (funct3 word) }
{
    match funct3(word) {
        0 => Some(MulDivOp::Mul),
        1 => Some(MulDivOp::Mulh),
        2 => Some(MulDivOp::Mulhsu),
        3 => Some(MulDivOp::Mulhu),
        4 => Some(MulDivOp::Div),
        5 => Some(MulDivOp::Divu),
        6 => Some(MulDivOp::Rem),
        7 => Some(MulDivOp::Remu),
        _ => None,
    }
}

/// OP-32 with funct7 0, by funct3.
pub fn word_op(word: u32) -> Option<AluOp>
    ensures { result ≡ choice word_ops (funct3 word) }
{
    match funct3(word) {
        0 => Some(AluOp::Addw),
        1 => Some(AluOp::Sllw),
        5 => Some(AluOp::Srlw),
        _ => None,
    }
}

/// OP-32 with funct7 0x20, by funct3.
pub fn other_word_op(word: u32) -> Option<AluOp>
    ensures { result ≡ choice other_word_ops (funct3 word) }
{
    match funct3(word) {
        0 => Some(AluOp::Subw),
        5 => Some(AluOp::Sraw),
        _ => None,
    }
}

/// OP-32 with funct7 1, by funct3.
pub fn word_muldiv_op(word: u32) -> Option<MulDivOp>
    ensures { result ≡ choice word_muldiv_ops (funct3 word) }
{
    match funct3(word) {
        0 => Some(MulDivOp::Mulw),
        4 => Some(MulDivOp::Divw),
        5 => Some(MulDivOp::Divuw),
        6 => Some(MulDivOp::Remw),
        7 => Some(MulDivOp::Remuw),
        _ => None,
    }
}

/// AMO by funct3: whether it is of 8 bytes, else of 4.
pub fn is_wide(word: u32) -> Option<bool>
    ensures { result ≡ choice atomic_widths (funct3 word) }
{
    match funct3(word) {
        2 => Some(false),
        3 => Some(true),
        _ => None,
    }
}

/// AMO by funct5, where it is neither LR nor SC.
pub fn amo_kind(word: u32) -> Option<AmoKind>
    ensures { result ≡ choice amo_kinds (funct5 word) }
{
    match funct5(word) {
        0 => Some(AmoKind::Add),
        1 => Some(AmoKind::Swap),
        4 => Some(AmoKind::Xor),
        8 => Some(AmoKind::Or),
        0xc => Some(AmoKind::And),
        0x10 => Some(AmoKind::Min),
        0x14 => Some(AmoKind::Max),
        0x18 => Some(AmoKind::MinUnsigned),
        0x1c => Some(AmoKind::MaxUnsigned),
        _ => None,
    }
}

/// SYSTEM by funct3, where the source is a register.
pub fn csr_op(word: u32) -> Option<CsrOp>
    ensures { result ≡ choice csr_ops (funct3 word) }
{
    match funct3(word) {
        1 => Some(CsrOp::Write),
        2 => Some(CsrOp::Set),
        3 => Some(CsrOp::Clear),
        _ => None,
    }
}

/// SYSTEM by funct3, where the source is an immediate.
pub fn csr_imm_op(word: u32) -> Option<CsrOp>
    ensures { result ≡ choice csr_imm_ops (funct3 word) }
{
    match funct3(word) {
        5 => Some(CsrOp::Write),
        6 => Some(CsrOp::Set),
        7 => Some(CsrOp::Clear),
        _ => None,
    }
}
