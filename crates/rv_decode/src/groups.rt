// The groups of instructions, one an opcode (unprivileged manual, chapter 24, "RISC-V base opcode map").
ghost use Rattle.std.specs.Prelude.{◌≡◌};
ghost use Rattle.rv_decode.specs.Functions.{opcode, funct3, atomic};
ghost use Rattle.rv_rows.specs.Table.{instr_of};

use crate::function_fields::{funct3, funct5, funct7};
use crate::functions::{
    alu_op, amo_kind, branch_condition, csr_imm_op, csr_op, immediate_op, is_wide, left_shift,
    left_word_shift, load_kind, muldiv_op, other_alu_op, other_word_op, right_shift,
    right_word_shift, store_width, word_muldiv_op, word_op,
};
use rv_rows::fields::bits;
use rv_rows::{AluOp, Instr, operands};

/// LUI, opcode 0x37.
#[tactic(auto, using(crate::proofs::Opcodes::upper_words))]
pub fn lui(word: u32) -> Option<Instr>
    requires { opcode word ≡ 0x37 }
    ensures { result ≡ instr_of word }
{
    Some(operands::lui(word))
}

/// AUIPC, opcode 0x17.
#[tactic(auto, using(crate::proofs::Opcodes::pc_words))]
pub fn auipc(word: u32) -> Option<Instr>
    requires { opcode word ≡ 0x17 }
    ensures { result ≡ instr_of word }
{
    Some(operands::auipc(word))
}

/// JAL, opcode 0x6f.
#[tactic(auto, using(crate::proofs::Opcodes::jumps))]
pub fn jal(word: u32) -> Option<Instr>
    requires { opcode word ≡ 0x6f }
    ensures { result ≡ instr_of word }
{
    Some(operands::jal(word))
}

/// LOAD, opcode 0x03.
#[tactic(auto, using(crate::proofs::Opcodes::loads))]
pub fn load(word: u32) -> Option<Instr>
    requires { opcode word ≡ 0x03 }
    ensures { result ≡ instr_of word }
{
    let kind = load_kind(word)?;
    Some(operands::load(kind, word))
}

/// MISC-MEM, opcode 0x0f: fences, whatever their fields.
#[tactic(auto, using(crate::proofs::Opcodes::fences))]
pub fn misc_mem(word: u32) -> Option<Instr>
    requires { opcode word ≡ 0x0f }
    ensures { result ≡ instr_of word }
{
    match funct3(word) {
        0 => Some(Instr::Fence),
        1 => Some(Instr::FenceI),
        _ => None,
    }
}

/// OP-IMM, opcode 0x13.
#[tactic(auto, using(crate::proofs::Opcodes::left_shifted, crate::proofs::Opcodes::right_shifted, crate::proofs::Opcodes::immediates))]
pub fn op_imm(word: u32) -> Option<Instr>
    requires { opcode word ≡ 0x13 }
    ensures { result ≡ instr_of word }
{
    match funct3(word) {
        1 => Some(operands::shift(left_shift(word)?, word)),
        5 => Some(operands::shift(right_shift(word)?, word)),
        _ => Some(operands::alu_immediate(immediate_op(word)?, word)),
    }
}

/// OP-IMM-32, opcode 0x1b.
#[tactic(auto, using(crate::proofs::Opcodes::word_immediates))]
pub fn op_imm_32(word: u32) -> Option<Instr>
    requires { opcode word ≡ 0x1b }
    ensures { result ≡ instr_of word }
{
    match funct3(word) {
        0 => Some(operands::alu_immediate(AluOp::Addw, word)),
        1 => Some(operands::word_shift(left_word_shift(word)?, word)),
        5 => Some(operands::word_shift(right_word_shift(word)?, word)),
        _ => None,
    }
}

/// STORE, opcode 0x23.
#[tactic(auto, using(crate::proofs::Opcodes::stores))]
pub fn store(word: u32) -> Option<Instr>
    requires { opcode word ≡ 0x23 }
    ensures { result ≡ instr_of word }
{
    let width = store_width(word)?;
    Some(operands::store(width, word))
}

/// AMO, of 8 bytes where it is wide, whatever aq and rl. LR wants rs2 to be 0.
fn atomic(wide: bool, word: u32) -> Option<Instr>
    ensures { result ≡ atomic wide word }
{
    match funct5(word) {
        2 => {
            if bits(word, 24, 20) == 0 {
                Some(operands::load_reserved(wide, word))
            } else {
                None
            }
        }
        3 => Some(operands::store_conditional(wide, word)),
        _ => Some(operands::amo(amo_kind(word)?, wide, word)),
    }
}

/// AMO, opcode 0x2f.
#[tactic(auto, using(crate::proofs::Opcodes::atomics))]
pub fn amo(word: u32) -> Option<Instr>
    requires { opcode word ≡ 0x2f }
    ensures { result ≡ instr_of word }
{
    let wide = is_wide(word)?;
    atomic(wide, word)
}

/// OP, opcode 0x33.
#[tactic(auto, using(crate::proofs::Opcodes::operations))]
pub fn op(word: u32) -> Option<Instr>
    requires { opcode word ≡ 0x33 }
    ensures { result ≡ instr_of word }
{
    match funct7(word) {
        0 => Some(operands::alu(alu_op(word)?, word)),
        1 => Some(operands::muldiv(muldiv_op(word)?, word)),
        0x20 => Some(operands::alu(other_alu_op(word)?, word)),
        _ => None,
    }
}

/// OP-32, opcode 0x3b.
#[tactic(auto, using(crate::proofs::Opcodes::word_operations))]
pub fn op_32(word: u32) -> Option<Instr>
    requires { opcode word ≡ 0x3b }
    ensures { result ≡ instr_of word }
{
    match funct7(word) {
        0 => Some(operands::alu(word_op(word)?, word)),
        1 => Some(operands::muldiv(word_muldiv_op(word)?, word)),
        0x20 => Some(operands::alu(other_word_op(word)?, word)),
        _ => None,
    }
}

/// BRANCH, opcode 0x63.
#[tactic(auto, using(crate::proofs::Opcodes::branches))]
pub fn branch(word: u32) -> Option<Instr>
    requires { opcode word ≡ 0x63 }
    ensures { result ≡ instr_of word }
{
    let condition = branch_condition(word)?;
    Some(operands::branch(condition, word))
}

/// JALR, opcode 0x67.
#[tactic(auto, using(crate::proofs::Opcodes::register_jumps))]
pub fn jalr(word: u32) -> Option<Instr>
    requires { opcode word ≡ 0x67 }
    ensures { result ≡ instr_of word }
{
    if funct3(word) == 0 {
        Some(operands::jalr(word))
    } else {
        None
    }
}

/// SYSTEM with funct3 0. SFENCE.VMA takes any rs1 and rs2.
#[tactic(auto, using(crate::proofs::Opcodes::plain_systems))]
fn privileged(word: u32) -> Option<Instr>
    requires opcode { opcode word ≡ 0x73 }
    requires funct3 { funct3 word ≡ 0 }
    ensures { result ≡ instr_of word }
{
    match word {
        0x0000_0073 => Some(Instr::Ecall),
        0x0010_0073 => Some(Instr::Ebreak),
        0x1020_0073 => Some(Instr::Sret),
        0x1050_0073 => Some(Instr::Wfi),
        _ => {
            if word & 0xfe00_7fff == 0x1200_0073 {
                Some(Instr::SfenceVma)
            } else {
                None
            }
        }
    }
}

/// SYSTEM, opcode 0x73. Where funct3 is 4 or above, the source of a CSR instruction is an immediate.
#[tactic(auto, using(crate::proofs::Opcodes::csr_registers, crate::proofs::Opcodes::csr_numbers))]
pub fn system(word: u32) -> Option<Instr>
    requires { opcode word ≡ 0x73 }
    ensures { result ≡ instr_of word }
{
    let number = funct3(word);
    if number == 0 {
        privileged(word)
    } else if number < 4 {
        Some(operands::csr_register(csr_op(word)?, word))
    } else {
        Some(operands::csr_immediate(csr_imm_op(word)?, word))
    }
}
