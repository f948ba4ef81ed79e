// The operation of a word that computes, without its operands, which stand where the form of its group has them: of one
// choice by the function fields, for whoever reads the operands first.
ghost use Rattle.std.specs.Prelude.{◌≡◌, MatchOption, None, Some};
ghost use Rattle.rv_decode.specs.Functions.{funct3, funct7, opcode};
ghost use Rattle.rv_rows.specs.Table.{b_type, i_type, instr_of, r_type, s_type, shift, word_shift};
ghost use Rattle.rv_rows.specs.declared.instr.Instr.TheVariants.{Alu, AluImm, Branch, Load, MulDiv, Store};

use crate::functions;
use rv_rows::{AluOp, Condition, LoadKind, MulDivOp, Width};

/// LOAD, opcode 0x03.
#[tactic(auto, using(crate::proofs::Opcodes::loads))]
pub fn load_kind(word: u32) -> Option<LoadKind>
    requires { opcode word ≡ 0x03 }
    ensures { MatchOption result (instr_of word ≡ None) (λ kind. instr_of word ≡ Some (i_type (Load kind) word)) }
{
    functions::load_kind(word)
}

/// STORE, opcode 0x23.
#[tactic(auto, using(crate::proofs::Opcodes::stores))]
pub fn store_width(word: u32) -> Option<Width>
    requires { opcode word ≡ 0x23 }
    ensures { MatchOption result (instr_of word ≡ None) (λ width. instr_of word ≡ Some (s_type (Store width) word)) }
{
    functions::store_width(word)
}

/// BRANCH, opcode 0x63.
#[tactic(auto, using(crate::proofs::Opcodes::branches))]
pub fn branch_condition(word: u32) -> Option<Condition>
    requires { opcode word ≡ 0x63 }
    ensures { MatchOption result (instr_of word ≡ None) (λ condition. instr_of word ≡ Some (b_type (Branch condition) word)) }
{
    functions::branch_condition(word)
}

/// OP-IMM, opcode 0x13, where it is no shift.
#[tactic(auto, using(crate::proofs::Opcodes::immediates))]
pub fn immediate(word: u32) -> Option<AluOp>
    requires opcode { opcode word ≡ 0x13 }
    requires not_left { funct3 word ≡ 1 → ⊥ }
    requires not_right { funct3 word ≡ 5 → ⊥ }
    ensures { MatchOption result (instr_of word ≡ None) (λ op. instr_of word ≡ Some (i_type (AluImm op) word)) }
{
    functions::immediate_op(word)
}

/// OP-IMM with funct3 1.
#[tactic(auto, using(crate::proofs::Opcodes::left_shifted))]
pub fn left_shift(word: u32) -> Option<AluOp>
    requires opcode { opcode word ≡ 0x13 }
    requires left { funct3 word ≡ 1 }
    ensures { MatchOption result (instr_of word ≡ None) (λ op. instr_of word ≡ Some (shift (AluImm op) word)) }
{
    functions::left_shift(word)
}

/// OP-IMM with funct3 5.
#[tactic(auto, using(crate::proofs::Opcodes::right_shifted))]
pub fn right_shift(word: u32) -> Option<AluOp>
    requires opcode { opcode word ≡ 0x13 }
    requires right { funct3 word ≡ 5 }
    ensures { MatchOption result (instr_of word ≡ None) (λ op. instr_of word ≡ Some (shift (AluImm op) word)) }
{
    functions::right_shift(word)
}

/// OP-IMM-32, opcode 0x1b, with funct3 0.
#[tactic(auto, using(crate::proofs::Opcodes::word_immediates))]
pub fn word_immediate(word: u32) -> AluOp
    requires opcode { opcode word ≡ 0x1b }
    requires sum { funct3 word ≡ 0 }
    ensures { instr_of word ≡ Some (i_type (AluImm result) word) }
{
    AluOp::Addw
}

/// OP-IMM-32 with funct3 1.
#[tactic(auto, using(crate::proofs::Opcodes::word_immediates))]
pub fn left_word_shift(word: u32) -> Option<AluOp>
    requires opcode { opcode word ≡ 0x1b }
    requires left { funct3 word ≡ 1 }
    ensures { MatchOption result (instr_of word ≡ None) (λ op. instr_of word ≡ Some (word_shift (AluImm op) word)) }
{
    functions::left_word_shift(word)
}

/// OP-IMM-32 with funct3 5.
#[tactic(auto, using(crate::proofs::Opcodes::word_immediates))]
pub fn right_word_shift(word: u32) -> Option<AluOp>
    requires opcode { opcode word ≡ 0x1b }
    requires right { funct3 word ≡ 5 }
    ensures { MatchOption result (instr_of word ≡ None) (λ op. instr_of word ≡ Some (word_shift (AluImm op) word)) }
{
    functions::right_word_shift(word)
}

/// OP, opcode 0x33, with funct7 0.
#[tactic(auto, using(crate::proofs::Opcodes::operations))]
pub fn operation(word: u32) -> Option<AluOp>
    requires opcode { opcode word ≡ 0x33 }
    requires plain { funct7 word ≡ 0 }
    ensures { MatchOption result (instr_of word ≡ None) (λ op. instr_of word ≡ Some (r_type (Alu op) word)) }
{
    functions::alu_op(word)
}

/// OP with funct7 0x20.
#[tactic(auto, using(crate::proofs::Opcodes::operations))]
pub fn other_operation(word: u32) -> Option<AluOp>
    requires opcode { opcode word ≡ 0x33 }
    requires other { funct7 word ≡ 32 }
    ensures { MatchOption result (instr_of word ≡ None) (λ op. instr_of word ≡ Some (r_type (Alu op) word)) }
{
    functions::other_alu_op(word)
}

/// OP with funct7 1.
#[tactic(auto, using(crate::proofs::Opcodes::operations))]
pub fn muldiv(word: u32) -> Option<MulDivOp>
    requires opcode { opcode word ≡ 0x33 }
    requires muldiv { funct7 word ≡ 1 }
    ensures { MatchOption result (instr_of word ≡ None) (λ op. instr_of word ≡ Some (r_type (MulDiv op) word)) }
{
    functions::muldiv_op(word)
}

/// OP-32, opcode 0x3b, with funct7 0.
#[tactic(auto, using(crate::proofs::Opcodes::word_operations))]
pub fn word_operation(word: u32) -> Option<AluOp>
    requires opcode { opcode word ≡ 0x3b }
    requires plain { funct7 word ≡ 0 }
    ensures { MatchOption result (instr_of word ≡ None) (λ op. instr_of word ≡ Some (r_type (Alu op) word)) }
{
    functions::word_op(word)
}

/// OP-32 with funct7 0x20.
#[tactic(auto, using(crate::proofs::Opcodes::word_operations))]
pub fn other_word_operation(word: u32) -> Option<AluOp>
    requires opcode { opcode word ≡ 0x3b }
    requires other { funct7 word ≡ 32 }
    ensures { MatchOption result (instr_of word ≡ None) (λ op. instr_of word ≡ Some (r_type (Alu op) word)) }
{
    functions::other_word_op(word)
}

/// OP-32 with funct7 1.
#[tactic(auto, using(crate::proofs::Opcodes::word_operations))]
pub fn word_muldiv(word: u32) -> Option<MulDivOp>
    requires opcode { opcode word ≡ 0x3b }
    requires muldiv { funct7 word ≡ 1 }
    ensures { MatchOption result (instr_of word ≡ None) (λ op. instr_of word ≡ Some (r_type (MulDiv op) word)) }
{
    functions::word_muldiv_op(word)
}
