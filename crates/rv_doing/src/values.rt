// What a word that computes puts into its register. The operands come first, so that the function fields choose the
// operation in one step.
ghost use Rattle.std.specs.Prelude.{◌≡◌, IfSome};
ghost use Rattle.rv_decode.specs.Functions.{opcode};
ghost use Rattle.rv_doing.specs.Values.{PutsOf, PutsOfBoth};

use rv_alu::{alu, muldiv};
use rv_decode::function_fields::{funct3, funct7};
use rv_decode::operations;
use rv_rows::fields::{i_immediate, shift_amount, word_shift_amount};

/// OP-IMM, by the value of rs1. `None` where the word is illegal.
#[inline(always)]
#[tactic(auto, unfolding(crate::specs::Does::does))]
pub fn of_immediate(word: u32, a: u64) -> Option<u64>
    requires { opcode word ≡ 0x13 }
    ensures { IfSome result (λ value. PutsOf word a value) }
{
    let b = i_immediate(word);
    match funct3(word) {
        1 => match operations::left_shift(word) {
            Some(op) => Some(alu(op, a, shift_amount(word))),
            None => None,
        },
        5 => match operations::right_shift(word) {
            Some(op) => Some(alu(op, a, shift_amount(word))),
            None => None,
        },
        _ => match operations::immediate(word) {
            Some(op) => Some(alu(op, a, b)),
            None => None,
        },
    }
}

/// OP-IMM-32, by the value of rs1. `None` where the word is illegal.
#[inline(always)]
#[tactic(auto, unfolding(crate::specs::Does::does))]
pub fn of_word_immediate(word: u32, a: u64) -> Option<u64>
    requires { opcode word ≡ 0x1b }
    ensures { IfSome result (λ value. PutsOf word a value) }
{
    match funct3(word) {
        0 => Some(alu(operations::word_immediate(word), a, i_immediate(word))),
        1 => match operations::left_word_shift(word) {
            Some(op) => Some(alu(op, a, word_shift_amount(word))),
            None => None,
        },
        5 => match operations::right_word_shift(word) {
            Some(op) => Some(alu(op, a, word_shift_amount(word))),
            None => None,
        },
        _ => None,
    }
}

/// OP, by the values of rs1 and rs2. `None` where the word is illegal.
#[inline(always)]
#[tactic(auto, unfolding(crate::specs::Does::does))]
pub fn of_operation(word: u32, a: u64, b: u64) -> Option<u64>
    requires { opcode word ≡ 0x33 }
    ensures { IfSome result (λ value. PutsOfBoth word a b value) }
{
    match funct7(word) {
        0 => match operations::operation(word) {
            Some(op) => Some(alu(op, a, b)),
            None => None,
        },
        0x20 => match operations::other_operation(word) {
            Some(op) => Some(alu(op, a, b)),
            None => None,
        },
        1 => match operations::muldiv(word) {
            Some(op) => Some(muldiv(op, a, b)),
            None => None,
        },
        _ => None,
    }
}

/// OP-32, by the values of rs1 and rs2. `None` where the word is illegal.
#[inline(always)]
#[tactic(auto, unfolding(crate::specs::Does::does))]
pub fn of_word_operation(word: u32, a: u64, b: u64) -> Option<u64>
    requires { opcode word ≡ 0x3b }
    ensures { IfSome result (λ value. PutsOfBoth word a b value) }
{
    match funct7(word) {
        0 => match operations::word_operation(word) {
            Some(op) => Some(alu(op, a, b)),
            None => None,
        },
        0x20 => match operations::other_word_operation(word) {
            Some(op) => Some(alu(op, a, b)),
            None => None,
        },
        1 => match operations::word_muldiv(word) {
            Some(op) => Some(muldiv(op, a, b)),
            None => None,
        },
        _ => None,
    }
}
