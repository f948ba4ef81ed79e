// The opcodes.
ghost use Rattle.std.specs.Prelude.{◌≡◌};
ghost use Rattle.rv_rows.specs.Table.{instr_of};

use crate::function_fields::opcode;
use crate::groups::{
    amo, auipc, branch, jal, jalr, load, lui, misc_mem, op, op_32, op_imm, op_imm_32, store, system,
};
use rv_rows::Instr;

/// What this word is, or `None` where it is an illegal instruction.
#[tactic(auto, using(crate::proofs::Opcodes::other_opcodes))]
pub fn decode(word: u32) -> Option<Instr>
    ensures { result ≡ instr_of word }
{
    match opcode(word) {
        0x03 => load(word),
        0x0f => misc_mem(word),
        0x13 => op_imm(word),
        0x17 => auipc(word),
        0x1b => op_imm_32(word),
        0x23 => store(word),
        0x2f => amo(word),
        0x33 => op(word),
        0x37 => lui(word),
        0x3b => op_32(word),
        0x63 => branch(word),
        0x67 => jalr(word),
        0x6f => jal(word),
        0x73 => system(word),
        _ => None,
    }
}
