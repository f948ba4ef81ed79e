// A word that is decoded.
ghost use Rattle.std.specs.Prelude.{◌≡◌};
ghost use Rattle.decoded_words.specs.Decoded.{IsDecoded};
ghost use Rattle.decoded_words.specs.Operations.{IsThat, instr_named};

use crate::operation::Operation;
use rv_decode::decode;
use rv_rows::{AluOp, Instr, Register};

/// A word, its operation, and what the operation takes of it.
#[derive(Clone, Copy, Drop)]
pub struct Decoded {
    /// An immediate or an offset, its sign extended to 64 bits, or the amount of a shift.
    pub value: u64,
    pub word: u32,
    pub operation: Operation,
    /// The destination, which is never x0; of an operation that has none, or of a jump, any other register.
    pub rd: Register,
    /// The first source, which is never x0; of an operation that has none, any other register.
    pub rs1: Register,
    /// The second source, or the destination of a jump. It may be x0.
    pub other: Register,
}

// The word of an instruction that isn't frequent.
fn rare(word: u32) -> Decoded
    ensures is { IsDecoded result }
    ensures word { result.word ≡ word }
{
    Decoded {
        value: 0,
        word,
        operation: Operation::Rare,
        rd: Register::X1,
        rs1: Register::X1,
        other: Register::X0,
    }
}

// The word of this operation. Where rd or rs1 is x0 it isn't frequent.
fn frequent(
    word: u32,
    operation: Operation,
    rd: Register,
    rs1: Register,
    other: Register,
    value: u64,
) -> Decoded
    requires { IsThat (instr_named operation rd rs1 other value) word }
    ensures is { IsDecoded result }
    ensures word { result.word ≡ word }
{
    if rd.number() == 0 || rs1.number() == 0 {
        return rare(word);
    }
    Decoded {
        value,
        word,
        operation,
        rd,
        rs1,
        other,
    }
}

impl Decoded {
    /// What this word is.
    #[inline(never)]
    pub fn of(word: u32) -> Decoded
        ensures is { IsDecoded result }
        ensures word { result.word ≡ word }
    {
        let none = Register::X1;
        let zero = Register::X0;
        match decode(word) {
            Some(
                Instr::Load {
                    kind,
                    rd,
                    rs1,
                    offset,
                },
            ) => frequent(word, Operation::load(kind), rd, rs1, zero, offset),
            Some(
                Instr::Store {
                    width,
                    rs1,
                    rs2,
                    offset,
                },
            ) => frequent(word, Operation::store(width), none, rs1, rs2, offset),
            Some(
                Instr::AluImm {
                    op: AluOp::Add,
                    rd,
                    rs1: Register::X0,
                    value,
                },
            ) => frequent(word, Operation::Constant, rd, none, zero, value),
            Some(Instr::AluImm { op, rd, rs1, value }) => frequent(
                word,
                Operation::immediate(op),
                rd,
                rs1,
                zero,
                value,
            ),
            Some(Instr::Alu { op, rd, rs1, rs2 }) => frequent(
                word,
                Operation::computing(op),
                rd,
                rs1,
                rs2,
                0,
            ),
            Some(Instr::MulDiv { op, rd, rs1, rs2 }) => frequent(
                word,
                Operation::product(op),
                rd,
                rs1,
                rs2,
                0,
            ),
            Some(Instr::Lui { rd, value }) => frequent(word, Operation::Lui, rd, none, zero, value),
            Some(Instr::Auipc { rd, offset }) => frequent(
                word,
                Operation::Auipc,
                rd,
                none,
                zero,
                offset,
            ),
            Some(
                Instr::Branch {
                    condition,
                    rs1,
                    rs2,
                    offset,
                },
            ) => frequent(word, Operation::branch(condition), none, rs1, rs2, offset),
            Some(Instr::Jal { rd, offset }) => frequent(
                word,
                Operation::Jal,
                none,
                none,
                rd,
                offset,
            ),
            Some(Instr::Jalr { rd, rs1, offset }) => frequent(
                word,
                Operation::Jalr,
                none,
                rs1,
                rd,
                offset,
            ),
            _ => rare(word),
        }
    }
}
