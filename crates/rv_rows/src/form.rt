// The forms of the table's rows: which fields a word has, and what instruction they make.
ghost use Rattle.std.specs.Prelude.{◌≡◌};
ghost use Rattle.rv_rows.specs.Forms.{instr_of_form};

use crate::alu::{AluOp, MulDivOp};
use crate::branch::Condition;
use crate::csr::CsrOp;
use crate::instr::Instr;
use crate::memory::{LoadKind, Width};
use crate::operands;
use vm_types::AmoKind;

/// What a row makes of a word.
#[derive(Clone, Copy, Drop)]
pub enum Form {
    Lui,
    Auipc,
    Jal,
    Jalr,
    Branch(Condition),
    Load(LoadKind),
    Store(Width),
    AluImmediate(AluOp),
    Shift(AluOp),
    WordShift(AluOp),
    Alu(AluOp),
    MulDiv(MulDivOp),
    /// Of 8 bytes where it is true, else of 4.
    LoadReserved(bool),
    /// Of 8 bytes where it is true, else of 4.
    StoreConditional(bool),
    /// Of 8 bytes where it is true, else of 4.
    Amo(AmoKind, bool),
    CsrRegister(CsrOp),
    CsrImmediate(CsrOp),
    /// The instruction has no operands.
    Plain(Instr),
}

/// The instruction that a word of this form is.
pub fn instr(form: Form, word: u32) -> Instr
    ensures { result ≡ instr_of_form form word }
{
    match form {
        Form::Lui => operands::lui(word),
        Form::Auipc => operands::auipc(word),
        Form::Jal => operands::jal(word),
        Form::Jalr => operands::jalr(word),
        Form::Branch(condition) => operands::branch(condition, word),
        Form::Load(kind) => operands::load(kind, word),
        Form::Store(width) => operands::store(width, word),
        Form::AluImmediate(op) => operands::alu_immediate(op, word),
        Form::Shift(op) => operands::shift(op, word),
        Form::WordShift(op) => operands::word_shift(op, word),
        Form::Alu(op) => operands::alu(op, word),
        Form::MulDiv(op) => operands::muldiv(op, word),
        Form::LoadReserved(wide) => operands::load_reserved(wide, word),
        Form::StoreConditional(wide) => operands::store_conditional(wide, word),
        Form::Amo(kind, wide) => operands::amo(kind, wide, word),
        Form::CsrRegister(op) => operands::csr_register(op, word),
        Form::CsrImmediate(op) => operands::csr_immediate(op, word),
        Form::Plain(instr) => instr,
    }
}
