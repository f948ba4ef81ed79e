// What a decoded word does, in one choice.
ghost use Rattle.std.specs.Prelude.{◌≡◌, ℕ, Some};
ghost use Rattle.rv_rows.specs.Table.{instr_of};
ghost use Rattle.rv_rows.specs.declared.instr.Instr.TheVariants.{Alu, AluImm, Branch, Load, MulDiv, Store};
ghost use Rattle.rv_rows.specs.declared.register.Register.{Register};
ghost use Rattle.decoded_words.specs.Operations.{IsThat, instr_named};

use rv_rows::{AluOp, Condition, LoadKind, MulDivOp, Width};

/// An operation of the instructions that are frequent: which instruction each is, `instr_named` of `specs/Operations.antt` says.
#[derive(Clone, Copy, Drop)]
pub enum Operation {
    /// An instruction that isn't among these.
    Rare,
    LoadByte,
    LoadHalf,
    LoadWord,
    LoadDouble,
    LoadByteUnsigned,
    LoadHalfUnsigned,
    LoadWordUnsigned,
    StoreByte,
    StoreHalf,
    StoreWord,
    StoreDouble,
    /// The sum of x0 and an immediate.
    Constant,
    AddImmediate,
    SllImmediate,
    SltImmediate,
    SltuImmediate,
    XorImmediate,
    SrlImmediate,
    SraImmediate,
    OrImmediate,
    AndImmediate,
    AddwImmediate,
    SllwImmediate,
    SrlwImmediate,
    SrawImmediate,
    Add,
    Sub,
    Sll,
    Slt,
    Sltu,
    Xor,
    Srl,
    Sra,
    Or,
    And,
    Addw,
    Subw,
    Sllw,
    Srlw,
    Sraw,
    Mul,
    Mulw,
    Lui,
    Auipc,
    BranchEq,
    BranchNe,
    BranchLt,
    BranchGe,
    BranchLtu,
    BranchGeu,
    Jal,
    Jalr,
}

impl Operation {
    /// A load of this kind.
    pub fn load(kind: LoadKind) -> Operation
        ensures { (word value : ℕ) (rd rs1 other : Register) → instr_of word ≡ Some (Load kind rd rs1 value)
            → IsThat (instr_named result rd rs1 other value) word }
    {
        match kind {
            LoadKind::Byte => Operation::LoadByte,
            LoadKind::Half => Operation::LoadHalf,
            LoadKind::Word => Operation::LoadWord,
            LoadKind::Double => Operation::LoadDouble,
            LoadKind::ByteUnsigned => Operation::LoadByteUnsigned,
            LoadKind::HalfUnsigned => Operation::LoadHalfUnsigned,
            LoadKind::WordUnsigned => Operation::LoadWordUnsigned,
        }
    }

    /// A store of this width.
    pub fn store(width: Width) -> Operation
        ensures { (word value : ℕ) (rd rs1 other : Register) → instr_of word ≡ Some (Store width rs1 other value)
            → IsThat (instr_named result rd rs1 other value) word }
    {
        match width {
            Width::Byte => Operation::StoreByte,
            Width::Half => Operation::StoreHalf,
            Width::Word => Operation::StoreWord,
            Width::Double => Operation::StoreDouble,
        }
    }

    /// What is computed of a register and an immediate. There is no difference of them.
    pub fn immediate(op: AluOp) -> Operation
        ensures { (word value : ℕ) (rd rs1 other : Register) → instr_of word ≡ Some (AluImm op rd rs1 value)
            → IsThat (instr_named result rd rs1 other value) word }
    {
        match op {
            AluOp::Add => Operation::AddImmediate,
            AluOp::Sll => Operation::SllImmediate,
            AluOp::Slt => Operation::SltImmediate,
            AluOp::Sltu => Operation::SltuImmediate,
            AluOp::Xor => Operation::XorImmediate,
            AluOp::Srl => Operation::SrlImmediate,
            AluOp::Sra => Operation::SraImmediate,
            AluOp::Or => Operation::OrImmediate,
            AluOp::And => Operation::AndImmediate,
            AluOp::Addw => Operation::AddwImmediate,
            AluOp::Sllw => Operation::SllwImmediate,
            AluOp::Srlw => Operation::SrlwImmediate,
            AluOp::Sraw => Operation::SrawImmediate,
            AluOp::Sub | AluOp::Subw => Operation::Rare,
        }
    }

    /// What is computed of two registers.
    pub fn computing(op: AluOp) -> Operation
        ensures { (word value : ℕ) (rd rs1 other : Register) → instr_of word ≡ Some (Alu op rd rs1 other)
            → IsThat (instr_named result rd rs1 other value) word }
    {
        match op {
            AluOp::Add => Operation::Add,
            AluOp::Sub => Operation::Sub,
            AluOp::Sll => Operation::Sll,
            AluOp::Slt => Operation::Slt,
            AluOp::Sltu => Operation::Sltu,
            AluOp::Xor => Operation::Xor,
            AluOp::Srl => Operation::Srl,
            AluOp::Sra => Operation::Sra,
            AluOp::Or => Operation::Or,
            AluOp::And => Operation::And,
            AluOp::Addw => Operation::Addw,
            AluOp::Subw => Operation::Subw,
            AluOp::Sllw => Operation::Sllw,
            AluOp::Srlw => Operation::Srlw,
            AluOp::Sraw => Operation::Sraw,
        }
    }

    /// A product of two registers. High halves, quotients and remainders are rare.
    pub fn product(op: MulDivOp) -> Operation
        ensures { (word value : ℕ) (rd rs1 other : Register) → instr_of word ≡ Some (MulDiv op rd rs1 other)
            → IsThat (instr_named result rd rs1 other value) word }
    {
        match op {
            MulDivOp::Mul => Operation::Mul,
            MulDivOp::Mulw => Operation::Mulw,
            _ => Operation::Rare,
        }
    }

    /// A branch under this condition.
    pub fn branch(condition: Condition) -> Operation
        ensures { (word value : ℕ) (rd rs1 other : Register) → instr_of word ≡ Some (Branch condition rs1 other value)
            → IsThat (instr_named result rd rs1 other value) word }
    {
        match condition {
            Condition::Eq => Operation::BranchEq,
            Condition::Ne => Operation::BranchNe,
            Condition::Lt => Operation::BranchLt,
            Condition::Ge => Operation::BranchGe,
            Condition::Ltu => Operation::BranchLtu,
            Condition::Geu => Operation::BranchGeu,
        }
    }
}
