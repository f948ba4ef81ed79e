// What is computed of two values.

/// What an instruction of the base computes of two values of 64 bits, or in the word forms, whose names end in
/// `w`, of their low 32 bits (unprivileged manual, 2.4 and 5.2).
#[derive(Clone, Copy, Debug, Drop)]
pub enum AluOp {
    Add,
    Sub,
    Sll,
    Slt,
    Sltu,
    Xor,
    Srl,
    Sra,
    Or,
    And,
    Addw,
    Subw,
    Sllw,
    Srlw,
    Sraw,
}

/// What an instruction of the extension M computes of two values (unprivileged manual, 7.1 and 7.2).
#[derive(Clone, Copy, Debug, Drop)]
pub enum MulDivOp {
    Mul,
    Mulh,
    Mulhsu,
    Mulhu,
    Div,
    Divu,
    Rem,
    Remu,
    Mulw,
    Divw,
    Divuw,
    Remw,
    Remuw,
}
