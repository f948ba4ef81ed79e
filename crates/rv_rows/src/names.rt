// The names of instructions.
ghost use Rattle.std.specs.Prelude.{◌≡◌, if◌then◌else◌};
ghost use Rattle.rv_rows.specs.Names.{branch_name, load_name, store_name, immediate_name, alu_name, muldiv_name, amo_name, csr_name, csr_immediate_name, name_of};

use crate::alu::{AluOp, MulDivOp};
use crate::branch::Condition;
use crate::csr::CsrOp;
use crate::instr::Instr;
use crate::memory::{LoadKind, Width};
use vm_types::AmoKind;

fn branch(condition: Condition) -> &'static str
    ensures { result.now ≡ branch_name condition }
{
    match condition {
        Condition::Eq => "beq",
        Condition::Ne => "bne",
        Condition::Lt => "blt",
        Condition::Ge => "bge",
        Condition::Ltu => "bltu",
        Condition::Geu => "bgeu",
    }
}

fn load(kind: LoadKind) -> &'static str
    ensures { result.now ≡ load_name kind }
{
    match kind {
        LoadKind::Byte => "lb",
        LoadKind::Half => "lh",
        LoadKind::Word => "lw",
        LoadKind::Double => "ld",
        LoadKind::ByteUnsigned => "lbu",
        LoadKind::HalfUnsigned => "lhu",
        LoadKind::WordUnsigned => "lwu",
    }
}

fn store(width: Width) -> &'static str
    ensures { result.now ≡ store_name width }
{
    match width {
        Width::Byte => "sb",
        Width::Half => "sh",
        Width::Word => "sw",
        Width::Double => "sd",
    }
}

fn immediate(op: AluOp) -> &'static str
    ensures { result.now ≡ immediate_name op }
{
    match op {
        AluOp::Add => "addi",
        AluOp::Sub => "subi",
        AluOp::Sll => "slli",
        AluOp::Slt => "slti",
        AluOp::Sltu => "sltiu",
        AluOp::Xor => "xori",
        AluOp::Srl => "srli",
        AluOp::Sra => "srai",
        AluOp::Or => "ori",
        AluOp::And => "andi",
        AluOp::Addw => "addiw",
        AluOp::Subw => "subiw",
        AluOp::Sllw => "slliw",
        AluOp::Srlw => "srliw",
        AluOp::Sraw => "sraiw",
    }
}

fn alu(op: AluOp) -> &'static str
    ensures { result.now ≡ alu_name op }
{
    match op {
        AluOp::Add => "add",
        AluOp::Sub => "sub",
        AluOp::Sll => "sll",
        AluOp::Slt => "slt",
        AluOp::Sltu => "sltu",
        AluOp::Xor => "xor",
        AluOp::Srl => "srl",
        AluOp::Sra => "sra",
        AluOp::Or => "or",
        AluOp::And => "and",
        AluOp::Addw => "addw",
        AluOp::Subw => "subw",
        AluOp::Sllw => "sllw",
        AluOp::Srlw => "srlw",
        AluOp::Sraw => "sraw",
    }
}

fn muldiv(op: MulDivOp) -> &'static str
    ensures { result.now ≡ muldiv_name op }
{
    match op {
        MulDivOp::Mul => "mul",
        MulDivOp::Mulh => "mulh",
        MulDivOp::Mulhsu => "mulhsu",
        MulDivOp::Mulhu => "mulhu",
        MulDivOp::Div => "div",
        MulDivOp::Divu => "divu",
        MulDivOp::Rem => "rem",
        MulDivOp::Remu => "remu",
        MulDivOp::Mulw => "mulw",
        MulDivOp::Divw => "divw",
        MulDivOp::Divuw => "divuw",
        MulDivOp::Remw => "remw",
        MulDivOp::Remuw => "remuw",
    }
}

fn by_width(wide: bool, double: &'static str, word: &'static str) -> &'static str
    ensures { result.now ≡ (if wide then double.now else word.now) }
{
    if wide { double } else { word }
}

fn amo(kind: AmoKind, wide: bool) -> &'static str
    ensures { result.now ≡ amo_name kind wide }
{
    match kind {
        AmoKind::Swap => by_width(wide, "amoswap.d", "amoswap.w"),
        AmoKind::Add => by_width(wide, "amoadd.d", "amoadd.w"),
        AmoKind::Xor => by_width(wide, "amoxor.d", "amoxor.w"),
        AmoKind::And => by_width(wide, "amoand.d", "amoand.w"),
        AmoKind::Or => by_width(wide, "amoor.d", "amoor.w"),
        AmoKind::Min => by_width(wide, "amomin.d", "amomin.w"),
        AmoKind::Max => by_width(wide, "amomax.d", "amomax.w"),
        AmoKind::MinUnsigned => by_width(wide, "amominu.d", "amominu.w"),
        AmoKind::MaxUnsigned => by_width(wide, "amomaxu.d", "amomaxu.w"),
    }
}

fn csr(op: CsrOp) -> &'static str
    ensures { result.now ≡ csr_name op }
{
    match op {
        CsrOp::Write => "csrrw",
        CsrOp::Set => "csrrs",
        CsrOp::Clear => "csrrc",
    }
}

fn csr_immediate(op: CsrOp) -> &'static str
    ensures { result.now ≡ csr_immediate_name op }
{
    match op {
        CsrOp::Write => "csrrwi",
        CsrOp::Set => "csrrsi",
        CsrOp::Clear => "csrrci",
    }
}

impl Instr {
    /// Its name in the manual's assembly, in small letters and without aq and rl (unprivileged manual, chapter 24).
    pub fn name(self) -> &'static str
        ensures { result.now ≡ name_of self }
    {
        match self {
            Instr::Lui { .. } => "lui",
            Instr::Auipc { .. } => "auipc",
            Instr::Jal { .. } => "jal",
            Instr::Jalr { .. } => "jalr",
            Instr::Branch { condition, .. } => branch(condition),
            Instr::Load { kind, .. } => load(kind),
            Instr::Store { width, .. } => store(width),
            Instr::AluImm { op, .. } => immediate(op),
            Instr::Alu { op, .. } => alu(op),
            Instr::MulDiv { op, .. } => muldiv(op),
            Instr::LoadReserved { wide, .. } => by_width(wide, "lr.d", "lr.w"),
            Instr::StoreConditional { wide, .. } => by_width(wide, "sc.d", "sc.w"),
            Instr::Amo { kind, wide, .. } => amo(kind, wide),
            Instr::Fence => "fence",
            Instr::FenceI => "fence.i",
            Instr::Ecall => "ecall",
            Instr::Ebreak => "ebreak",
            Instr::Sret => "sret",
            Instr::Wfi => "wfi",
            Instr::SfenceVma => "sfence.vma",
            Instr::Csr { op, .. } => csr(op),
            Instr::CsrImm { op, .. } => csr_immediate(op),
        }
    }
}
