// The table of instructions.
ghost use Rattle.std.specs.Prelude.{◌≡◌};
ghost use Rattle.rv_rows.specs.Table.{instr_of};
ghost use Rattle.rv_rows.specs.Forms.{first_fit};

use crate::alu::{AluOp, MulDivOp};
use crate::branch::Condition;
use crate::csr::CsrOp;
use crate::form::{Form, instr};
use crate::instr::Instr;
use crate::memory::{LoadKind, Width};
use vm_types::AmoKind;

/// A row of the table, mask, match and form: a word is of this form where its bits under the mask are those that must
/// match.
#[derive(Clone, Copy, Drop)]
struct Row(u32, u32, Form);

/// The suffixes .W and .D of the extension A: 4 bytes, and 8.
const W: bool = false;

const D: bool = true;

const ROWS: [Row; 97] = [
    // RV32I and RV64I. FENCE takes any other fields.
    Row(0x0000_007f, 0x0000_0037, Form::Lui),
    Row(0x0000_007f, 0x0000_0017, Form::Auipc),
    Row(0x0000_007f, 0x0000_006f, Form::Jal),
    Row(0x0000_707f, 0x0000_0067, Form::Jalr),
    Row(0x0000_707f, 0x0000_0063, Form::Branch(Condition::Eq)),
    Row(0x0000_707f, 0x0000_1063, Form::Branch(Condition::Ne)),
    Row(0x0000_707f, 0x0000_4063, Form::Branch(Condition::Lt)),
    Row(0x0000_707f, 0x0000_5063, Form::Branch(Condition::Ge)),
    Row(0x0000_707f, 0x0000_6063, Form::Branch(Condition::Ltu)),
    Row(0x0000_707f, 0x0000_7063, Form::Branch(Condition::Geu)),
    Row(0x0000_707f, 0x0000_0003, Form::Load(LoadKind::Byte)),
    Row(0x0000_707f, 0x0000_1003, Form::Load(LoadKind::Half)),
    Row(0x0000_707f, 0x0000_2003, Form::Load(LoadKind::Word)),
    Row(0x0000_707f, 0x0000_3003, Form::Load(LoadKind::Double)),
    Row(0x0000_707f, 0x0000_4003, Form::Load(LoadKind::ByteUnsigned)),
    Row(0x0000_707f, 0x0000_5003, Form::Load(LoadKind::HalfUnsigned)),
    Row(0x0000_707f, 0x0000_6003, Form::Load(LoadKind::WordUnsigned)),
    Row(0x0000_707f, 0x0000_0023, Form::Store(Width::Byte)),
    Row(0x0000_707f, 0x0000_1023, Form::Store(Width::Half)),
    Row(0x0000_707f, 0x0000_2023, Form::Store(Width::Word)),
    Row(0x0000_707f, 0x0000_3023, Form::Store(Width::Double)),
    Row(0x0000_707f, 0x0000_0013, Form::AluImmediate(AluOp::Add)),
    Row(0x0000_707f, 0x0000_2013, Form::AluImmediate(AluOp::Slt)),
    Row(0x0000_707f, 0x0000_3013, Form::AluImmediate(AluOp::Sltu)),
    Row(0x0000_707f, 0x0000_4013, Form::AluImmediate(AluOp::Xor)),
    Row(0x0000_707f, 0x0000_6013, Form::AluImmediate(AluOp::Or)),
    Row(0x0000_707f, 0x0000_7013, Form::AluImmediate(AluOp::And)),
    Row(0xfc00_707f, 0x0000_1013, Form::Shift(AluOp::Sll)),
    Row(0xfc00_707f, 0x0000_5013, Form::Shift(AluOp::Srl)),
    Row(0xfc00_707f, 0x4000_5013, Form::Shift(AluOp::Sra)),
    Row(0xfe00_707f, 0x0000_0033, Form::Alu(AluOp::Add)),
    Row(0xfe00_707f, 0x4000_0033, Form::Alu(AluOp::Sub)),
    Row(0xfe00_707f, 0x0000_1033, Form::Alu(AluOp::Sll)),
    Row(0xfe00_707f, 0x0000_2033, Form::Alu(AluOp::Slt)),
    Row(0xfe00_707f, 0x0000_3033, Form::Alu(AluOp::Sltu)),
    Row(0xfe00_707f, 0x0000_4033, Form::Alu(AluOp::Xor)),
    Row(0xfe00_707f, 0x0000_5033, Form::Alu(AluOp::Srl)),
    Row(0xfe00_707f, 0x4000_5033, Form::Alu(AluOp::Sra)),
    Row(0xfe00_707f, 0x0000_6033, Form::Alu(AluOp::Or)),
    Row(0xfe00_707f, 0x0000_7033, Form::Alu(AluOp::And)),
    Row(0x0000_707f, 0x0000_001b, Form::AluImmediate(AluOp::Addw)),
    Row(0xfe00_707f, 0x0000_101b, Form::WordShift(AluOp::Sllw)),
    Row(0xfe00_707f, 0x0000_501b, Form::WordShift(AluOp::Srlw)),
    Row(0xfe00_707f, 0x4000_501b, Form::WordShift(AluOp::Sraw)),
    Row(0xfe00_707f, 0x0000_003b, Form::Alu(AluOp::Addw)),
    Row(0xfe00_707f, 0x4000_003b, Form::Alu(AluOp::Subw)),
    Row(0xfe00_707f, 0x0000_103b, Form::Alu(AluOp::Sllw)),
    Row(0xfe00_707f, 0x0000_503b, Form::Alu(AluOp::Srlw)),
    Row(0xfe00_707f, 0x4000_503b, Form::Alu(AluOp::Sraw)),
    Row(0x0000_707f, 0x0000_000f, Form::Plain(Instr::Fence)),
    Row(0xffff_ffff, 0x0000_0073, Form::Plain(Instr::Ecall)),
    Row(0xffff_ffff, 0x0010_0073, Form::Plain(Instr::Ebreak)),
    // Zifencei. FENCE.I takes any other fields.
    Row(0x0000_707f, 0x0000_100f, Form::Plain(Instr::FenceI)),
    // Zicsr
    Row(0x0000_707f, 0x0000_1073, Form::CsrRegister(CsrOp::Write)),
    Row(0x0000_707f, 0x0000_2073, Form::CsrRegister(CsrOp::Set)),
    Row(0x0000_707f, 0x0000_3073, Form::CsrRegister(CsrOp::Clear)),
    Row(0x0000_707f, 0x0000_5073, Form::CsrImmediate(CsrOp::Write)),
    Row(0x0000_707f, 0x0000_6073, Form::CsrImmediate(CsrOp::Set)),
    Row(0x0000_707f, 0x0000_7073, Form::CsrImmediate(CsrOp::Clear)),
    // RV32M and RV64M
    Row(0xfe00_707f, 0x0200_0033, Form::MulDiv(MulDivOp::Mul)),
    Row(0xfe00_707f, 0x0200_1033, Form::MulDiv(MulDivOp::Mulh)),
    Row(0xfe00_707f, 0x0200_2033, Form::MulDiv(MulDivOp::Mulhsu)),
    Row(0xfe00_707f, 0x0200_3033, Form::MulDiv(MulDivOp::Mulhu)),
    Row(0xfe00_707f, 0x0200_4033, Form::MulDiv(MulDivOp::Div)),
    Row(0xfe00_707f, 0x0200_5033, Form::MulDiv(MulDivOp::Divu)),
    Row(0xfe00_707f, 0x0200_6033, Form::MulDiv(MulDivOp::Rem)),
    Row(0xfe00_707f, 0x0200_7033, Form::MulDiv(MulDivOp::Remu)),
    Row(0xfe00_707f, 0x0200_003b, Form::MulDiv(MulDivOp::Mulw)),
    Row(0xfe00_707f, 0x0200_403b, Form::MulDiv(MulDivOp::Divw)),
    Row(0xfe00_707f, 0x0200_503b, Form::MulDiv(MulDivOp::Divuw)),
    Row(0xfe00_707f, 0x0200_603b, Form::MulDiv(MulDivOp::Remw)),
    Row(0xfe00_707f, 0x0200_703b, Form::MulDiv(MulDivOp::Remuw)),
    // RV32A and RV64A: aq and rl, bits 26 and 25, may be any, and LR wants rs2 to be 0
    Row(0xf9f0_707f, 0x1000_202f, Form::LoadReserved(W)),
    Row(0xf800_707f, 0x1800_202f, Form::StoreConditional(W)),
    Row(0xf800_707f, 0x0800_202f, Form::Amo(AmoKind::Swap, W)),
    Row(0xf800_707f, 0x0000_202f, Form::Amo(AmoKind::Add, W)),
    Row(0xf800_707f, 0x2000_202f, Form::Amo(AmoKind::Xor, W)),
    Row(0xf800_707f, 0x6000_202f, Form::Amo(AmoKind::And, W)),
    Row(0xf800_707f, 0x4000_202f, Form::Amo(AmoKind::Or, W)),
    Row(0xf800_707f, 0x8000_202f, Form::Amo(AmoKind::Min, W)),
    Row(0xf800_707f, 0xa000_202f, Form::Amo(AmoKind::Max, W)),
    Row(0xf800_707f, 0xc000_202f, Form::Amo(AmoKind::MinUnsigned, W)),
    Row(0xf800_707f, 0xe000_202f, Form::Amo(AmoKind::MaxUnsigned, W)),
    Row(0xf9f0_707f, 0x1000_302f, Form::LoadReserved(D)),
    Row(0xf800_707f, 0x1800_302f, Form::StoreConditional(D)),
    Row(0xf800_707f, 0x0800_302f, Form::Amo(AmoKind::Swap, D)),
    Row(0xf800_707f, 0x0000_302f, Form::Amo(AmoKind::Add, D)),
    Row(0xf800_707f, 0x2000_302f, Form::Amo(AmoKind::Xor, D)),
    Row(0xf800_707f, 0x6000_302f, Form::Amo(AmoKind::And, D)),
    Row(0xf800_707f, 0x4000_302f, Form::Amo(AmoKind::Or, D)),
    Row(0xf800_707f, 0x8000_302f, Form::Amo(AmoKind::Min, D)),
    Row(0xf800_707f, 0xa000_302f, Form::Amo(AmoKind::Max, D)),
    Row(0xf800_707f, 0xc000_302f, Form::Amo(AmoKind::MinUnsigned, D)),
    Row(0xf800_707f, 0xe000_302f, Form::Amo(AmoKind::MaxUnsigned, D)),
    // the privileged manual, supervisor part: SFENCE.VMA takes any rs1 and rs2, and wants rd to be 0
    Row(0xffff_ffff, 0x1020_0073, Form::Plain(Instr::Sret)),
    Row(0xffff_ffff, 0x1050_0073, Form::Plain(Instr::Wfi)),
    Row(0xfe00_7fff, 0x1200_0073, Form::Plain(Instr::SfenceVma)),
];

fn first(rows: &[Row], word: u32) -> Option<Form>
    ensures { result ≡ first_fit rows.now word }
{
    for row in rows {
        let Row(mask, matched, form) = *row;
        if word & mask == matched {
            return Some(form);
        }
    }
    None
}

/// What this word is, or `None` where no row of the table fits it: then it is an illegal instruction.
#[tactic(auto, unfolding(crate::specs::Table::instr_of))]
pub fn instr_of(word: u32) -> Option<Instr>
    ensures { result ≡ instr_of word }
{
    match first(&ROWS, word) {
        Some(form) => Some(instr(form, word)),
        None => None,
    }
}
