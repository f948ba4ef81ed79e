// What each instruction does.
ghost use Rattle.std.specs.Prelude.{◌≡◌};
ghost use Rattle.rv_rows.specs.Effects.{effect_of};

use crate::accesses::{amo, load, load_reserved, store, store_conditional};
use crate::base::alu;
use crate::branches::is_taken;
use crate::csr::csr_access;
use crate::extension_m::muldiv;
use crate::jumps::{branch, even, jump};
use rv_rows::{Effect, Exception, Instr};

/// What an instruction does, given its own address and the values of the two registers that it reads: `a` of rs1,
/// and `b` of rs2. Where it reads none, the value isn't looked at.
pub fn effect(instr: Instr, pc: u64, a: u64, b: u64) -> Effect
    ensures { result ≡ effect_of instr pc a b }
{
    match instr {
        Instr::Lui { rd, value } => Effect::Put { rd, value },
        Instr::Auipc { rd, offset } => Effect::Put {
            rd,
            value: pc.wrapping_add(offset),
        },
        Instr::Jal { rd, offset } => jump(rd, pc, pc.wrapping_add(offset)),
        Instr::Jalr { rd, offset, .. } => jump(rd, pc, even(a.wrapping_add(offset))),
        Instr::Branch {
            condition,
            offset,
            ..
        } => branch(is_taken(condition, a, b), pc.wrapping_add(offset)),
        Instr::Load {
            kind,
            rd,
            offset,
            ..
        } => load(kind, rd, a.wrapping_add(offset)),
        Instr::Store { width, offset, .. } => store(width, a.wrapping_add(offset), b),
        Instr::AluImm { op, rd, value, .. } => Effect::Put {
            rd,
            value: alu(op, a, value),
        },
        Instr::Alu { op, rd, .. } => Effect::Put {
            rd,
            value: alu(op, a, b),
        },
        Instr::MulDiv { op, rd, .. } => Effect::Put {
            rd,
            value: muldiv(op, a, b),
        },
        Instr::LoadReserved { wide, rd, .. } => load_reserved(wide, rd, a),
        Instr::StoreConditional { wide, rd, .. } => store_conditional(wide, rd, a, b),
        Instr::Amo { kind, wide, rd, .. } => amo(kind, wide, rd, a, b),
        Instr::Fence | Instr::FenceI | Instr::SfenceVma => Effect::Nothing,
        Instr::Ecall => Effect::Ecall,
        Instr::Ebreak => Effect::Trap {
            exception: Exception::Breakpoint,
            value: pc,
        },
        Instr::Sret => Effect::Sret,
        Instr::Wfi => Effect::Wfi,
        Instr::Csr { op, rd, csr, rs1 } => Effect::Csr {
            rd,
            csr,
            access: csr_access(op, rs1.number() as u64, a),
        },
        Instr::CsrImm { op, rd, csr, value } => Effect::Csr {
            rd,
            csr,
            access: csr_access(op, value, value),
        },
    }
}
