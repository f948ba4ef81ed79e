// What the word of an instruction does.
ghost use Rattle.std.specs.Prelude.{◌≡◌};
ghost use Rattle.rv_doing.specs.Doing.{asked, ended};
ghost use Rattle.rv_doing.specs.Does.{effect_at, performed, does};
ghost use Rattle.rv_doing.specs.HartOps.{op_in, reply_of};

use crate::csr::{csr_performed, csr_wanted};
use crate::hart_op::HartOp;
use crate::hart_reply::HartReply;
use crate::replies::{end_amo, end_conditional, end_load, end_reserve, end_store, end_with};
use crate::sbi::{call_performed, call_wanted};
use rv_alu::effect;
use rv_decode::decode;
use rv_rows::{Effect, Exception, Instr};
use rv_supervisor::{Regs, finish, jump, return_from_trap, trap, wait};

/// What the instruction does, with the values of the registers that it reads.
fn effect_at(instr: Instr, regs: &Regs) -> Effect
    ensures { result ≡ effect_at instr regs.now }
{
    effect(instr, regs.pc, regs.get(instr.rs1()), regs.get(instr.rs2()))
}

/// What this word does, with the values of the registers that it reads: the one decode of an instruction.
#[inline]
#[tactic(auto, unfolding(crate::specs::Does::does))]
pub fn effect_of_word(word: u32, regs: &Regs) -> Effect
    ensures { performed result word regs.now ≡ does word regs.now }
{
    match decode(word) {
        Some(instr) => effect_at(instr, regs),
        None => Effect::Trap {
            exception: Exception::IllegalInstruction,
            value: word as u64,
        },
    }
}

/// The access that the effect of this word asks for behind the fetch, if any. An SC of a granule that the hart doesn't
/// hold asks for none.
#[inline(always)]
pub fn wanted(effect: Effect, word: u32, regs: &Regs) -> Option<HartOp>
    ensures { op_in result ≡ asked (performed effect word regs.now) }
{
    match effect {
        Effect::Put { .. }
        | Effect::Jump { .. }
        | Effect::Branch { .. }
        | Effect::Nothing
        | Effect::Trap { .. }
        | Effect::Sret
        | Effect::Wfi => None,
        Effect::Load { kind, address, .. } => Some(HartOp::Read {
            at: address,
            width: kind.width(),
        }),
        Effect::Store {
            width,
            address,
            value,
        } => Some(HartOp::Write {
            at: address,
            word: value,
            width,
        }),
        Effect::LoadReserved { wide, address, .. } => Some(HartOp::Lr { at: address, wide }),
        Effect::StoreConditional {
            wide,
            address,
            value,
            ..
        } => {
            if regs.holds(address) {
                Some(HartOp::Sc {
                    at: address,
                    value,
                    wide,
                })
            } else {
                None
            }
        }
        Effect::Amo {
            kind,
            wide,
            address,
            value,
            ..
        } => Some(HartOp::Amo {
            at: address,
            value,
            kind,
            wide,
        }),
        Effect::Csr { rd, csr, access } => csr_wanted(csr, rd, access, word, regs),
        Effect::Ecall => call_wanted(regs),
    }
}

/// What the effect of this word makes of the registers, by the last reply to what it asks for. Where it asks for
/// nothing, the reply is not looked at.
#[inline(always)]
pub fn perform(effect: Effect, word: u32, regs: &mut Regs, reply: HartReply)
    ensures { regs.new ≡ ended (performed effect word regs.old) (reply_of reply) }
{
    match effect {
        Effect::Put { rd, value } => end_with(rd, value, regs),
        Effect::Jump { rd, link, target } => {
            regs.put(rd, link);
            jump(regs, target);
        }
        Effect::Branch { target } => jump(regs, target),
        Effect::Nothing => finish(regs),
        Effect::Load { kind, rd, address } => end_load(kind, rd, address, reply, regs),
        Effect::Store { address, .. } => end_store(address, reply, regs),
        Effect::LoadReserved { wide, rd, address } => end_reserve(wide, rd, address, reply, regs),
        Effect::StoreConditional { rd, address, .. } => end_conditional(rd, address, reply, regs),
        Effect::Amo {
            wide,
            rd,
            address,
            ..
        } => end_amo(wide, rd, address, reply, regs),
        Effect::Csr { rd, csr, access } => csr_performed(csr, rd, access, word, regs, reply),
        Effect::Trap { exception, value } => trap(regs, exception, value),
        Effect::Ecall => call_performed(regs, reply),
        Effect::Sret => return_from_trap(regs),
        Effect::Wfi => wait(regs),
    }
}
