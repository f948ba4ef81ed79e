// How the reply to an access ends its instruction.
ghost use Rattle.std.specs.Prelude.{◌≡◌, if◌then◌else◌};
ghost use Rattle.rv_supervisor.specs.Registers.{holds, without_granule};
ghost use Rattle.rv_doing.specs.HartOps.{reply_of};
ghost use Rattle.rv_doing.specs.Replies.{with_result, after_load, after_store, after_reserve, after_conditional, after_amo, after_time, after_sip};

use crate::hart_reply::HartReply;
use rv_alu::{atomic_load_value, load_value, low_bytes};
use rv_rows::{Exception, LoadKind, Register};
use rv_supervisor::{INTERRUPTS, Regs, finish, trap};

/// The instruction ends with a value for rd.
#[inline]
pub fn end_with(rd: Register, value: u64, regs: &mut Regs)
    ensures { regs.new ≡ with_result rd value regs.old }
{
    regs.put(rd, value);
    finish(regs);
}

#[inline]
#[tactic(auto, using(crate::proofs::Widths::low_is))]
pub fn end_load(kind: LoadKind, rd: Register, address: u64, reply: HartReply, regs: &mut Regs)
    ensures { regs.new ≡ after_load kind rd address (reply_of reply) regs.old }
{
    match reply {
        HartReply::Bytes { word, width } => {
            let value = load_value(kind, low_bytes(width, word));
            end_with(rd, value, regs);
        }
        _ => trap(regs, Exception::LoadFault, address),
    }
}

#[inline]
pub fn end_store(address: u64, reply: HartReply, regs: &mut Regs)
    ensures { regs.new ≡ after_store address (reply_of reply) regs.old }
{
    match reply {
        HartReply::Done => finish(regs),
        _ => trap(regs, Exception::StoreFault, address),
    }
}

#[inline(never)]
pub fn end_reserve(wide: bool, rd: Register, address: u64, reply: HartReply, regs: &mut Regs)
    ensures { regs.new ≡ after_reserve wide rd address (reply_of reply) regs.old }
{
    match reply {
        HartReply::Word(old) => {
            regs.hold(address);
            end_with(rd, atomic_load_value(wide, old), regs);
        }
        _ => trap(regs, Exception::LoadFault, address), // what was held is held
    }
}

/// An SC of a granule that the hart doesn't hold fails, and the reply isn't looked at.
#[inline(never)]
pub fn end_conditional(rd: Register, address: u64, reply: HartReply, regs: &mut Regs)
    ensures { regs.new ≡ (if holds regs.old address then after_conditional rd address (reply_of reply) regs.old
        else with_result rd 1 (without_granule regs.old)) }
{
    let is_held = regs.holds(address);
    regs.let_go();
    if !is_held {
        end_with(rd, 1, regs);
        return;
    }
    match reply {
        HartReply::Word(failed) => end_with(rd, failed, regs),
        _ => trap(regs, Exception::StoreFault, address),
    }
}

#[inline(never)]
pub fn end_amo(wide: bool, rd: Register, address: u64, reply: HartReply, regs: &mut Regs)
    ensures { regs.new ≡ after_amo wide rd address (reply_of reply) regs.old }
{
    match reply {
        HartReply::Word(old) => end_with(rd, atomic_load_value(wide, old), regs),
        _ => trap(regs, Exception::StoreFault, address),
    }
}

pub fn end_time(rd: Register, reply: HartReply, regs: &mut Regs)
    ensures { regs.new ≡ after_time rd (reply_of reply) regs.old }
{
    match reply {
        HartReply::Word(value) => end_with(rd, value, regs),
        _ => finish(regs),
    }
}

pub fn end_sip(rd: Register, reply: HartReply, regs: &mut Regs)
    ensures { regs.new ≡ after_sip rd (reply_of reply) regs.old }
{
    match reply {
        HartReply::Word(value) => end_with(rd, value & INTERRUPTS, regs),
        _ => finish(regs),
    }
}
