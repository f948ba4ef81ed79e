// The calls of the supervisor binary interface.
ghost use Rattle.std.specs.Prelude.{◌≡◌};
ghost use Rattle.sbi_calls.specs.Ends.{returned};
ghost use Rattle.rv_doing.specs.Doing.{asked, ended};
ghost use Rattle.rv_doing.specs.HartOps.{op_in, reply_of};
ghost use Rattle.rv_doing.specs.Sbi.{call};

use crate::hart_op::HartOp;
use crate::hart_reply::HartReply;
use rv_supervisor::Regs;
use sbi_calls::{SbiReturn, SbiStep, end_act, end_call, sbi};

/// The error and the value that a reply has.
fn returned(reply: HartReply) -> Option<SbiReturn>
    ensures { result ≡ returned (reply_of reply) }
{
    match reply {
        HartReply::Returned { error, value } => Some(SbiReturn { error, value }),
        _ => None,
    }
}

/// The act on the board that the call is, if any.
#[inline(never)]
pub fn call_wanted(regs: &Regs) -> Option<HartOp>
    ensures { op_in result ≡ asked (call regs.now) }
{
    match sbi(regs) {
        SbiStep::Now(_) => None,
        SbiStep::Act(act) => Some(HartOp::Board(act)),
    }
}

/// What the call makes of the registers, by the last reply.
#[inline(never)]
pub fn call_performed(regs: &mut Regs, reply: HartReply)
    ensures { regs.new ≡ ended (call regs.old) (reply_of reply) }
{
    match sbi(regs) {
        SbiStep::Now(given) => end_call(given, regs),
        SbiStep::Act(act) => end_act(act, returned(reply), regs),
    }
}
