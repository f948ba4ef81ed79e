// The op that continues the steps of a trace.
ghost use Rattle.std.specs.Prelude.{◌≡◌, ◌↔◌, IsTrue, MatchOption};
ghost use Rattle.vm_types.specs.declared.op.Op.{Op};
ghost use Rattle.vm_types.specs.Fits.{Fits};
ghost use Rattle.hart_trace.specs.Traces.{Continues};

use crate::hart::Hart;
use rv_supervisor::Regs;
use vm_types::{Actor, Op, Step, is_fit, is_same_op};

// Whether the step is this op, with a reply that fits.
fn is_answered(op: &Op, step: &Step) -> bool
    ensures { IsTrue result ↔ (op.now ≡ step.now.op) × Fits op.now step.now.reply }
{
    is_same_op(op, &step.op) && is_fit(op, &step.reply)
}

/// The op that continues the steps of a hart that began with these registers, or `None` where no trace begins with
/// them: what a hart wants once it was answered as the steps say.
pub fn op_after(start: &Regs, steps: &[Step]) -> Option<Op>
    ensures { MatchOption result
        ((op : Op) → Continues start.now steps.now op → ⊥)
        (λ op. Continues start.now steps.now op) }
{
    let mut hart = Hart::with_regs(*start);
    for step in steps {
        let op = hart.want();
        if !is_answered(&op, step) {
            return None;
        }
        hart.give(step.reply);
    }
    Some(hart.want())
}
