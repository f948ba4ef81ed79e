// What a call leaves.
ghost use Rattle.std.specs.Prelude.{◌≡◌};
ghost use Rattle.sbi_calls.specs.Ends.{after_call, after_act};

use crate::step::SbiReturn;
use rv_supervisor::{A0, A1, Regs, Turn, finish};
use vm_types::BoardOp;

/// The call ends with this error in a0 and this value in a1.
pub fn end_call(given: SbiReturn, regs: &mut Regs)
    ensures { regs.new ≡ after_call given regs.old }
{
    regs.put(A0, given.error);
    regs.put(A1, given.value);
    finish(regs);
}

/// The call that is this act ends by the board's reply, of which `given` are the error and the value, if it has them.
/// A putchar puts 0 into a0 and leaves a1. A stop leaves both, and a look is due; what the hart does then is for the
/// look to show.
pub fn end_act(act: BoardOp, given: Option<SbiReturn>, regs: &mut Regs)
    ensures { regs.new ≡ after_act act given regs.old }
{
    match act {
        BoardOp::Putchar { .. } => {
            regs.put(A0, 0);
            finish(regs);
        }
        BoardOp::SetTimer { .. } => end_call(SbiReturn { error: 0, value: 0 }, regs),
        BoardOp::StopHart => {
            finish(regs);
            regs.turn = Turn::Look;
        }
        _ => match given {
            Some(given) => end_call(given, regs),
            None => finish(regs),
        },
    }
}
