// How an instruction ends.
ghost use Rattle.std.specs.Prelude.{◌≡◌};
ghost use Rattle.rv_supervisor.specs.Ends.{count_down, after_jump, after_instruction, after_trap, after_sret, after_wfi};

use crate::regs::{Regs, Turn};
use rv_rows::Exception;

/// One instruction more has finished or trapped: after every 32nd a look is due.
fn count_down(regs: &mut Regs)
    ensures { regs.new ≡ count_down regs.old }
{
    if regs.count <= 1 {
        regs.count = 32;
        regs.turn = Turn::Look;
    } else {
        regs.count -= 1;
    }
}

/// The instruction is finished, and the next one is at the target.
#[inline]
pub fn jump(regs: &mut Regs, target: u64)
    ensures { regs.new ≡ after_jump target regs.old }
{
    regs.pc = target;
    count_down(regs);
}

/// The instruction is finished, and the next one is behind it.
#[inline]
pub fn finish(regs: &mut Regs)
    ensures { regs.new ≡ after_instruction regs.old }
{
    let next = regs.pc.wrapping_add(4);
    jump(regs, next);
}

/// The instruction trapped: `value` goes into stval (privileged manual, supervisor part).
#[inline(never)]
pub fn trap(regs: &mut Regs, exception: Exception, value: u64)
    ensures { regs.new ≡ after_trap exception value regs.old }
{
    regs.sepc = regs.pc;
    regs.pc = regs.stvec;
    regs.scause = exception.code();
    regs.stval = value;
    regs.status_spie = regs.status_sie;
    regs.status_sie = false;
    count_down(regs);
}

/// SRET: the hart goes on where it trapped, and a look is due.
#[inline(never)]
pub fn return_from_trap(regs: &mut Regs)
    ensures { regs.new ≡ after_sret regs.old }
{
    regs.pc = regs.sepc;
    regs.status_sie = regs.status_spie;
    regs.status_spie = true;
    count_down(regs);
    regs.turn = Turn::Look;
}

/// WFI: the look that is due shows whether the hart waits.
#[inline(never)]
pub fn wait(regs: &mut Regs)
    ensures { regs.new ≡ after_wfi regs.old }
{
    finish(regs);
    regs.turn = Turn::WakeLook;
}
