// The harts of the world: how they start, and what is asked of one of them.
ghost use Rattle.std.specs.Prelude.{◌≡◌, ◌%◌, IfOk, replicate, slice_get};
ghost use Rattle.hart_trace.specs.States.{fresh};
ghost use Rattle.hart_trace.specs.Stopped.{stopped_regs};
ghost use Rattle.flat_guest.specs.Body.{want_of, with_reply};
ghost use Rattle.vm_world.specs.Starting.{harts_at_start};

use boot_loader::Start;
use hart_rv64::Hart;
use std::alloc::{AllocError, Global};
use vm_types::{Actor, Op, Reply};

/// So many harts as a start makes them: the first begins where the guest does, and all others are stopped.
pub fn start_harts(alloc: Global, count: usize, start: Start) -> Result<Vec<Hart>, AllocError>
    requires { start.pc % 4 ≡ 0 }
    ensures { IfOk result (λ harts. harts.items ≡ harts_at_start count start.pc start.tree) }
{
    let mut harts = stopped_harts(alloc, count)?;
    if count > 0 {
        harts[0] = Hart::new(start.pc, 0, start.tree);
    }
    Ok(harts)
}

fn stopped_harts(alloc: Global, count: usize) -> Result<Vec<Hart>, AllocError>
    ensures { IfOk result (λ harts. harts.items ≡ replicate count (fresh stopped_regs)) }
{
    let mut harts = Vec::new(alloc);
    for _number in 0..count {
        harts.push(Hart::stopped())?;
    }
    Ok(harts)
}

/// What the hart of this number wants, if it is there.
pub fn want_of_hart(harts: &[Hart], number: u8) -> Option<Op>
    ensures { result ≡ want_of (slice_get harts.now number) }
{
    match harts.get(number as usize) {
        Some(hart) => Some(hart.want()),
        None => None,
    }
}

/// The hart of this number is given its reply, if it is there.
pub fn give_hart(harts: &mut [Hart], number: u8, reply: Reply)
    ensures { harts.new ≡ with_reply (slice_get harts.old number) harts.old number reply }
{
    let number = number as usize;
    if number < harts.len() {
        harts[number].give(reply);
    }
}
