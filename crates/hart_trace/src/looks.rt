// What a hart makes of what a look at the board shows.
ghost use Rattle.std.specs.Prelude.{◌≡◌};
ghost use Rattle.hart_trace.specs.Looks.{interrupt_number, first_interrupt, after_interrupt, after_pending, looked_at};

use rv_supervisor::{A0, A1, Regs, Turn};
use vm_types::Shown;

/// Bit 63 of scause: the cause is an interrupt.
const IS_INTERRUPT: u64 = 0x8000_0000_0000_0000;

/// An interrupt of a supervisor (privileged manual, supervisor part, "Supervisor Cause Register").
#[derive(Clone, Copy, Drop)]
pub enum Interrupt {
    Software,
    Timer,
    External,
}

impl Interrupt {
    /// The interrupt's number: its bit in sie and sip, and in scause.
    pub fn number(self) -> u64
        ensures { result ≡ interrupt_number self }
    {
        match self {
            Interrupt::Software => 1,
            Interrupt::Timer => 5,
            Interrupt::External => 9,
        }
    }
}

/// The one of these bits that is taken first.
fn first_interrupt(bits: u64) -> Option<Interrupt>
    ensures { result ≡ first_interrupt bits }
{
    if bits / 0x200 % 2 == 1 {
        Some(Interrupt::External)
    } else if bits / 0x2 % 2 == 1 {
        Some(Interrupt::Software)
    } else if bits / 0x20 % 2 == 1 {
        Some(Interrupt::Timer)
    } else {
        None
    }
}

fn take_interrupt(regs: &mut Regs, interrupt: Interrupt)
    ensures { regs.new ≡ after_interrupt interrupt regs.old }
{
    regs.sepc = regs.pc;
    regs.pc = regs.stvec;
    regs.scause = IS_INTERRUPT + interrupt.number();
    regs.stval = 0;
    regs.status_spie = regs.status_sie;
    regs.status_sie = false;
    regs.turn = Turn::Fetch;
}

fn look_at_pending(regs: &mut Regs, first: Option<Interrupt>)
    ensures { regs.new ≡ after_pending regs.old.turn first regs.old }
{
    match first {
        Some(interrupt) if regs.status_sie => take_interrupt(regs, interrupt),
        None if regs.turn == Turn::WakeLook => regs.turn = Turn::WakeIdle,
        _ => regs.turn = Turn::Fetch,
    }
}

/// What a look makes of the registers. Of the interrupts that are pending and enabled by sie the first is taken, where
/// SIE is set; a WFI waits where there is none; a stopped hart waits, and one that is to start begins at the pc asked
/// for.
pub fn look(regs: &mut Regs, shown: Shown)
    ensures { regs.new ≡ looked_at shown regs.old }
{
    match shown {
        Shown::Pending(bits) => {
            let first = first_interrupt(bits & regs.sie);
            look_at_pending(regs, first);
        }
        Shown::Stopped => regs.turn = Turn::Idle,
        Shown::Start { pc, number, word } => {
            regs.put(A0, number);
            regs.put(A1, word);
            regs.pc = pc / 4 * 4;
            regs.status_sie = false;
            regs.turn = Turn::Fetch;
        }
    }
}
