// A hart between two instructions.
ghost use Rattle.std.specs.Prelude.{◌≡◌};
ghost use Rattle.rv_supervisor.specs.Registers.{reg, with_reg, granule, holds, without_granule};
ghost use Rattle.rv_supervisor.specs.Start.{start_regs};

use crate::integers::Integers;
use rv_rows::Register;

/// The register of a call's first argument and of its error (SBI, "Binary Encoding").
pub const A0: Register = Register::X10;
/// The register of a call's second argument and of its value.
pub const A1: Register = Register::X11;

/// What a hart begins next.
#[derive(Clone, Copy, Debug, Drop)]
pub enum Turn {
    /// An instruction.
    Fetch,
    /// A look at the board.
    Look,
    /// A look at the board that shows whether a WFI goes on waiting.
    WakeLook,
    /// A wait, and then a look.
    Idle,
    /// A wait of a WFI, and then its look.
    WakeIdle,
}

/// A hart between two instructions. What the manual calls a register and isn't here reads 0 or stands elsewhere: x0 and
/// satp read 0, sip and time are the board's.
#[derive(Clone, Copy, Drop)]
pub struct Regs {
    /// x0 to x31, which contracts see as x1 to x31.
    pub x: Integers,
    pub pc: u64,
    /// Bits 1, 5 and 9: whether the software, the timer and the external interrupt is enabled.
    pub sie: u64,
    pub stvec: u64,
    pub sscratch: u64,
    pub sepc: u64,
    pub scause: u64,
    pub stval: u64,
    /// How many instructions are left to the next look, 1 to 32.
    pub count: u64,
    /// The granule of 8 bytes that the hart holds since its last LR, by its address.
    pub held: Option<u64>,
    /// SIE of sstatus: whether enabled interrupts are taken.
    pub status_sie: bool,
    /// SPIE of sstatus: SIE before the last trap.
    pub status_spie: bool,
    pub turn: Turn,
}

/// The registers of a hart that begins at `pc` with these arguments in a0 and a1 and 0 in every other register.
pub fn start_regs(pc: u64, a0: u64, a1: u64) -> Regs
    ensures { result ≡ start_regs pc a0 a1 }
{
    let mut regs = Regs {
        x: Integers::zeros(),
        pc,
        sie: 0,
        stvec: 0,
        sscratch: 0,
        sepc: 0,
        scause: 0,
        stval: 0,
        count: 32,
        held: None,
        status_sie: false,
        status_spie: false,
        turn: Turn::Fetch,
    };
    regs.put(A0, a0);
    regs.put(A1, a1);
    regs
}

impl Regs {
    /// The value of an integer register. x0 reads 0.
    #[inline]
    pub fn get(&self, register: Register) -> u64
        ensures { result ≡ reg self.now register }
    {
        self.x.get(register.number())
    }

    /// Puts a value into an integer register. What is written to x0 is dropped.
    #[inline]
    pub fn put(&mut self, register: Register, value: u64)
        ensures { self.new ≡ with_reg self.old register value }
    {
        self.x.put(register.number(), value);
    }

    /// The granule of this address is held from now on, and no other.
    pub fn hold(&mut self, address: u64)
        ensures { self.new ≡ record self.old { held = Some (granule address) } }
    {
        self.held = Some(address / 8 * 8);
    }

    /// No granule is held from now on.
    pub fn let_go(&mut self)
        ensures { self.new ≡ without_granule self.old }
    {
        self.held = None;
    }

    /// Whether the granule of this address is held.
    #[inline]
    pub fn holds(&self, address: u64) -> bool
        ensures { result ≡ holds self.now address }
    {
        match self.held {
            Some(held) => held == address / 8 * 8,
            None => false,
        }
    }
}
