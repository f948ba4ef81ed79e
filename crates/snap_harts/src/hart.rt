// A hart.
ghost use Rattle.std.specs.Prelude.{◌≡◌, ◌≤◌};
ghost use Rattle.snap_harts.specs.Harts.{hart, place, place_code};
ghost use Rattle.snap_harts.specs.Copy.{turn_of, begun_at, regs_of, place_of, saved_hart};

use file_format::{Input, ReadError, Stored};
use rv_supervisor::{HartCsr, Integers, Regs, Turn, csr_value};
use std::alloc::{AllocError, Global};

/// Where a hart is.
#[derive(Clone, Copy, Drop)]
pub enum HartPlace {
    /// Before an instruction, or before a look that is due.
    Begin,
    /// Before the look of a WFI.
    BeginWaiting,
    /// Before a wait.
    Idle,
    /// Before a wait of a WFI.
    IdleWaiting,
    /// Before the access of the instruction with this word.
    Access(u32),
}

/// A hart, register by register.
#[derive(Drop)]
pub struct SavedHart {
    /// x1 to x31.
    pub x: [u64; 31],
    pub pc: u64,
    pub sstatus: u64,
    pub sie: u64,
    pub stvec: u64,
    pub sscratch: u64,
    pub sepc: u64,
    pub scause: u64,
    pub stval: u64,
    /// How many instructions are left to the next look, 1 to 32.
    pub count: u8,
    pub is_look_due: bool,
    /// The granule of 8 bytes that the hart holds since its last LR, by its address.
    pub held: Option<u64>,
    pub place: HartPlace,
}

fn place_code(place: HartPlace) -> u8
    ensures { result ≡ place_code place }
{
    match place {
        HartPlace::Begin => 0,
        HartPlace::BeginWaiting => 1,
        HartPlace::Idle => 2,
        HartPlace::IdleWaiting => 3,
        HartPlace::Access(_) => 4,
    }
}

#[tactic(auto, unfolding(crate::specs::Harts::place, file_format::specs::Kinds::byte))]
impl Stored for HartPlace {
    ghost format = { place };

    fn write(&self, out: &mut Vec<u8>) -> Result<(), AllocError> {
        place_code(*self).write(out)?;
        match self {
            HartPlace::Access(word) => word.write(out)?,
            HartPlace::Begin | HartPlace::BeginWaiting => {}
            HartPlace::Idle | HartPlace::IdleWaiting => {}
        }
        Ok(())
    }

    fn read(alloc: Global, input: &mut Input) -> Result<HartPlace, ReadError> {
        match u8::read(alloc, input)? {
            0 => Ok(HartPlace::Begin),
            1 => Ok(HartPlace::BeginWaiting),
            2 => Ok(HartPlace::Idle),
            3 => Ok(HartPlace::IdleWaiting),
            4 => Ok(HartPlace::Access(Stored::read(alloc, input)?)),
            _ => Err(ReadError::Bad),
        }
    }
}

#[tactic(auto, unfolding(crate::specs::Harts::hart))]
impl Stored for SavedHart {
    ghost format = { hart };

    fn write(&self, out: &mut Vec<u8>) -> Result<(), AllocError> {
        self.x.write(out)?;
        self.pc.write(out)?;
        self.sstatus.write(out)?;
        self.sie.write(out)?;
        self.stvec.write(out)?;
        self.sscratch.write(out)?;
        self.sepc.write(out)?;
        self.scause.write(out)?;
        self.stval.write(out)?;
        self.count.write(out)?;
        self.is_look_due.write(out)?;
        self.held.write(out)?;
        self.place.write(out)?;
        Ok(())
    }

    fn read(alloc: Global, input: &mut Input) -> Result<SavedHart, ReadError> {
        let (
            (x, pc),
            (
                (sstatus, (sie, (stvec, (sscratch, (sepc, (scause, stval)))))),
                (count, (is_look_due, (held, place))),
            ),
        ) = Stored::read(alloc, input)?;
        Ok(SavedHart {
            x,
            pc,
            sstatus,
            sie,
            stvec,
            sscratch,
            sepc,
            scause,
            stval,
            count,
            is_look_due,
            held,
            place,
        })
    }
}

fn turn_of(is_look_due: bool, place: HartPlace) -> Turn
    ensures { result ≡ turn_of is_look_due place }
{
    match place {
        HartPlace::Begin if is_look_due => Turn::Look,
        HartPlace::BeginWaiting => Turn::WakeLook,
        HartPlace::Idle => Turn::Idle,
        HartPlace::IdleWaiting => Turn::WakeIdle,
        HartPlace::Begin | HartPlace::Access(_) => Turn::Fetch,
    }
}

fn place_of(begun: Option<u32>, turn: Turn) -> HartPlace
    ensures { result ≡ place_of begun turn }
{
    match (begun, turn) {
        (Some(word), _) => HartPlace::Access(word),
        (None, Turn::Fetch | Turn::Look) => HartPlace::Begin,
        (None, Turn::WakeLook) => HartPlace::BeginWaiting,
        (None, Turn::Idle) => HartPlace::Idle,
        (None, Turn::WakeIdle) => HartPlace::IdleWaiting,
    }
}

impl SavedHart {
    /// The copy of a hart with these registers and the word of the instruction that it has begun.
    pub fn new(regs: &Regs, begun: Option<u32>) -> SavedHart
        requires { regs.now.count ≤ 32 }
        ensures { result ≡ saved_hart (record { regs = regs.now; begun = begun }) }
    {
        SavedHart {
            x: regs.x.values(),
            pc: regs.pc,
            sstatus: csr_value(HartCsr::Sstatus, regs),
            sie: regs.sie,
            stvec: regs.stvec,
            sscratch: regs.sscratch,
            sepc: regs.sepc,
            scause: regs.scause,
            stval: regs.stval,
            count: regs.count as u8,
            is_look_due: matches!(regs.turn, Turn::Look | Turn::WakeLook),
            held: regs.held,
            place: place_of(begun, regs.turn),
        }
    }

    /// The registers.
    pub fn regs(&self) -> Regs
        ensures { result ≡ regs_of self.now }
    {
        Regs {
            x: Integers::from_values(self.x),
            pc: self.pc,
            sie: self.sie,
            stvec: self.stvec,
            sscratch: self.sscratch,
            sepc: self.sepc,
            scause: self.scause,
            stval: self.stval,
            count: self.count as u64,
            held: self.held,
            status_sie: self.sstatus / 0x2 % 2 == 1,
            status_spie: self.sstatus / 0x20 % 2 == 1,
            turn: turn_of(self.is_look_due, self.place),
        }
    }

    /// The word of the instruction that it has begun.
    pub fn begun(&self) -> Option<u32>
        ensures { result ≡ begun_at self.now.place }
    {
        match self.place {
            HartPlace::Access(word) => Some(word),
            _ => None,
        }
    }
}
