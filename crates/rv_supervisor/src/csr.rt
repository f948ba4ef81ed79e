// The control and status registers of a supervisor.
ghost use Rattle.std.specs.Prelude.{◌≡◌, ◌^◌, ◌/◌};
ghost use Rattle.rv_supervisor.specs.Csrs.{csr_of, csr_value, status, after_write, after_access, software_cleared, software_set, is_read};

use crate::regs::{Regs, Turn};
use rv_rows::CsrAccess;

/// A CSR that a hart keeps (privileged manual, supervisor part, "Supervisor CSRs").
#[derive(Clone, Copy, Drop)]
pub enum HartCsr {
    Sstatus,
    Sie,
    Stvec,
    Sscratch,
    Sepc,
    Scause,
    Stval,
    Satp,
}

/// A CSR: one of the hart's, or one that the board keeps.
#[derive(Clone, Copy, Drop)]
pub enum Csr {
    Hart(HartCsr),
    Sip,
    Time,
}

/// Bits 1, 5 and 9: the software, the timer and the external interrupt.
pub const INTERRUPTS: u64 = 0x222;

/// Bit 1 of sip: the software interrupt.
const SOFTWARE: u64 = 0x2;

/// The CSR of a number, or `None` where the number is illegal.
pub fn csr_of(number: u32) -> Option<Csr>
    ensures { result ≡ csr_of number }
{
    match number {
        0x100 => Some(Csr::Hart(HartCsr::Sstatus)),
        0x104 => Some(Csr::Hart(HartCsr::Sie)),
        0x105 => Some(Csr::Hart(HartCsr::Stvec)),
        0x140 => Some(Csr::Hart(HartCsr::Sscratch)),
        0x141 => Some(Csr::Hart(HartCsr::Sepc)),
        0x142 => Some(Csr::Hart(HartCsr::Scause)),
        0x143 => Some(Csr::Hart(HartCsr::Stval)),
        0x144 => Some(Csr::Sip),
        0x180 => Some(Csr::Hart(HartCsr::Satp)),
        0xc01 => Some(Csr::Time),
        _ => None,
    }
}

fn status(sie: bool, spie: bool) -> u64
    ensures { result ≡ status sie spie }
{
    let sie = if sie { 0x2 } else { 0 };
    let spie = if spie { 0x20 } else { 0 };
    0x100 + sie + spie
}

/// What a read of a CSR sees.
pub fn csr_value(csr: HartCsr, regs: &Regs) -> u64
    ensures { result ≡ csr_value csr regs.now }
{
    match csr {
        HartCsr::Sstatus => status(regs.status_sie, regs.status_spie),
        HartCsr::Sie => regs.sie,
        HartCsr::Stvec => regs.stvec,
        HartCsr::Sscratch => regs.sscratch,
        HartCsr::Sepc => regs.sepc,
        HartCsr::Scause => regs.scause,
        HartCsr::Stval => regs.stval,
        HartCsr::Satp => 0,
    }
}

/// Writes a CSR, which keeps what it can of the value. After a write of sstatus or sie a look is due.
pub fn write_csr(csr: HartCsr, value: u64, regs: &mut Regs)
    ensures { regs.new ≡ after_write csr value regs.old }
{
    match csr {
        HartCsr::Sstatus => {
            regs.status_sie = value / 0x2 % 2 == 1;
            regs.status_spie = value / 0x20 % 2 == 1;
            regs.turn = Turn::Look;
        }
        HartCsr::Sie => {
            regs.sie = value & INTERRUPTS;
            regs.turn = Turn::Look;
        }
        HartCsr::Stvec => regs.stvec = value / 4 * 4,
        HartCsr::Sscratch => regs.sscratch = value,
        HartCsr::Sepc => regs.sepc = value / 4 * 4,
        HartCsr::Scause => regs.scause = value,
        HartCsr::Stval => regs.stval = value,
        HartCsr::Satp => {}
    }
}

/// What a CSR instruction leaves (unprivileged manual, 9.1).
pub fn access_csr(csr: HartCsr, access: CsrAccess, regs: &mut Regs)
    ensures { regs.new ≡ after_access csr access regs.old }
{
    match access {
        CsrAccess::Read => {}
        CsrAccess::Write { value } => write_csr(csr, value, regs),
        CsrAccess::Set { mask } => write_csr(csr, csr_value(csr, regs) | mask, regs),
        CsrAccess::Clear { mask } => write_csr(csr, csr_value(csr, regs) & !mask, regs),
    }
}

/// Which bits of sip, of which only bit 1 can be written, an access clears.
pub fn software_cleared(access: CsrAccess) -> u64
    ensures { result ≡ software_cleared access }
{
    match access {
        CsrAccess::Read | CsrAccess::Set { .. } => 0,
        CsrAccess::Write { .. } => SOFTWARE,
        CsrAccess::Clear { mask } => mask & SOFTWARE,
    }
}

/// Which bits of sip, of which only bit 1 can be written, an access then sets.
pub fn software_set(access: CsrAccess) -> u64
    ensures { result ≡ software_set access }
{
    match access {
        CsrAccess::Read | CsrAccess::Clear { .. } => 0,
        CsrAccess::Write { value } => value & SOFTWARE,
        CsrAccess::Set { mask } => mask & SOFTWARE,
    }
}

/// Whether an access writes nothing.
pub fn is_read(access: CsrAccess) -> bool
    ensures { result ≡ is_read access }
{
    matches!(access, CsrAccess::Read)
}
