// The lines that are shown, and those of a line that doesn't apply.
ghost use Rattle.std.specs.Prelude.{◌≡◌, IfOk};
ghost use Rattle.script_text.specs.Output.{memory_line, misfit_line, register_line, waits_line};

use script_words::{append_hex, append_number, append_word};
use std::alloc::{AllocError, Global};
use vm_types::ByteList;

/// Why a line doesn't apply.
#[derive(Clone, Copy, Drop)]
pub enum Misfit {
    /// A step or a reply, while the guest doesn't run.
    NotRunning,
    /// A register or memory, before there is a guest.
    NoMachine,
    /// The guest doesn't have that actor.
    NoActor,
    /// The bytes aren't all in RAM.
    OutsideMemory,
    /// A reply, while the actor wants no act on a host object.
    NotWaiting,
    /// A reply that the act can't have.
    Unfit,
}

/// The line of a line that doesn't apply.
pub fn misfit_line(alloc: Global, why: Misfit) -> Result<ByteList, AllocError>
    ensures { IfOk result (λ line. line ≡ misfit_line why) }
{
    match why {
        Misfit::NotRunning => Ok(ByteList::copy_of(alloc, b"? not running\n")?),
        Misfit::NoMachine => Ok(ByteList::copy_of(alloc, b"? no machine\n")?),
        Misfit::NoActor => Ok(ByteList::copy_of(alloc, b"? no actor\n")?),
        Misfit::OutsideMemory => Ok(ByteList::copy_of(alloc, b"? outside memory\n")?),
        Misfit::NotWaiting => Ok(ByteList::copy_of(alloc, b"? not waiting\n")?),
        Misfit::Unfit => Ok(ByteList::copy_of(alloc, b"? unfit\n")?),
    }
}

/// The line of a step that met an act on a host object after this many events.
pub fn waits_line(alloc: Global, count: u64) -> Result<ByteList, AllocError>
    ensures { IfOk result (λ line. line ≡ waits_line count) }
{
    let mut line = ByteList::copy_of(alloc, b"? waits ")?;
    append_number(&mut line, count)?;
    line.append(b"\n")?;
    Ok(line)
}

/// The line of a register.
pub fn register_line(alloc: Global, value: u64) -> Result<ByteList, AllocError>
    ensures { IfOk result (λ line. line ≡ register_line value) }
{
    let mut line = ByteList::copy_of(alloc, b"= ")?;
    append_word(&mut line, value)?;
    line.append(b"\n")?;
    Ok(line)
}

/// The line of bytes of memory.
pub fn memory_line(alloc: Global, bytes: &[u8]) -> Result<ByteList, AllocError>
    ensures { IfOk result (λ line. line ≡ memory_line bytes.now) }
{
    let mut line = ByteList::copy_of(alloc, b"= ")?;
    append_hex(&mut line, bytes)?;
    line.append(b"\n")?;
    Ok(line)
}
