// Lines that bring no request.
ghost use Rattle.std.specs.Prelude.{◌≡◌, [], IfOk, OnErr, slice_get};
ghost use Rattle.std.specs.Option.{option_map};
ghost use Rattle.vm_outside.specs.Known.{FilesKnown};
ghost use Rattle.flat_machine.specs.Given.{reply_given};
ghost use Rattle.flat_machine.specs.Machine.{Machine, console_of, drained, running};
ghost use Rattle.flat_machine.specs.Items.{StepsLine, RepliesLine, RegisterLine, MemoryLine};
ghost use Rattle.hart_trace.specs.Shown.{register_of};
ghost use Rattle.responses.specs.Output.{console_line};

use crate::answering::{reply_given, take_reply};
use crate::machine::LiveMachine;
use crate::waiting::{steps_line, waits_room};
use gate_file::zeros;
use responses::console_line;
use script_text::{HostReply, Misfit, memory_line, misfit_line, register_line};
use std::alloc::{AllocError, Global};
use vm_types::{ActorId, ByteList, GuestAddr};
use vm_world::{NotRam, World};

/// So many of the console's bytes are drained at a time.
const PART: usize = 256;

impl LiveMachine {
    ghost use Rattle.monitor_machine.specs.State.{IsMachine};

    /// A step line: events of a guest that runs, for which there is room before the first. An `Err` changes nothing.
    pub fn step(&mut self, actor: ActorId, count: u64) -> Result<ByteList, AllocError>
        ensures ok { IfOk result (λ text. (known : FilesKnown) (m : Machine) → IsMachine self.old known m →
            (n : Machine) × StepsLine (running m) actor count m text n × IsMachine self.new known n
            × (n.connection ≡ m.connection)) }
        ensures err { OnErr result (self.new ≡ self.old) }
    {
        if self.paused {
            return Ok(misfit_line(self.alloc, Misfit::NotRunning)?);
        }
        let room = waits_room(self.alloc)?;
        let Some(guest) = &mut self.guest else {
            return Ok(misfit_line(self.alloc, Misfit::NotRunning)?);
        };
        let Some(_) = guest.want(actor) else {
            return Ok(misfit_line(self.alloc, Misfit::NoActor)?);
        };
        guest.reserve(self.alloc, count)?;
        let Ok(made) = guest.run(actor, count) else {
            unreachable!()
        };
        Ok(steps_line(self.alloc, room, count, made, guest.is_off()))
    }

    /// A reply line: one event of an actor that wants an act on a host object. An `Err` changes nothing.
    pub fn reply(&mut self, actor: ActorId, given: &HostReply) -> Result<ByteList, AllocError>
        ensures ok { IfOk result (λ text. (known : FilesKnown) (m : Machine) → IsMachine self.old known m →
            (n : Machine) × RepliesLine (running m) actor (reply_given given.now) m text n × IsMachine self.new known n
            × (n.connection ≡ m.connection)) }
        ensures err { OnErr result (self.new ≡ self.old) }
    {
        if self.paused {
            return Ok(misfit_line(self.alloc, Misfit::NotRunning)?);
        }
        let Some(guest) = &mut self.guest else {
            return Ok(misfit_line(self.alloc, Misfit::NotRunning)?);
        };
        if let Some(why) = take_reply(guest, actor, reply_given(given)) {
            return Ok(misfit_line(self.alloc, why)?);
        }
        Ok(ByteList::new(self.alloc))
    }

    /// The console's line, and then the console is drained. An `Err` changes nothing.
    pub fn take_console(&mut self) -> Result<ByteList, AllocError>
        ensures ok { IfOk result (λ text. (known : FilesKnown) (m : Machine) → IsMachine self.old known m →
            (text ≡ console_line (console_of m)) × IsMachine self.new known (drained m)) }
        ensures err { OnErr result (self.new ≡ self.old) }
    {
        let Some(guest) = &mut self.guest else {
            return Ok(ByteList::new(self.alloc));
        };
        let line = console_line(self.alloc, guest.console())?;
        drain_all(guest);
        Ok(line)
    }

    /// The line of a hart's register.
    pub fn register(&self, hart: u8, number: u8) -> Result<ByteList, AllocError>
        ensures { IfOk result (λ text. (known : FilesKnown) (m : Machine) → IsMachine self.now known m →
            RegisterLine m.guest hart number m text m) }
    {
        match &self.guest {
            None => Ok(misfit_line(self.alloc, Misfit::NoMachine)?),
            Some(guest) => match register_in(guest, hart, number) {
                Some(value) => Ok(register_line(self.alloc, value)?),
                None => Ok(misfit_line(self.alloc, Misfit::NoActor)?),
            },
        }
    }

    /// The line of bytes of RAM.
    pub fn memory(&self, at: GuestAddr, len: usize) -> Result<ByteList, AllocError>
        ensures { IfOk result (λ text. (known : FilesKnown) (m : Machine) → IsMachine self.now known m →
            MemoryLine m.guest at len m text m) }
    {
        match &self.guest {
            None => Ok(misfit_line(self.alloc, Misfit::NoMachine)?),
            Some(guest) => {
                let mut bytes = zeros(self.alloc, len)?;
                match guest.read_memory(at, &mut bytes) {
                    Ok(()) => Ok(memory_line(self.alloc, &bytes)?),
                    Err(NotRam) => Ok(misfit_line(self.alloc, Misfit::OutsideMemory)?),
                }
            }
        }
    }
}

// A register of a hart: pc by the number 32, and another by its number modulo 32. `None` where there is no such hart.
fn register_in(guest: &World, hart: u8, number: u8) -> Option<u64>
    ensures { result ≡ option_map (λ h. register_of h number) (slice_get guest.now.harts hart) }
{
    if number <= 32 {
        guest.reg(hart, number as usize)
    } else {
        guest.reg(hart, (number % 32) as usize)
    }
}

/// Drains the console, which takes no memory.
pub fn drain_all(guest: &mut World)
    ensures { guest.new ≡ record guest.old { board = record guest.old.board { console = [] } } }
{
    let mut part = [0; PART];
    'parts: while !guest.console().is_empty() {
        guest.drain(&mut part);
    }
}
