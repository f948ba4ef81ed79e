// Links in memory.
ghost use Rattle.std.specs.Prelude.{◌≡◌, true, IfSome, MatchOption, OnOk, OnErr};
ghost use Rattle.outside_mem.specs.Devices.{wire_in};
ghost use Rattle.vm_host.specs.declared.attached.Attached.TheVariants as attached;
ghost use Rattle.vm_host.specs.Devices.{ChangesAt};
ghost use Rattle.vm_host.specs.Framing.{AreFrameLengths, Drops, SendsFrame, SendsPart, Takes};

use crate::failing::Failing;
use crate::memory_wire::MemoryWire;
use crate::names::Names;
use std::alloc::{AllocError, Global};
use vm_host::{Attached, Link};
use vm_outside::Failed;
use vm_types::Piece;

/// Wires of the devices from number 0 on. On a device without one no frame comes, and what is sent fails. That there is
/// no memory is a failure.
#[derive(Drop)]
pub struct MemoryLink {
    wires: Vec<MemoryWire>,
    sockets: Names,
    failing: Failing,
}

impl MemoryLink {
    /// No socket is attached so far.
    pub fn new(alloc: Global, wires: Vec<MemoryWire>, failing: Failing) -> MemoryLink
        ensures { ⟦<MemoryLink as Link>⟧.known result ≡ record {
          health = record { tells = true; faults = failing };
          sockets = λ _. attached.Nothing;
          wires = wire_in wires.items;
        } }
    {
        MemoryLink {
            wires,
            sockets: Names::new(alloc),
            failing,
        }
    }

    /// The socket that the device's link is.
    pub fn socket(&self, device: u8) -> &Attached
        ensures { result.now ≡ (⟦<MemoryLink as Link>⟧.known self.now).sockets device }
    {
        self.sockets.at(device)
    }

    /// All wires.
    pub fn wires(&self) -> &[MemoryWire]
        ensures { wire_in result.now ≡ (⟦<MemoryLink as Link>⟧.known self.now).wires }
    {
        &self.wires
    }

    /// How many calls have failed.
    pub fn faults(&self) -> u64
        ensures { result ≡ (⟦<MemoryLink as Link>⟧.known self.now).health.faults }
    {
        self.failing.faults()
    }
}

impl Link for MemoryLink {
    ghost use Rattle.std.specs.Prelude.{true};
    ghost use Rattle.outside_mem.specs.Devices.{names_of, wire_in};

    ghost known = { λ l. record {
      health = record { tells = true; faults = l.failing };
      sockets = names_of l.sockets;
      wires = wire_in l.wires.items;
    } };

    /// The wires stay those that there are.
    fn attach(&mut self, device: u8, name: &str) {
        self.sockets.attach(device, name);
    }

    fn take(&mut self, device: u8) -> Result<Option<u32>, Failed> {
        if self.failing.fails() {
            return Err(Failed);
        }
        Ok(take_frame(&mut self.wires, device as usize))
    }

    fn part(&mut self, device: u8, index: u64, count: usize) -> Result<Piece, Failed> {
        if self.failing.fails() {
            return Err(Failed);
        }
        let piece = match self.wires.get(device as usize) {
            Some(wire) => wire.part(index, count),
            None => None,
        };
        let Some(piece) = piece else {
            self.failing.count();
            return Err(Failed);
        };
        Ok(piece)
    }

    fn send_part(&mut self, device: u8, piece: Piece) -> Result<(), Failed> {
        if self.failing.fails() {
            drop_begun(&mut self.wires, device as usize);
            return Err(Failed);
        }
        if send_part(&mut self.wires, device as usize, &piece).is_err() {
            self.failing.count();
            drop_begun(&mut self.wires, device as usize);
            return Err(Failed);
        }
        Ok(())
    }

    fn send_end(&mut self, device: u8) -> Result<(), Failed> {
        if self.failing.fails() {
            drop_begun(&mut self.wires, device as usize);
            return Err(Failed);
        }
        if send_end(&mut self.wires, device as usize).is_err() {
            self.failing.count();
            drop_begun(&mut self.wires, device as usize);
            return Err(Failed);
        }
        Ok(())
    }
}

fn take_frame(wires: &mut Vec<MemoryWire>, device: usize) -> Option<u32>
    ensures within { AreFrameLengths result }
    ensures takes { Takes (wire_in wires.old.items) device (wire_in wires.new.items) result }
{
    if device >= wires.len() {
        return None;
    }
    wires[device].take()
}

fn drop_begun(wires: &mut Vec<MemoryWire>, device: usize)
    ensures { ChangesAt (wire_in wires.old.items) device (wire_in wires.new.items) Drops }
{
    if device < wires.len() {
        wires[device].drop_begun();
    }
}

// An `Err` changes nothing.
fn send_part(wires: &mut Vec<MemoryWire>, device: usize, piece: &Piece) -> Result<(), AllocError>
    ensures sends { OnOk result
        (ChangesAt (wire_in wires.old.items) device (wire_in wires.new.items) (SendsPart piece.now)) }
    ensures same { OnErr result (wire_in wires.new.items ≡ wire_in wires.old.items) }
{
    if device >= wires.len() {
        return Err(AllocError);
    }
    wires[device].send_part(piece)
}

// An `Err` changes nothing.
fn send_end(wires: &mut Vec<MemoryWire>, device: usize) -> Result<(), AllocError>
    ensures sends { OnOk result
        (ChangesAt (wire_in wires.old.items) device (wire_in wires.new.items) SendsFrame) }
    ensures same { OnErr result (wire_in wires.new.items ≡ wire_in wires.old.items) }
{
    if device >= wires.len() {
        return Err(AllocError);
    }
    wires[device].send_end()
}
