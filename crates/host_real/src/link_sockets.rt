// Links over real sockets.
ghost use Rattle.std.specs.Prelude.{◌≡◌, IfOk, length};
ghost use Rattle.vm_host.specs.Framing.{AreFrameLengths};

use crate::attached_link::AttachedLink;
use crate::bell::Bell;
use outside_real::counted::counted;
use std::alloc::AllocError;
use std::io::ErrorKind;
use std::net::Net;
use std::{io, rt};
use vm_host::Link;
use vm_outside::Failed;
use vm_types::{Piece, TextList};

/// A Unix socket for each device, under the name that was attached, whose stream has each frame behind its length, in four bytes with
/// the highest first. It is dialled when it is attached; a peer that isn't there, or is gone, is dialled at later calls, every 100
/// milliseconds at most. Meanwhile each call is a failure, as on a device without a link.
///
/// No call waits for a peer. A frame that the peer doesn't take at once is dropped, which is a failure. One of a length that no frame
/// has is passed over where it comes. What comes wakes who rests at the bell.
#[derive(Drop)]
pub struct LinkSockets<'a, R> {
    rt: &'a R,
    bell: &'a Bell,
    links: Vec<AttachedLink>,
    faults: u64,
}

impl<'a, R: Net + rt::Clock + AllocGlobal> LinkSockets<'a, R> {
    pub fn new(rt: &'a R, bell: &'a Bell) -> LinkSockets<'a, R>
        ensures { (⟦<LinkSockets<'a, R> as Link>⟧.known result).health.faults ≡ 0 }
    {
        LinkSockets {
            rt,
            bell,
            links: Vec::new(rt.alloc()),
            faults: 0,
        }
    }

    /// How many calls have failed. It stays at its last value.
    pub fn faults(&self) -> u64
        ensures { result ≡ (⟦<LinkSockets<'a, R> as Link>⟧.known self.now).health.faults }
    {
        self.faults
    }
}

impl<'a, R: Net + rt::Clock + AllocGlobal> Link for LinkSockets<'a, R> {
    ghost use Rattle.std.specs.Prelude.{[]};
    ghost use Rattle.outside_real.specs.Counting.{untold};
    ghost use Rattle.vm_host.specs.declared.attached.Attached.TheVariants as attached;

    ghost known = { λ l. record {
      health = untold l.faults;
      sockets = λ n. attached.Nothing;
      wires = λ n. record { coming = []; taken = []; sent = []; begun = [] };
    } };

    /// Under the name that the device has already nothing is done, and no memory is taken.
    fn attach(&mut self, device: u8, name: &str) {
        if is_attached(&self.links, device, name) {
            return;
        }
        self.links.retain(|link| link.device != device);
        let _kept = keep(self.rt, &mut self.links, device, name);
        if let Ok(link) = link_of(&mut self.links, device) {
            // Who isn't there now is dialled at a later call.
            let _there = link.peer(self.rt, self.bell).is_ok();
        }
    }

    fn take(&mut self, device: u8) -> Result<Option<u32>, Failed> {
        let done = take(self.rt, self.bell, &mut self.links, device);
        counted(&mut self.faults, done)
    }

    fn part(&mut self, device: u8, index: u64, count: usize) -> Result<Piece, Failed> {
        let done = part(&mut self.links, device, index, count);
        counted(&mut self.faults, done)
    }

    fn send_part(&mut self, device: u8, piece: Piece) -> Result<(), Failed> {
        let done = send_part(self.rt, self.bell, &mut self.links, device, &piece);
        counted(&mut self.faults, done)
    }

    fn send_end(&mut self, device: u8) -> Result<(), Failed> {
        let done = send_end(self.rt, self.bell, &mut self.links, device);
        counted(&mut self.faults, done)
    }
}

fn is_attached(links: &[AttachedLink], device: u8, name: &str) -> bool {
    match links.iter().find(|link| link.device == device) {
        Some(link) => link.name() == name,
        None => false,
    }
}

fn keep<R: AllocGlobal>(
    rt: &R,
    links: &mut Vec<AttachedLink>,
    device: u8,
    name: &str,
) -> Result<(), AllocError> {
    let name = TextList::copy_of(rt.alloc(), name)?;
    links.push(AttachedLink::new(rt.alloc(), device, name))?;
    Ok(())
}

fn link_of(links: &mut [AttachedLink], device: u8) -> io::Result<&mut AttachedLink> {
    match links.iter_mut().find(|link| link.device == device) {
        Some(link) => Ok(link),
        None => Err(io::Error::from(ErrorKind::NotFound)),
    }
}

fn take<R: Net + rt::Clock + AllocGlobal>(
    rt: &R,
    bell: &Bell,
    links: &mut [AttachedLink],
    device: u8,
) -> io::Result<Option<u32>>
    ensures { IfOk result AreFrameLengths }
{
    link_of(links, device)?.take(rt, bell)
}

fn part(links: &mut [AttachedLink], device: u8, index: u64, count: usize) -> io::Result<Piece>
    ensures { IfOk result (λ piece. length piece ≡ count) }
{
    link_of(links, device)?.part(index, count)
}

fn send_part<R: Net + rt::Clock + AllocGlobal>(
    rt: &R,
    bell: &Bell,
    links: &mut [AttachedLink],
    device: u8,
    piece: &Piece,
) -> io::Result<()> {
    link_of(links, device)?.send_part(rt, bell, piece.as_slice())
}

fn send_end<R: Net + rt::Clock + AllocGlobal>(
    rt: &R,
    bell: &Bell,
    links: &mut [AttachedLink],
    device: u8,
) -> io::Result<()> {
    link_of(links, device)?.send_end(rt, bell)
}
