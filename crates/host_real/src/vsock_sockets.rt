// The host's end of the vsock device over real sockets.
ghost use Rattle.std.specs.Prelude.{◌≡◌};

use crate::bell::Bell;
use crate::vsock_end::VsockEnd;
use outside_real::counted::counted;
use std::fs::File;
use std::net::Net;
use std::rt;
use vm_host::{HostEvent, VsockHost};
use vm_outside::Failed;
use vm_types::Piece;

/// Listens at the Unix socket of the name that was attached, and dials the one of that name with `_` and the port behind it. A socket on
/// which nobody listens is replaced; one in use can't be listened on, and neither can any other file: then it is tried again each second,
/// and meanwhile a call that finds no event is a failure. The socket's file is its owner's alone, and is removed at the end.
///
/// No call waits for a peer. Of a connection whose peer doesn't take what is sent 256 KiB are kept; a send of more fails, and ends that
/// connection. One that was closed stays until its peer has taken what was kept. A peer that sends no more has ended. There are 128
/// connections at most: no more are accepted meanwhile. Each that has something to tell does in turn, and who comes at the door too.
/// What comes wakes who rests at the bell.
#[derive(Drop)]
pub struct VsockSockets<'a, R: rt::Files<File = File> + rt::Clock> {
    end: VsockEnd<'a, R>,
    faults: u64,
}

impl<'a, R: rt::Files<File = File> + rt::Clock + Net + AllocGlobal> VsockSockets<'a, R> {
    pub fn new(rt: &'a R, bell: &'a Bell) -> VsockSockets<'a, R>
        ensures { (⟦<VsockSockets<'a, R> as VsockHost>⟧.known result).health.faults ≡ 0 }
    {
        VsockSockets {
            end: VsockEnd::new(rt, bell),
            faults: 0,
        }
    }

    /// How many calls have failed. It stays at its last value.
    pub fn faults(&self) -> u64
        ensures { result ≡ (⟦<VsockSockets<'a, R> as VsockHost>⟧.known self.now).health.faults }
    {
        self.faults
    }
}

impl<'a, R: rt::Files<File = File> + rt::Clock + Net + AllocGlobal> VsockHost
    for VsockSockets<'a, R> {
    ghost use Rattle.std.specs.Prelude.{[]};
    ghost use Rattle.outside_real.specs.Counting.{untold};
    ghost use Rattle.vm_host.specs.declared.attached.Attached.TheVariants as attached;

    ghost known = { λ v. record {
      health = untold v.faults;
      sockets = attached.Nothing;
      coming = [];
      answers = [];
      done = [];
    } };

    fn attach(&mut self, device: u8, name: &str) {
        self.end.attach(name);
    }

    fn next(&mut self) -> Result<HostEvent, Failed> {
        let done = self.end.next_event();
        counted(&mut self.faults, done)
    }

    fn dial(&mut self, port: u32) -> Result<Option<u32>, Failed> {
        let done = self.end.dial_port(port);
        counted(&mut self.faults, done)
    }

    fn send(&mut self, connection: u32, piece: Piece) -> Result<(), Failed> {
        let done = self.end.send(connection, piece.as_slice());
        counted(&mut self.faults, done)
    }

    fn close(&mut self, connection: u32) -> Result<(), Failed> {
        let done = self.end.close(connection);
        counted(&mut self.faults, done)
    }
}
