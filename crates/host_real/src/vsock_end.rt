// The host's end of the vsock device under its name.
ghost use Rattle.std.specs.Prelude.{IfOk, IfSome};
ghost use Rattle.vm_host.specs.Hosting.{IsEvent};

use crate::bell::Bell;
use crate::dialling::{Pause, dial};
use crate::looking::NO_DESCRIPTOR;
use crate::socket_file::{SocketFile, is_nobody};
use crate::vsock_peers::VsockPeers;
use itoa::Buffer;
use std::alloc::{AllocError, Global};
use std::fs::File;
use std::io::ErrorKind;
use std::net::Net;
use std::os::unix::io::{AsRawFd, RawFd};
use std::time::Duration;
use std::{io, rt};
use vm_host::HostEvent;
use vm_types::TextList;

/// A socket that can't be listened on is tried no more often, in milliseconds.
const LISTEN_PAUSE: u64 = 1_000;

/// So often its folder's lock is asked for each time.
const TRIES_EACH_TIME: u32 = 1;

/// The socket at which it listens, where that could be had, and the connections.
#[derive(Drop)]
pub(crate) struct VsockEnd<'a, R: rt::Files<File = File> + rt::Clock> {
    rt: &'a R,
    bell: &'a Bell,
    name: Option<TextList>,
    open: Option<SocketFile<'a, R>>,
    pause: Pause,
    peers: VsockPeers,
    /// The first one whose turn it is: 0 is the door's, and then each connection's.
    turn: usize,
}

impl<'a, R: rt::Files<File = File> + rt::Clock + Net + AllocGlobal> VsockEnd<'a, R> {
    /// It has no name so far.
    pub(crate) fn new(rt: &'a R, bell: &'a Bell) -> VsockEnd<'a, R> {
        VsockEnd {
            rt,
            bell,
            name: None,
            open: None,
            pause: Pause::new(Duration::from_millis(LISTEN_PAUSE)),
            peers: VsockPeers::new(rt.alloc()),
            turn: 0,
        }
    }

    /// Under the name that it has already nothing is done, and no memory is taken. Under another one all connections end.
    pub(crate) fn attach(&mut self, name: &str) {
        if self.is_attached(name) {
            return;
        }
        self.open = None;
        self.peers = VsockPeers::new(self.rt.alloc());
        self.pause = Pause::new(Duration::from_millis(LISTEN_PAUSE));
        self.name = TextList::copy_of(self.rt.alloc(), name).ok();
        self.listen();
    }

    fn is_attached(&self, name: &str) -> bool {
        match &self.name {
            Some(kept) => kept.as_str() == name,
            None => false,
        }
    }

    // Listens, if that can be had now.
    fn listen(&mut self) {
        let Some(name) = &self.name else {
            return;
        };
        if self.open.is_some() || !self.pause.is_over(self.rt) {
            return;
        }
        if let Ok(file) = SocketFile::bind(self.rt, name.as_str(), TRIES_EACH_TIME) {
            self.bell.watch(file.listener.as_raw_fd());
            self.open = Some(file);
        }
    }

    // Where one more may come.
    fn door(&mut self) -> RawFd {
        match &self.open {
            Some(file) if self.peers.make_room() => file.listener.as_raw_fd(),
            _ => NO_DESCRIPTOR,
        }
    }

    /// The next of what happened, if anything has.
    pub(crate) fn next_event(&mut self) -> io::Result<HostEvent>
        ensures { IfOk result IsEvent }
    {
        self.listen();
        self.peers.flush(self.bell);
        let door = self.door();
        let seen = self.peers.look(door);
        let count = self.peers.count() + 1;
        let first = self.turn % count;
        for step in 0..count {
            let at = (first + step) % count;
            if !seen[at] {
                continue;
            }
            self.turn = at + 1;
            if let Some(event) = self.tell(at)? {
                return Ok(event);
            }
        }
        if self.open.is_some() {
            Ok(HostEvent::Nothing)
        } else {
            Err(io::Error::from(ErrorKind::NotConnected))
        }
    }

    // What the door tells, or the connection behind it.
    fn tell(&mut self, at: usize) -> io::Result<Option<HostEvent>>
        ensures { IfOk result (λ told. IfSome told IsEvent) }
    {
        match at.checked_sub(1) {
            Some(place) => Ok(self.peers.tell(place)),
            None => self.accept(),
        }
    }

    // Who comes is taken, if nobody has given up meanwhile.
    fn accept(&mut self) -> io::Result<Option<HostEvent>>
        ensures { IfOk result (λ told. IfSome told IsEvent) }
    {
        let Some(file) = &self.open else {
            return Ok(None);
        };
        let stream = match file.listener.accept() {
            Ok((stream, _)) => stream,
            Err(e) if is_nobody(&e) => return Ok(None),
            Err(e) => return Err(e),
        };
        stream.set_nonblocking(true)?;
        let connection = self.peers.add(self.bell, stream)?;
        Ok(Some(HostEvent::New { connection }))
    }

    /// Who listens at the port's socket is asked for a connection.
    pub(crate) fn dial_port(&mut self, port: u32) -> io::Result<Option<u32>> {
        let Some(name) = &self.name else {
            return Err(io::Error::from(ErrorKind::NotConnected));
        };
        let name = port_name(self.rt.alloc(), name.as_str(), port)?;
        if !self.peers.make_room() {
            return Err(io::Error::from(ErrorKind::OutOfMemory));
        }
        match dial(self.rt, name.as_str()) {
            Ok(stream) => Ok(Some(self.peers.add(self.bell, stream)?)),
            Err(e) if is_absent(&e) => Ok(None),
            Err(e) => Err(e),
        }
    }

    /// Sends bytes on the connection of this number. Where it fails, that one is gone.
    pub(crate) fn send(&mut self, connection: u32, bytes: &[u8]) -> io::Result<()> {
        self.peers.send(self.bell, connection, bytes)
    }

    /// Closes the connection of this number, which stays while something is unsent.
    pub(crate) fn close(&mut self, connection: u32) -> io::Result<()> {
        self.peers.close(connection)
    }
}

// The name of the socket at which a port of the host is.
fn port_name(alloc: Global, name: &str, port: u32) -> Result<String, AllocError> {
    let mut text = String::from_str(alloc, name)?;
    text.push_str("_")?;
    text.push_str(Buffer::new().format(port))?;
    Ok(text)
}

// Whether nobody listens there, or has room for one more.
fn is_absent(e: &io::Error) -> bool {
    matches!(
        e.kind(),
        ErrorKind::NotFound | ErrorKind::ConnectionRefused | ErrorKind::WouldBlock
    )
}
