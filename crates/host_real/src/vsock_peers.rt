// All connections of the vsock device, at the host's end.
ghost use Rattle.std.specs.Prelude.{◌≤◌, IfSome};
ghost use Rattle.vm_host.specs.Hosting.{IsEvent};

use crate::bell::Bell;
use crate::looking::NO_DESCRIPTOR;
use crate::vsock_peer::VsockPeer;
use libc::net::{POLLIN, poll};
use outside_real::polling::question;
use std::alloc::Global;
use std::io;
use std::io::ErrorKind;
use std::os::unix::io::RawFd;
use std::os::unix::net::UnixStream;
use vm_host::HostEvent;

/// So many connections are held at most.
const MOST: usize = 128;

/// The connections, each of which has a number of its own. Some were closed, and stay for what is unsent.
#[derive(Drop)]
pub(crate) struct VsockPeers {
    alloc: Global,
    peers: Vec<VsockPeer>,
    next_number: u32,
}

impl VsockPeers {
    pub(crate) fn new(alloc: Global) -> VsockPeers {
        VsockPeers {
            alloc,
            peers: Vec::new(alloc),
            next_number: 0,
        }
    }

    /// How many there are, and no more than may be.
    pub(crate) fn count(&self) -> usize
        ensures { result ≤ 128 }
    {
        self.peers.len().min(MOST)
    }

    /// Whether one more may come, for which those that were closed make room.
    pub(crate) fn make_room(&mut self) -> bool {
        if self.peers.len() >= MOST {
            self.peers.retain(|peer| !peer.is_closed);
        }
        self.peers.len() < MOST
    }

    /// One more, on whose stream nothing waits. Its number is answered.
    pub(crate) fn add(&mut self, bell: &Bell, stream: UnixStream) -> io::Result<u32> {
        let number = self.take_number();
        let peer = VsockPeer::new(self.alloc, bell, number, stream);
        self.peers.push(peer)?;
        Ok(number)
    }

    // Of one number more than there are connections one is free.
    fn take_number(&mut self) -> u32 {
        for _tried in 0..self.peers.len() {
            let number = self.next_number;
            if !self.peers.iter().any(|peer| peer.number == number) {
                break;
            }
            self.next_number = number.wrapping_add(1);
        }
        let number = self.next_number;
        self.next_number = number.wrapping_add(1);
        number
    }

    /// Sends bytes on the one of this number. Where it fails, that one is gone.
    pub(crate) fn send(&mut self, bell: &Bell, number: u32, bytes: &[u8]) -> io::Result<()> {
        let sent = self.at(number)?.send(bell, bytes);
        if sent.is_err() {
            self.remove(number);
        }
        sent
    }

    /// Closes the one of this number, which stays while something is unsent.
    pub(crate) fn close(&mut self, number: u32) -> io::Result<()> {
        self.at(number)?.is_closed = true;
        self.peers.retain(|peer| !peer.is_over());
        Ok(())
    }

    // The one of this number, if it wasn't closed.
    fn at(&mut self, number: u32) -> io::Result<&mut VsockPeer> {
        match self
            .peers
            .iter_mut()
            .find(|peer| peer.number == number && !peer.is_closed)
        {
            Some(peer) => Ok(peer),
            None => Err(io::Error::from(ErrorKind::NotFound)),
        }
    }

    fn remove(&mut self, number: u32) {
        self.peers.retain(|peer| peer.number != number);
    }

    /// Sends on what is unsent. Those that were closed are gone once that is done, or fails.
    pub(crate) fn flush(&mut self, bell: &Bell) {
        for peer in self.peers.iter_mut() {
            let sent = peer.flush(bell);
            if sent.is_err() {
                peer.give_up();
            }
        }
        self.peers.retain(|peer| !peer.is_over());
    }

    /// One look, without a wait: whether somebody comes at the door, and of each connection whether it has something to tell.
    pub(crate) fn look(&self, door: RawFd) -> [bool; 129] {
        let mut asked = [question(NO_DESCRIPTOR, POLLIN); 129];
        asked[0].fd = door;
        for (one, peer) in asked[1..].iter_mut().zip(self.peers.iter()) {
            one.fd = peer.asked();
        }
        poll(&mut asked[..self.count() + 1], 0);
        asked.map(|one| one.revents != 0)
    }

    /// What the connection at this place tells, if it has something to tell. One that ends is gone.
    pub(crate) fn tell(&mut self, place: usize) -> Option<HostEvent>
        ensures { IfSome result IsEvent }
    {
        let event = self.peers.get_mut(place)?.read()?;
        if let HostEvent::Ended { connection } = &event {
            self.remove(*connection);
        }
        Some(event)
    }
}
