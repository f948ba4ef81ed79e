// A connection of the vsock device, at the host's end.
ghost use Rattle.std.specs.Prelude.{IfSome};
ghost use Rattle.vm_host.specs.Hosting.{IsEvent};

use crate::bell::Bell;
use crate::looking::NO_DESCRIPTOR;
use crate::unsent::Unsent;
use outside_real::tries;
use std::alloc::Global;
use std::io;
use std::io::ErrorKind;
use std::os::unix::io::{AsRawFd, RawFd};
use std::os::unix::net::UnixStream;
use vm_host::HostEvent;
use vm_types::Piece;

/// So many bytes are kept at most for a peer that doesn't take them.
const MOST_UNSENT: usize = 262_144;

/// A stream of bytes both ways. No call waits.
#[derive(Drop)]
pub(crate) struct VsockPeer {
    pub(crate) number: u32,
    stream: UnixStream,
    unsent: Unsent,
    /// Whether it wakes who rests where it has room.
    waits_for_room: bool,
    /// Whether it was closed, and stays for what is unsent.
    pub(crate) is_closed: bool,
}

impl VsockPeer {
    /// The stream is one on which nothing waits. What comes on it wakes who rests at the bell.
    pub(crate) fn new(alloc: Global, bell: &Bell, number: u32, stream: UnixStream) -> VsockPeer {
        bell.watch(stream.as_raw_fd());
        VsockPeer {
            number,
            stream,
            unsent: Unsent::new(alloc),
            waits_for_room: false,
            is_closed: false,
        }
    }

    /// The descriptor that is asked whether something has come. Of one that was closed nothing more is to come.
    pub(crate) fn asked(&self) -> RawFd {
        if self.is_closed {
            NO_DESCRIPTOR
        } else {
            self.stream.as_raw_fd()
        }
    }

    /// What comes of it next, if anything has come. A failure is its end.
    pub(crate) fn read(&mut self) -> Option<HostEvent>
        ensures { IfSome result IsEvent }
    {
        let connection = self.number;
        let mut bytes = [0; 64];
        match tries::read_some(&mut self.stream, &mut bytes) {
            Ok(0) => Some(HostEvent::Ended { connection }),
            Ok(count) => {
                let piece = Piece::from_slice(&bytes[..count]);
                Some(HostEvent::Bytes { connection, piece })
            }
            Err(e) if e.kind() == ErrorKind::WouldBlock => None,
            Err(_) => Some(HostEvent::Ended { connection }),
        }
    }

    /// Sends these bytes behind what is unsent. It is an error where the peer is gone, and where it takes too little.
    pub(crate) fn send(&mut self, bell: &Bell, bytes: &[u8]) -> io::Result<()> {
        if bytes.len() > MOST_UNSENT.saturating_sub(self.unsent.len()) {
            return Err(io::Error::from(ErrorKind::WouldBlock));
        }
        self.unsent.push(bytes)?;
        self.flush(bell)
    }

    /// Sends what the peer takes now of what is unsent. While something is, that there is room for more wakes who rests at the bell.
    pub(crate) fn flush(&mut self, bell: &Bell) -> io::Result<()> {
        let sent = self.unsent.send(&mut self.stream);
        let waits_for_room = sent.is_ok() && !self.unsent.is_empty();
        if waits_for_room != self.waits_for_room {
            self.waits_for_room = waits_for_room;
            bell.watch_again(self.stream.as_raw_fd(), waits_for_room);
        }
        sent
    }

    /// Nothing is unsent any more.
    pub(crate) fn give_up(&mut self) {
        self.unsent.clear();
    }

    /// Whether it has nothing more to do: it was closed, and nothing is unsent.
    pub(crate) fn is_over(&self) -> bool {
        self.is_closed && self.unsent.is_empty()
    }
}
