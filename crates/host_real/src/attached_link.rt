// The link of one device.
ghost use Rattle.std.specs.Prelude.{◌≡◌, IfOk, IfSome, length};
ghost use Rattle.vm_host.specs.Framing.{AreFrameLengths};

use crate::bell::Bell;
use crate::dialling::Pause;
use crate::link_peer::{LONGEST, LinkPeer};
use link_frames::piece_of;
use std::alloc::Global;
use std::io::ErrorKind;
use std::net::Net;
use std::time::Duration;
use std::{io, rt};
use vm_types::{Piece, TextList};

/// A peer that isn't there is dialled no more often, in milliseconds.
const DIAL_PAUSE: u64 = 100;

/// Its peer stays until the stream ends or fails. Then what had come of a frame is dropped, and the peer is dialled anew.
#[derive(Drop)]
pub(crate) struct AttachedLink {
    pub(crate) device: u8,
    name: TextList,
    peer: Option<LinkPeer>,
    pause: Pause,
    /// The frame that was taken last.
    taken: Vec<u8>,
    /// The parts that were sent of one that isn't whole.
    begun: Vec<u8>,
}

impl AttachedLink {
    /// No peer was dialled so far.
    pub(crate) fn new(alloc: Global, device: u8, name: TextList) -> AttachedLink {
        AttachedLink {
            device,
            name,
            peer: None,
            pause: Pause::new(Duration::from_millis(DIAL_PAUSE)),
            taken: Vec::new(alloc),
            begun: Vec::new(alloc),
        }
    }

    pub(crate) fn name(&self) -> &str {
        self.name.as_str()
    }

    /// The peer, which is dialled where there is none, unless that was just done.
    pub(crate) fn peer<R: Net + rt::Clock + AllocGlobal>(
        &mut self,
        rt: &R,
        bell: &Bell,
    ) -> io::Result<&mut LinkPeer> {
        if self.peer.is_none() && self.pause.is_over(rt) {
            let peer = LinkPeer::dial(rt, rt.alloc(), bell, self.name.as_str())?;
            self.peer = Some(peer);
        }
        match &mut self.peer {
            Some(peer) => Ok(peer),
            None => Err(io::Error::from(ErrorKind::NotConnected)),
        }
    }

    /// Takes the next frame, if one has come, and answers its length.
    pub(crate) fn take<R: Net + rt::Clock + AllocGlobal>(
        &mut self,
        rt: &R,
        bell: &Bell,
    ) -> io::Result<Option<u32>>
        ensures { IfOk result AreFrameLengths }
    {
        let came = self.peer(rt, bell)?.next_frame(bell);
        match came {
            Ok(Some(frame)) => {
                let count = frame.len() as u32;
                self.taken = frame;
                Ok(Some(count))
            }
            Ok(None) => Ok(None),
            Err(e) => {
                self.peer = None;
                Err(e)
            }
        }
    }

    /// So many bytes of the frame that was taken, from its piece of 64 bytes with this number on.
    pub(crate) fn part(&self, index: u64, count: usize) -> io::Result<Piece>
        ensures { IfOk result (λ piece. length piece ≡ count) }
    {
        match piece_of(&self.taken, index, count) {
            Some(piece) => Ok(piece),
            None => Err(io::Error::from(ErrorKind::InvalidInput)),
        }
    }

    /// The next bytes of a frame, which are kept until it is whole. After an `Err` none are.
    pub(crate) fn send_part<R: Net + rt::Clock + AllocGlobal>(
        &mut self,
        rt: &R,
        bell: &Bell,
        bytes: &[u8],
    ) -> io::Result<()> {
        let kept = self.keep(rt, bell, bytes);
        if kept.is_err() {
            self.begun.clear();
        }
        kept
    }

    // Where there is no peer, nothing is.
    fn keep<R: Net + rt::Clock + AllocGlobal>(
        &mut self,
        rt: &R,
        bell: &Bell,
        bytes: &[u8],
    ) -> io::Result<()> {
        self.peer(rt, bell)?;
        if bytes.len() > LONGEST.saturating_sub(self.begun.len()) {
            return Err(io::Error::from(ErrorKind::InvalidInput));
        }
        self.begun.extend_from_slice(bytes)?;
        Ok(())
    }

    /// Sends the frame whose bytes are kept. None are from now on.
    pub(crate) fn send_end<R: Net + rt::Clock + AllocGlobal>(
        &mut self,
        rt: &R,
        bell: &Bell,
    ) -> io::Result<()> {
        let sent = self.send_begun(rt, bell);
        self.begun.clear();
        sent
    }

    fn send_begun<R: Net + rt::Clock + AllocGlobal>(
        &mut self,
        rt: &R,
        bell: &Bell,
    ) -> io::Result<()> {
        self.peer(rt, bell)?;
        let sent = match &mut self.peer {
            Some(peer) => peer.send_frame(&self.begun),
            None => Ok(false),
        };
        match sent {
            Ok(true) => Ok(()),
            Ok(false) => Err(io::Error::from(ErrorKind::WouldBlock)),
            Err(e) => {
                self.peer = None;
                Err(e)
            }
        }
    }
}
