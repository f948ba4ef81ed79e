// What a peer has not taken so far.
ghost use Rattle.std.specs.Prelude.{◌<◌, ◌^◌, length};

use link_frames::put_frame;
use outside_real::tries;
use std::alloc::{AllocError, Global};
use std::io;
use std::io::{ErrorKind, Write};

/// Bytes for a peer that nobody waits for.
#[derive(Drop)]
pub(crate) struct Unsent {
    bytes: Vec<u8>,
}

impl Unsent {
    pub(crate) fn new(alloc: Global) -> Unsent {
        Unsent {
            bytes: Vec::new(alloc),
        }
    }

    pub(crate) fn len(&self) -> usize {
        self.bytes.len()
    }

    pub(crate) fn is_empty(&self) -> bool {
        self.bytes.is_empty()
    }

    pub(crate) fn clear(&mut self) {
        self.bytes.clear();
    }

    /// Behind the others. After an `Err` a front of them may be there.
    pub(crate) fn push(&mut self, bytes: &[u8]) -> Result<(), AllocError> {
        self.bytes.extend_from_slice(bytes)
    }

    /// A frame of a link's stream, behind the others. After an `Err` a front of it may be there.
    pub(crate) fn push_frame(&mut self, frame: &[u8]) -> Result<(), AllocError>
        requires { length frame.now < 2 ^ 32 }
    {
        put_frame(&mut self.bytes, frame)
    }

    /// The peer is given as many as it takes at once, by one call that doesn't wait.
    pub(crate) fn send<W: Write>(&mut self, peer: &mut W) -> io::Result<()> {
        if self.bytes.is_empty() {
            return Ok(());
        }
        match tries::write_some(peer, &self.bytes) {
            Ok(count) => {
                self.bytes.drain(..count);
                Ok(())
            }
            Err(e) if e.kind() == ErrorKind::WouldBlock => Ok(()),
            Err(e) => Err(e),
        }
    }
}
