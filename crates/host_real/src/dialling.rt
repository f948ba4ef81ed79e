// Dialling a peer without waiting for it.
use mio::net::UnixStream as UnwaitingStream;
use std::net::Net;
use std::os::unix::net::UnixStream;
use std::time::Duration;
use std::{io, rt};

/// A connection to the socket of this name, on which nothing waits. That nobody listens there is an error, and so is that the
/// listener has no room for one more.
pub(crate) fn dial(net: &impl Net, name: &str) -> io::Result<UnixStream> {
    Ok(UnixStream::from(UnwaitingStream::connect(net, name)?))
}

/// How long what failed isn't tried again.
#[derive(Drop)]
pub(crate) struct Pause {
    length: Duration,
    end: Duration,
}

impl Pause {
    /// None has begun.
    pub(crate) fn new(length: Duration) -> Pause {
        Pause {
            length,
            end: Duration::ZERO,
        }
    }

    /// Whether there is none. Then one begins. Where the clock doesn't tell the time there is none.
    pub(crate) fn is_over<R: rt::Clock>(&mut self, rt: &R) -> bool {
        let Ok(now) = rt.monotonic() else {
            return true;
        };
        if now < self.end {
            return false;
        }
        self.end = now.saturating_add(self.length);
        true
    }
}
