// What wakes who rests while nothing can run.
use crate::looking::{NO_DESCRIPTOR, rest_on};
use crate::watched::Watched;
use std::io::{Read, Write};
use std::net::Net;
use std::os::unix::io::{AsRawFd, RawFd};
use std::os::unix::net::UnixStream;
use std::sync::atomic::{AtomicBool, AtomicI32, AtomicU64, Ordering};
use std::time::Duration;
use std::{io, rt, thread};

/// How long a rest takes where no descriptors were left for the bell, in milliseconds.
const BLIND_REST: u64 = 1;

/// Who rests is woken by it where something came on the connection. Where another thread reads of that, it rings the bell, and
/// quiets it. Where none does, what comes wakes by itself, and so does the moment at which the reader wants to look again.
///
/// A client at the door, which is the listening socket, wakes while nobody is connected, and else until the reader knows of it.
///
/// What comes on a descriptor that is watched wakes once. Who rests looks there again after each rest.
#[derive(Drop)]
pub struct Bell {
    ends: Option<Ends>,
    is_rung: AtomicBool,
    /// Whether a byte was sent for that.
    is_sent: AtomicBool,
    is_resting: AtomicBool,
    has_rested: AtomicBool,
    door: AtomicI32,
    client: AtomicI32,
    is_heard: AtomicBool,
    is_awaited: AtomicBool,
    /// In nanoseconds of the clock.
    next_look: AtomicU64,
}

#[derive(Drop)]
struct Ends {
    near: UnixStream,
    far: UnixStream,
    watched: Watched,
}

impl Bell {
    /// Without descriptors for it, nobody is woken, and each rest is a millisecond.
    pub fn new(net: &impl Net) -> Bell {
        Bell {
            ends: make_pair(net).ok(),
            is_rung: AtomicBool::new(false),
            is_sent: AtomicBool::new(false),
            is_resting: AtomicBool::new(false),
            has_rested: AtomicBool::new(false),
            door: AtomicI32::new(NO_DESCRIPTOR),
            client: AtomicI32::new(NO_DESCRIPTOR),
            is_heard: AtomicBool::new(false),
            is_awaited: AtomicBool::new(false),
            next_look: AtomicU64::new(u64::MAX),
        }
    }

    /// Wakes who rests, now and until it is quieted.
    pub(crate) fn ring(&self) {
        self.is_rung.store(true, Ordering::SeqCst);
        // (who rests says so first, and then looks whether it is rung)
        if !self.is_resting() || self.is_sent.swap(true, Ordering::SeqCst) {
            return;
        }
        if let Some(ends) = &self.ends {
            let _sent = (&ends.far).write(&[1]);
        }
    }

    pub(crate) fn quiet(&self) {
        self.is_rung.store(false, Ordering::SeqCst);
        if !self.is_sent.swap(false, Ordering::SeqCst) {
            return;
        }
        if let Some(ends) = &self.ends {
            let _read = (&ends.near).read(&mut [0; 8]);
        }
    }

    /// Clients come at this socket from now on.
    pub(crate) fn set_door(&self, door: RawFd) {
        self.door.store(door, Ordering::SeqCst);
    }

    pub(crate) fn door(&self) -> RawFd {
        self.door.load(Ordering::SeqCst)
    }

    /// This client is connected, or none.
    pub(crate) fn set_client(&self, client: RawFd) {
        self.client.store(client, Ordering::SeqCst);
    }

    /// Whether a thread waits for the client, which then wakes nobody by itself.
    pub(crate) fn set_heard(&self, is_heard: bool) {
        self.is_heard.store(is_heard, Ordering::SeqCst);
    }

    /// The client's reader wants to look again at this moment at the latest, and knows of a client at the door or doesn't.
    pub(crate) fn expect(&self, next_look: Duration, is_awaited: bool) {
        let nanos = u64::try_from(next_look.as_nanos()).unwrap_or(u64::MAX);
        self.next_look.store(nanos, Ordering::SeqCst);
        self.is_awaited.store(is_awaited, Ordering::SeqCst);
    }

    /// What has come on this descriptor wakes, and what comes from now on. Where there is no memory for that it doesn't.
    pub(crate) fn watch(&self, fd: RawFd) {
        if let Some(ends) = &self.ends {
            let _added = ends.watched.add(fd);
        }
    }

    /// The same of one that is watched, again; and where it waits for room, that there is some wakes too.
    pub(crate) fn watch_again(&self, fd: RawFd, waits_for_room: bool) {
        if let Some(ends) = &self.ends {
            let _renewed = ends.watched.renew(fd, waits_for_room);
        }
    }

    /// Whether somebody rests.
    pub(crate) fn is_resting(&self) -> bool {
        self.is_resting.load(Ordering::SeqCst)
    }

    /// Whether somebody has rested since this was asked last.
    pub(crate) fn take_rested(&self) -> bool {
        self.has_rested.swap(false, Ordering::SeqCst)
    }

    /// Returns where somebody is to be woken, and after so much time at the latest; up to a millisecond of it may be left then.
    pub(crate) fn rest<R: rt::Clock>(&self, rt: &R, most: Duration) {
        self.rest_for(rt, most);
        self.has_rested.store(true, Ordering::SeqCst);
    }

    fn rest_for<R: rt::Clock>(&self, rt: &R, most: Duration) {
        let Some(ends) = &self.ends else {
            let blind = Duration::from_millis(BLIND_REST);
            return thread::sleep(rt, most.min(blind));
        };
        let tick = Duration::from_millis(1);
        if most <= tick {
            return thread::sleep(rt, most);
        }
        // (a look may last a tick longer)
        let most = most.saturating_sub(tick).min(self.time_to_look(rt));
        self.is_resting.store(true, Ordering::SeqCst);
        if !self.is_rung.load(Ordering::SeqCst) {
            let near = ends.near.as_raw_fd();
            let watched = ends.watched.as_raw_fd();
            rest_on(
                [near, self.waking_client(), self.waking_door(), watched],
                most,
            );
            ends.watched.forget();
        }
        self.is_resting.store(false, Ordering::SeqCst);
    }

    // How much time is left until the client's reader wants to look again.
    fn time_to_look<R: rt::Clock>(&self, rt: &R) -> Duration {
        if self.waking_client() == NO_DESCRIPTOR {
            return Duration::MAX;
        }
        match rt.monotonic() {
            Ok(now) => {
                Duration::from_nanos(self.next_look.load(Ordering::SeqCst)).saturating_sub(now)
            }
            Err(_) => Duration::MAX,
        }
    }

    fn is_connected(&self) -> bool {
        self.client.load(Ordering::SeqCst) != NO_DESCRIPTOR
    }

    fn waking_client(&self) -> RawFd {
        if self.is_heard.load(Ordering::SeqCst) {
            NO_DESCRIPTOR
        } else {
            self.client.load(Ordering::SeqCst)
        }
    }

    fn waking_door(&self) -> RawFd {
        let is_known = self.is_heard.load(Ordering::SeqCst)
            || self.is_awaited.load(Ordering::SeqCst);
        if self.is_connected() && is_known {
            NO_DESCRIPTOR
        } else {
            self.door()
        }
    }
}

// Neither end waits, and nothing is watched.
fn make_pair(net: &impl Net) -> io::Result<Ends> {
    let (near, far) = UnixStream::pair(net)?;
    near.set_nonblocking(true)?;
    far.set_nonblocking(true)?;
    let watched = Watched::new(net)?;
    Ok(Ends { near, far, watched })
}
