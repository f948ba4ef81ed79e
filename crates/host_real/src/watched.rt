// Descriptors whose next change is told.
use crate::status::done;
use libc::net::{EPOLL_CTL_ADD, EPOLL_CTL_MOD, EPOLLET, EPOLLIN, EPOLLOUT};
use mio::Poll;
use os::{EpollEvent, epoll_ctl, epoll_wait};
use std::io;
use std::net::Net;
use std::os::unix::io::{AsRawFd, RawFd};

/// So many changes are forgotten at once.
const AT_ONCE: usize = 64;

/// A set of descriptors. A change of one of them is told once: the set's own descriptor is ready from then on until all changes are
/// forgotten. One that is closed leaves the set.
#[derive(Drop)]
pub(crate) struct Watched {
    set: Poll,
}

impl Watched {
    pub(crate) fn new(net: &impl Net) -> io::Result<Watched> {
        Ok(Watched {
            set: Poll::new(net)?,
        })
    }

    /// What has come on this descriptor, and what comes from now on, is a change.
    pub(crate) fn add(&self, fd: RawFd) -> io::Result<()> {
        done(epoll_ctl(
            self.set.as_raw_fd(),
            EPOLL_CTL_ADD,
            fd,
            EPOLLET | EPOLLIN,
            0,
        ))
    }

    /// The same of one that is in the set, told anew; and where it waits for room, that it can be written is a change too.
    pub(crate) fn renew(&self, fd: RawFd, waits_for_room: bool) -> io::Result<()> {
        let room = if waits_for_room { EPOLLOUT } else { 0 };
        done(epoll_ctl(
            self.set.as_raw_fd(),
            EPOLL_CTL_MOD,
            fd,
            EPOLLET | EPOLLIN | room,
            0,
        ))
    }

    /// Forgets the changes up to now, or so many of them that who looks again soon forgets the others.
    pub(crate) fn forget(&self) {
        let mut changes = [EpollEvent { events: 0, data: 0 }; AT_ONCE];
        epoll_wait(self.set.as_raw_fd(), &mut changes, 0);
    }
}

impl AsRawFd for Watched {
    fn as_raw_fd(&self) -> RawFd {
        self.set.as_raw_fd()
    }
}
