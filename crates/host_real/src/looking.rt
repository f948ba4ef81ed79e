// What the system tells of descriptors: whether something has come on them.
use libc::net::{POLLHUP, POLLIN, poll};
use outside_real::polling::{millis_of, question};
use std::os::unix::io::RawFd;
use std::time::Duration;

/// The number of no descriptor, of which nothing is ever told.
pub(crate) const NO_DESCRIPTOR: RawFd = -1;

/// What was told of two descriptors in one look.
#[derive(Clone, Copy, Drop)]
pub(crate) struct Seen {
    /// Whether a read of the first one finds something at once: bytes, its end or a failure.
    pub(crate) is_ready: bool,
    /// Whether the other end of the first one is gone altogether.
    pub(crate) is_gone: bool,
    /// Whether a read of the second one, or an accept, finds something at once.
    pub(crate) is_second_ready: bool,
}

/// Waits until one of the two is ready, and looks at both. It waits for so long at most, or to the end of the millisecond in
/// which that ends. A signal cuts the wait off.
pub(crate) fn look(first: RawFd, second: RawFd, most: Duration) -> Seen {
    let mut asked = [question(first, POLLIN), question(second, POLLIN)];
    poll(&mut asked, millis_of(most));
    Seen {
        is_ready: asked[0].revents != 0,
        is_gone: asked[0].revents & POLLHUP != 0,
        is_second_ready: asked[1].revents != 0,
    }
}

/// Waits so until one of four is ready.
pub(crate) fn rest_on(fds: [RawFd; 4], most: Duration) {
    let mut asked = fds.map(|fd| question(fd, POLLIN));
    poll(&mut asked, millis_of(most));
}
