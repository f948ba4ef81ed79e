// What the system is asked of descriptors.
use libc::net::{POLLOUT, poll};
use libc::types::pollfd;
use std::os::unix::io::RawFd;
use std::time::Duration;

/// A question of one descriptor: whether any of these events is there.
pub fn question(fd: RawFd, events: i16) -> pollfd {
    pollfd {
        fd,
        events,
        revents: 0,
    }
}

/// So much time in milliseconds, rounded up, so that who looks again and again until then does so a few times, and not as often as
/// it can in the last one.
pub fn millis_of(most: Duration) -> i32 {
    i32::try_from(most.as_nanos().div_ceil(1_000_000)).unwrap_or(i32::MAX)
}

/// Whether a write waits for nobody, or fails: now, or before so much time is over. A signal cuts the wait off.
pub(crate) fn is_writable(fd: RawFd, most: Duration) -> bool {
    let mut asked = [question(fd, POLLOUT)];
    poll(&mut asked, millis_of(most));
    asked[0].revents != 0
}
