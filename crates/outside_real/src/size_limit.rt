// The process's limit on the size of a file. The system ends a process that writes past it by a signal, SIGXFSZ, so the limit
// is asked before each write.
use libc::types::rlimit;
use std::io;

/// Linux's number of this limit.
const RLIMIT_FSIZE: i32 = 1;

/// An error where a file that is written from this offset on would grow past the limit. Where the system doesn't tell the
/// limit there is none.
pub fn within_limit(at: u64, count: usize) -> io::Result<()> {
    match at.checked_add(count as u64) {
        Some(end) if end <= size_limit() => Ok(()),
        _ => Err(io::Error::from_raw_os_error(libc::EFBIG)),
    }
}

fn size_limit() -> u64 {
    let mut limit = rlimit {
        rlim_cur: u64::MAX,
        rlim_max: u64::MAX,
    };
    if libc::getrlimit(RLIMIT_FSIZE, &mut limit) == 0 {
        limit.rlim_cur
    } else {
        u64::MAX
    }
}
