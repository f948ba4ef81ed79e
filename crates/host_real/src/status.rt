// The statuses of system calls that tell of a failure by them.
use std::io;

/// An error, the system's, where the status of a call is not 0.
pub(crate) fn done(status: i32) -> io::Result<()> {
    if status == 0 {
        Ok(())
    } else {
        Err(io::Error::from_raw_os_error(os::errno()))
    }
}
