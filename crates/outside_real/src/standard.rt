// The descriptors 0, 1 and 2, which are the input, the output and the place for errors.
use crate::polling::question;
use libc::net::{POLLNVAL, poll};
use std::fs::{File, OpenOptions};
use std::os::unix::io::IntoRawFd;
use std::{io, rt};

const NULL_DEVICE: &str = "/dev/null";

/// Opens those of the three that are closed on the null device, for good. To be called before anything is opened: else a
/// file or a socket could get one of these numbers, and what goes to the output would come to it. It is an error where the
/// null device can't be opened.
pub fn fill_standard<R: rt::Files<File = File>>(rt: &R) -> io::Result<()> {
    for _ in 0..3 {
        if !is_any_closed() {
            return Ok(());
        }
        let null = OpenOptions::new()
            .read(true)
            .write(true)
            .open(rt, NULL_DEVICE)?;
        // It has the lowest number that was free, and keeps it until the process ends.
        let _number = null.into_raw_fd();
    }
    Ok(())
}

fn is_any_closed() -> bool {
    let mut asked = [question(0, 0), question(1, 0), question(2, 0)];
    poll(&mut asked, 0);
    asked.iter().any(|one| one.revents & POLLNVAL != 0)
}
