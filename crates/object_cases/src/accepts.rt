// What the system's accept may answer, by its error numbers, and what comes of that.
use crate::showing::{Shown, found};
use host_real::{Bell, as_accepted};
use std::fs::File;
use std::io;
use std::os::unix::io::OwnedFd;
use std::os::unix::net::UnixStream;
use vm_outside::Failed;

/// EAGAIN, ENOMEM, ENFILE, EMFILE, ECONNABORTED and ENOBUFS pass; EBADF, EINVAL, ENOTSOCK and EOPNOTSUPP don't.
const NUMBERS: [i32; 10] = [11, 12, 23, 24, 103, 105, 9, 22, 88, 95];

pub fn show(rt: &HostRuntime, shown: &mut Shown) -> io::Result<()> {
    let bell = Bell::new(rt);
    for number in NUMBERS {
        show_number(rt, &bell, number, shown);
    }
    let (_client, server) = UnixStream::pair(rt)?;
    shown.show("accept: a socket", &what_of(rt, &bell, Ok(server)));
    show_file(rt, &bell, shown)
}

fn show_number(rt: &HostRuntime, bell: &Bell, number: i32, shown: &mut Shown) {
    shown.text("accept: ");
    shown.value(&number);
    shown.text(" => ");
    shown.text(what_of(rt, bell, Err(io::Error::from_raw_os_error(number))));
    shown.text("\n");
}

fn show_file(rt: &HostRuntime, bell: &Bell, shown: &mut Shown) -> io::Result<()> {
    let file = File::open(rt, "/dev/null")?;
    let none = UnixStream::from(OwnedFd::from(file));
    shown.show("accept: no socket", &what_of(rt, bell, Ok(none)));
    Ok(())
}

fn what_of(rt: &HostRuntime, bell: &Bell, came: io::Result<UnixStream>) -> &'static str {
    found(&as_accepted(rt, bell, came).map_err(|_| Failed))
}
