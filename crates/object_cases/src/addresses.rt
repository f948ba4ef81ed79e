// What stands at a name that is to be listened on, or takes it meanwhile.
use crate::showing::{Shown, text_of};
use host_real::{Bell, SocketListener};
use serve_host::Listener;
use std::os::unix::fs::symlink;
use std::os::unix::net::UnixListener;
use std::{fs, io};

const NAME: &str = "address";

pub fn show(rt: &HostRuntime, shown: &mut Shown) -> io::Result<()> {
    show_file(rt, shown)?;
    fs::create_dir(rt, NAME)?;
    show_listen(rt, "address: a folder, failed", shown);
    fs::remove_dir(rt, NAME)?;
    show_link(rt, shown)?;
    show_taken(rt, shown)
}

// A file stays as it is.
fn show_file(rt: &HostRuntime, shown: &mut Shown) -> io::Result<()> {
    fs::write(rt, NAME, "kept")?;
    show_listen(rt, "address: a file, failed", shown);
    show_held(rt, shown)?;
    fs::remove_file(rt, NAME)
}

// A link stays, and the socket that it leads to, on which nobody listens.
fn show_link(rt: &HostRuntime, shown: &mut Shown) -> io::Result<()> {
    drop(UnixListener::bind(rt, "left")?);
    symlink(rt, "left", NAME)?;
    show_listen(rt, "address: a link, failed", shown);
    fs::remove_file(rt, NAME)?;
    fs::remove_file(rt, "left")
}

// A file that has taken the socket's name stays when the listener goes.
fn show_taken(rt: &HostRuntime, shown: &mut Shown) -> io::Result<()> {
    let bell = Bell::new(rt);
    take_name(rt, &mut SocketListener::new(rt, &bell), shown)?;
    show_held(rt, shown)?;
    fs::remove_file(rt, NAME)
}

fn take_name(
    rt: &HostRuntime,
    listener: &mut SocketListener<'_, HostRuntime>,
    shown: &mut Shown,
) -> io::Result<()> {
    shown.show("address: none", &listener.listen(NAME));
    fs::remove_file(rt, NAME)?;
    fs::write(rt, NAME, "other")
}

fn show_listen(rt: &HostRuntime, done: &str, shown: &mut Shown) {
    let bell = Bell::new(rt);
    let mut listener = SocketListener::new(rt, &bell);
    let came = listener.listen(NAME);
    shown.show_two(done, &came, &listener.faults());
}

fn show_held(rt: &HostRuntime, shown: &mut Shown) -> io::Result<()> {
    let bytes = fs::read(rt, NAME)?;
    shown.show("address: holds", &text_of(&bytes));
    Ok(())
}
