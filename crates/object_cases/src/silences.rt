// Clients that are silent while another one waits, that are gone, and what a rest is woken by.
use crate::showing::{Shown, found};
use host_real::{Bell, SocketConn, SocketListener, SystemClock};
use serve_host::{Accepted, Conn, Got, Listener, put_all};
use std::io::{Read, Write};
use std::os::unix::fs::PermissionsExt;
use std::os::unix::net::UnixStream;
use std::time::{Duration, Instant};
use std::{fs, io, rt};
use vm_host::Clock;
use vm_outside::Failed;

const NAME: &str = "silence";

// More reads of nothing than a hundred milliseconds have, where none of them ends the connection.
const MOST_READS: u32 = 1_000;

pub fn show(rt: &HostRuntime, shown: &mut Shown) -> io::Result<()> {
    let bell = Bell::new(rt);
    let mut listener = SocketListener::new(rt, &bell);
    shown.show("silence: listen", &listener.listen(NAME));
    let mode = fs::metadata(rt, NAME)?.permissions().mode() & 0o777;
    shown.show("silence: its owner's alone", &(mode == 0o600));
    show_silent(rt, &mut listener, shown)?;
    show_gone(rt, &mut listener, shown)?;
    show_rest(rt, &bell, shown)
}

// It has its answer and is silent; another one waits, and comes when it is ended.
fn show_silent(
    rt: &HostRuntime,
    listener: &mut SocketListener<'_, HostRuntime>,
    shown: &mut Shown,
) -> io::Result<()> {
    let mut client = UnixStream::connect(rt, NAME)?;
    client.write_all(b"ask")?;
    let came = listener.accept();
    let _other = UnixStream::connect(rt, NAME)?;
    if let Ok(Accepted::Conn(mut conn)) = came {
        shown.show("silence: read", &conn.read(&mut [0; 4]));
        shown.show("silence: put", &put_all(&mut conn, b"told"));
        shown.show("silence: read until it fails", &read_on(&mut conn));
        shown.show("silence: the client writes", &client.write(b"more").is_ok());
        listener.end(conn);
    }
    shown.show("silence: the client reads", &client.read(&mut [0; 8])?);
    shown.show("silence: the other", &found(&listener.accept()));
    Ok(())
}

// The first read that finds something, or fails.
fn read_on<R: rt::Clock>(conn: &mut SocketConn<'_, R>) -> Result<Got, Failed> {
    for _ in 0..MOST_READS {
        match conn.read(&mut [0; 4]) {
            Ok(Got::NotYet) => {}
            came => return came,
        }
    }
    Ok(Got::NotYet)
}

// It asks and leaves before its first byte is read.
fn show_gone(
    rt: &HostRuntime,
    listener: &mut SocketListener<'_, HostRuntime>,
    shown: &mut Shown,
) -> io::Result<()> {
    let mut client = UnixStream::connect(rt, NAME)?;
    client.write_all(b"ask")?;
    drop(client);
    if let Ok(Accepted::Conn(mut conn)) = listener.accept() {
        shown.show("silence: one that is gone", &conn.read(&mut [0; 4]));
        listener.end(conn);
    }
    Ok(())
}

// A client at the door ends a rest that would take a second.
fn show_rest(rt: &HostRuntime, bell: &Bell, shown: &mut Shown) -> io::Result<()> {
    let _client = UnixStream::connect(rt, NAME)?;
    let start = Instant::now(rt)?;
    SystemClock::new(rt, bell).rest(u64::MAX);
    shown.show(
        "silence: a rest is short",
        &(start.elapsed(rt)? < Duration::from_millis(500)),
    );
    Ok(())
}
