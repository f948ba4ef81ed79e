// The host's end of the vsock device over real sockets: who connects, who is dialled, and peers that hurt only themselves.
use crate::showing::{Shown, waited_for};
use host_real::{Bell, SystemClock, VsockSockets};
use std::io::{ErrorKind, Read, Write};
use std::net::Shutdown;
use std::os::unix::net::{UnixListener, UnixStream};
use std::time::{Duration, Instant};
use std::{fs, io, thread};
use vm_host::{Clock, HostEvent, VsockHost};
use vm_outside::Failed;
use vm_types::Piece;

const NAME: &str = "vsock";

const PORT: &str = "vsock_7";

/// More pieces than are kept for a peer and its socket holds.
const MANY: u32 = 100_000;

/// So many connect at once.
const CROWD: usize = 200;

pub fn show(rt: &HostRuntime, shown: &mut Shown) -> io::Result<()> {
    let bell = Bell::new(rt);
    let mut host = VsockSockets::new(rt, &bell);
    shown.show("vsock: next of no socket", &host.next().is_err());
    host.attach(0, NAME);
    shown.show("vsock: listens", &fs::exists(rt, NAME)?);
    show_event(&mut host, shown);
    show_caller(rt, &mut host, shown)?;
    show_dialled(rt, &mut host, shown)?;
    show_slow(rt, &mut host, shown)?;
    show_closed(rt, &mut host, shown)?;
    show_rest(rt, &bell, &mut host, shown)?;
    show_crowd(rt, &mut host, shown)?;
    show_second(rt, &bell, host, shown)?;
    shown.show("vsock: stands at the end", &fs::exists(rt, NAME)?);
    Ok(())
}

fn show_event(host: &mut VsockSockets<'_, HostRuntime>, shown: &mut Shown) {
    match &host.next() {
        Ok(HostEvent::Bytes { connection, piece }) => {
            shown.show("vsock: bytes", &(*connection, piece.len()));
        }
        Ok(event) => shown.show("vsock: next", event),
        Err(Failed) => shown.show("vsock: next", &Failed),
    }
}

fn piece() -> Piece {
    Piece::from_slice(&[5; 64])
}

// Somebody connects, asks and is told, and closes one direction.
fn show_caller(
    rt: &HostRuntime,
    host: &mut VsockSockets<'_, HostRuntime>,
    shown: &mut Shown,
) -> io::Result<()> {
    let mut caller = UnixStream::connect(rt, NAME)?;
    show_event(host, shown);
    show_event(host, shown);
    caller.write_all(&[b'C'; 100])?;
    show_event(host, shown);
    show_event(host, shown);
    shown.show("vsock: send", &host.send(0, piece()));
    shown.show("vsock: the caller reads", &caller.read(&mut [0; 100])?);
    caller.shutdown(Shutdown::Write)?;
    show_event(host, shown);
    show_event(host, shown);
    shown.show("vsock: send behind the end", &host.send(0, piece()));
    shown.show("vsock: close behind the end", &host.close(0));
    Ok(())
}

fn show_dialled(
    rt: &HostRuntime,
    host: &mut VsockSockets<'_, HostRuntime>,
    shown: &mut Shown,
) -> io::Result<()> {
    shown.show("vsock: dial, nobody there", &host.dial(7));
    let door = UnixListener::bind(rt, PORT)?;
    shown.show("vsock: dial", &host.dial(7));
    let (mut there, _) = door.accept()?;
    there.write_all(b"hello")?;
    show_event(host, shown);
    shown.show("vsock: close", &host.close(1));
    shown.show("vsock: the other end reads", &there.read(&mut [0; 8])?);
    drop(door);
    shown.show("vsock: dial where nobody listens", &host.dial(7));
    fs::remove_file(rt, PORT)
}

// One that doesn't read loses its connection, and no other one does.
fn show_slow(
    rt: &HostRuntime,
    host: &mut VsockSockets<'_, HostRuntime>,
    shown: &mut Shown,
) -> io::Result<()> {
    let _slow = UnixStream::connect(rt, NAME)?;
    show_event(host, shown);
    let mut other = UnixStream::connect(rt, NAME)?;
    show_event(host, shown);
    let start = Instant::now(rt)?;
    let sent = send_all(host, 2);
    shown.show(
        "vsock: more than is kept is sent",
        &(sent > 4_096 && sent < MANY),
    );
    shown.show("vsock: in no time", &waited_for(rt, start, 10_000)?);
    shown.show("vsock: it is gone", &host.send(2, piece()));
    shown.show("vsock: the other one stays", &host.send(3, piece()));
    shown.show("vsock: which reads", &other.read(&mut [0; 100])?);
    drop(other);
    show_event(host, shown);
    Ok(())
}

// So many pieces until a send fails.
fn send_all(host: &mut VsockSockets<'_, HostRuntime>, connection: u32) -> u32 {
    for sent in 0..MANY {
        if host.send(connection, piece()).is_err() {
            return sent;
        }
    }
    MANY
}

// What was sent before the close comes behind it.
fn show_closed(
    rt: &HostRuntime,
    host: &mut VsockSockets<'_, HostRuntime>,
    shown: &mut Shown,
) -> io::Result<()> {
    let mut caller = UnixStream::connect(rt, NAME)?;
    show_event(host, shown);
    for _ in 0..4_000 {
        let _sent = host.send(4, piece());
    }
    shown.show("vsock: close", &host.close(4));
    shown.show("vsock: send behind the close", &host.send(4, piece()));
    caller.set_nonblocking(true)?;
    let mut read: usize = 0;
    for _ in 0..1_000 {
        read = read.saturating_add(read_some(&mut caller)?);
        show_no_event(host, shown);
    }
    shown.show("vsock: all of it comes", &read);
    shown.show("vsock: and then the end", &caller.read(&mut [0; 8])?);
    Ok(())
}

fn read_some(caller: &mut UnixStream) -> io::Result<usize> {
    match caller.read(&mut [0; 4_096]) {
        Err(e) if e.kind() == ErrorKind::WouldBlock => Ok(0),
        read => read,
    }
}

fn show_no_event(host: &mut VsockSockets<'_, HostRuntime>, shown: &mut Shown) {
    match &host.next() {
        Ok(HostEvent::Nothing) => {}
        Ok(event) => shown.show("vsock: next", event),
        Err(Failed) => shown.show("vsock: next", &Failed),
    }
}

// Who comes ends a rest that would take a second, and so does what comes on a connection.
fn show_rest(
    rt: &HostRuntime,
    bell: &Bell,
    host: &mut VsockSockets<'_, HostRuntime>,
    shown: &mut Shown,
) -> io::Result<()> {
    let mut caller = UnixStream::connect(rt, NAME)?;
    let start = Instant::now(rt)?;
    SystemClock::new(rt, bell).rest(u64::MAX);
    show_event(host, shown);
    caller.write_all(b"more")?;
    SystemClock::new(rt, bell).rest(u64::MAX);
    show_event(host, shown);
    shown.show("vsock: rests are short", &waited_for(rt, start, 500)?);
    let start = Instant::now(rt)?;
    SystemClock::new(rt, bell).rest(300_000_000);
    shown.show("vsock: a rest is short", &waited_for(rt, start, 200)?);
    drop(caller);
    show_event(host, shown);
    Ok(())
}

// All connect, so many are taken, and one more where one is closed.
fn show_crowd(
    rt: &HostRuntime,
    host: &mut VsockSockets<'_, HostRuntime>,
    shown: &mut Shown,
) -> io::Result<()> {
    let mut crowd = Vec::new(rt.alloc());
    for _ in 0..CROWD {
        crowd.push(UnixStream::connect(rt, NAME)?)?;
    }
    let mut taken: u32 = 0;
    for _ in 0..CROWD {
        if let Ok(HostEvent::New { .. }) = host.next() {
            taken = taken.saturating_add(1);
        }
    }
    shown.show("vsock: of a crowd are taken", &taken);
    shown.show("vsock: close", &host.close(6));
    show_event(host, shown);
    show_event(host, shown);
    drop(crowd);
    let mut ended: u32 = 0;
    for _ in 0..1_000 {
        if let Ok(HostEvent::Ended { .. }) = host.next() {
            ended = ended.saturating_add(1);
        }
    }
    shown.show("vsock: in the end are gone", &ended);
    Ok(())
}

// Two can't listen under one name at once. When the first one is gone the second one does.
fn show_second(
    rt: &HostRuntime,
    bell: &Bell,
    first: VsockSockets<'_, HostRuntime>,
    shown: &mut Shown,
) -> io::Result<()> {
    let mut second = VsockSockets::new(rt, bell);
    second.attach(0, NAME);
    shown.show("vsock: a second one", &second.next().is_err());
    drop(first);
    shown.show("vsock: the first one's goes", &fs::exists(rt, NAME)?);
    thread::sleep(rt, Duration::from_millis(1_100));
    show_event(&mut second, shown);
    shown.show("vsock: the second one listens", &fs::exists(rt, NAME)?);
    Ok(())
}
