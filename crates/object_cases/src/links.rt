// Links over real sockets: peers that are not there, go away and come back, don't read, or send what is no frame.
use crate::showing::{Shown, alike, waited_for};
use host_real::{Bell, LinkSockets, SystemClock};
use std::io::{ErrorKind, Read, Write};
use std::os::unix::net::{UnixListener, UnixStream};
use std::time::{Duration, Instant};
use std::{fs, io, thread};
use vm_host::{Clock, Link};
use vm_outside::Failed;
use vm_types::Piece;

const NAME: &str = "link";

/// More than the pause before a peer is dialled anew, in milliseconds.
const PAUSE: u64 = 120;

/// More frames than a socket holds that nobody reads.
const MANY: u32 = 100_000;

pub fn show(rt: &HostRuntime, shown: &mut Shown) -> io::Result<()> {
    let bell = Bell::new(rt);
    let mut links = LinkSockets::new(rt, &bell);
    shown.show("link: take of no link", &links.take(0));
    links.attach(0, NAME);
    shown.show("link: take, nobody there", &links.take(0));
    shown.show("link: send, nobody there", &send(&mut links, 60));
    let door = UnixListener::bind(rt, NAME)?;
    thread::sleep(rt, Duration::from_millis(PAUSE));
    shown.show("link: take, a peer there", &links.take(0));
    show_frames(rt, &mut links, door.accept()?.0, shown)?;
    show_back(rt, &mut links, &door, shown)?;
    show_full(rt, &mut links, &door, shown)?;
    show_rest(rt, &bell, &mut links, &door, shown)?;
    fs::remove_file(rt, NAME)
}

// A frame of so many bytes behind its length, as it stands in the stream.
fn put_frame(peer: &mut UnixStream, count: u32) -> io::Result<()> {
    peer.write_all(&count.to_be_bytes())?;
    peer.write_all(&[7; 2_000][..(count as usize).min(2_000)])
}

fn send(links: &mut LinkSockets<'_, HostRuntime>, count: usize) -> Result<(), Failed> {
    for _ in 0..count / Piece::MOST {
        links.send_part(0, Piece::from_slice(&[9; 64]))?;
    }
    let rest = count % Piece::MOST;
    if rest > 0 {
        links.send_part(0, Piece::from_slice(&[9; 64][..rest]))?;
    }
    links.send_end(0)
}

fn show_part(
    links: &mut LinkSockets<'_, HostRuntime>,
    index: u64,
    count: usize,
    shown: &mut Shown,
) {
    match links.part(0, index, count) {
        Ok(piece) => shown.show("link: part", &alike(piece.as_slice())),
        Err(Failed) => shown.show("link: part", &Failed),
    }
}

fn show_frames(
    rt: &HostRuntime,
    links: &mut LinkSockets<'_, HostRuntime>,
    mut peer: UnixStream,
    shown: &mut Shown,
) -> io::Result<()> {
    put_frame(&mut peer, 14)?;
    put_frame(&mut peer, 0)?;
    put_frame(&mut peer, 13)?;
    put_frame(&mut peer, 1_515)?;
    put_frame(&mut peer, 1_514)?;
    shown.show("link: the shortest", &links.take(0));
    show_part(links, 0, 14, shown);
    show_part(links, 0, 15, shown);
    shown.show("link: three are none, the longest", &links.take(0));
    show_part(links, 23, 42, shown);
    show_part(links, 23, 43, shown);
    peer.write_all(&[0, 0])?;
    shown.show("link: half a length", &links.take(0));
    peer.write_all(&[0, 20, 1, 2])?;
    shown.show("link: half a frame", &links.take(0));
    peer.write_all(&[3; 18])?;
    shown.show("link: the rest of it", &links.take(0));
    shown.show("link: send", &send(links, 60));
    shown.show("link: send a frame that is none", &send(links, 13));
    let mut bytes = [0; 80];
    let count = peer.read(&mut bytes)?;
    shown.show(
        "link: the peer reads",
        &(count, &bytes[..4], alike(&bytes[4..64])),
    );
    peer.write_all(&[255; 40])?;
    shown.show("link: a length of all ones", &links.take(0));
    drop(peer);
    shown.show("link: the peer goes away", &links.take(0));
    thread::sleep(rt, Duration::from_millis(PAUSE));
    Ok(())
}

// It comes back, goes in the middle of a frame, and comes once more: what had come of the frame is dropped.
fn show_back(
    rt: &HostRuntime,
    links: &mut LinkSockets<'_, HostRuntime>,
    door: &UnixListener,
    shown: &mut Shown,
) -> io::Result<()> {
    shown.show("link: back", &links.take(0));
    let mut peer = door.accept()?.0;
    peer.write_all(&[0, 0, 0, 20, 1, 2, 3])?;
    shown.show("link: half a frame", &links.take(0));
    drop(peer);
    shown.show("link: away", &links.take(0));
    thread::sleep(rt, Duration::from_millis(PAUSE));
    shown.show("link: back", &links.take(0));
    put_frame(&mut door.accept()?.0, 100)?;
    shown.show("link: a frame", &links.take(0));
    shown.show("link: away", &links.take(0));
    thread::sleep(rt, Duration::from_millis(PAUSE));
    Ok(())
}

// A peer that doesn't read: frames fail, in no time, and those that were sent are whole.
fn show_full(
    rt: &HostRuntime,
    links: &mut LinkSockets<'_, HostRuntime>,
    door: &UnixListener,
    shown: &mut Shown,
) -> io::Result<()> {
    shown.show("link: back", &links.take(0));
    let mut peer = door.accept()?.0;
    let start = Instant::now(rt)?;
    let mut sent: u32 = 0;
    for _ in 0..MANY {
        if send(links, 1_514).is_err() {
            break;
        }
        sent = sent.saturating_add(1);
    }
    shown.show("link: some are sent", &(sent > 0 && sent < MANY));
    shown.show("link: a frame more", &send(links, 1_514));
    shown.show("link: in no time", &waited_for(rt, start, 10_000)?);
    shown.show("link: take meanwhile", &links.take(0));
    peer.set_nonblocking(true)?;
    shown.show(
        "link: all that were sent come",
        &(read_all(&mut peer)? == sent.saturating_mul(1_518)),
    );
    shown.show("link: and then more do", &send(links, 1_514));
    drop(peer);
    shown.show("link: away", &links.take(0));
    thread::sleep(rt, Duration::from_millis(PAUSE));
    Ok(())
}

fn read_all(peer: &mut UnixStream) -> io::Result<u32> {
    let mut all: u32 = 0;
    for _ in 0..MANY {
        match peer.read(&mut [0; 2_000]) {
            Ok(0) => break,
            Ok(count) => all = all.saturating_add(count as u32),
            Err(e) if e.kind() == ErrorKind::WouldBlock => break,
            Err(e) => return Err(e),
        }
    }
    Ok(all)
}

// What comes ends a rest that would take a second, once.
fn show_rest(
    rt: &HostRuntime,
    bell: &Bell,
    links: &mut LinkSockets<'_, HostRuntime>,
    door: &UnixListener,
    shown: &mut Shown,
) -> io::Result<()> {
    shown.show("link: back", &links.take(0));
    let mut peer = door.accept()?.0;
    put_frame(&mut peer, 64)?;
    let start = Instant::now(rt)?;
    SystemClock::new(rt, bell).rest(u64::MAX);
    shown.show("link: a rest is short", &waited_for(rt, start, 500)?);
    shown.show("link: what woke", &links.take(0));
    shown.show("link: no more", &links.take(0));
    let start = Instant::now(rt)?;
    SystemClock::new(rt, bell).rest(300_000_000);
    shown.show("link: a rest is short", &waited_for(rt, start, 200)?);
    Ok(())
}
