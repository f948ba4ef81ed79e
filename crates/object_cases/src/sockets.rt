// A socket, and a connection over it.
use crate::showing::{Shown, found, text_of};
use host_real::{Bell, SocketConn, SocketListener};
use serve_host::{Accepted, Conn, Listener, put_all};
use std::io::{Read, Write};
use std::os::unix::net::{UnixListener, UnixStream};
use std::{fs, io};

const NAME: &str = "socket";

pub fn show(rt: &HostRuntime, shown: &mut Shown) -> io::Result<()> {
    show_pair(rt, &Bell::new(rt), shown)?;
    // A socket is left there, where nobody listens.
    drop(UnixListener::bind(rt, NAME)?);
    let bell = Bell::new(rt);
    show_taken_over(rt, &mut SocketListener::new(rt, &bell), shown)?;
    shown.show("socket: stands at the end", &fs::exists(rt, NAME)?);
    Ok(())
}

fn show_pair(rt: &HostRuntime, bell: &Bell, shown: &mut Shown) -> io::Result<()> {
    let (client, server) = UnixStream::pair(rt)?;
    let mut conn = SocketConn::new(rt, bell, server)?;
    show_both_ways(client, &mut conn, shown)?;
    show_end(&mut conn, shown);
    Ok(())
}

// The other end is closed then.
fn show_both_ways<C: Read + Write + Drop>(
    mut client: C,
    conn: &mut SocketConn<'_, HostRuntime>,
    shown: &mut Shown,
) -> io::Result<()> {
    show_read(conn, shown);
    client.write_all(b"ask")?;
    shown.show("socket: read of nothing", &conn.read(&mut []));
    show_read(conn, shown);
    shown.show("socket: put", &put_all(conn, b"told"));
    let mut buf = [0; 4];
    let count = client.read(&mut buf)?;
    shown.show_two("socket: the other end reads", &count, &text_of(&buf));
    Ok(())
}

fn show_end(conn: &mut SocketConn<'_, HostRuntime>, shown: &mut Shown) {
    show_read(conn, shown);
    shown.show("socket: failed", &conn.faults());
    let more = conn.write(b"more");
    shown.show(
        "socket: write after the end, failed",
        &(more, conn.faults()),
    );
}

// What a read gives, and what a buffer has then.
fn show_read(conn: &mut SocketConn<'_, HostRuntime>, shown: &mut Shown) {
    let mut buf = [0; 4];
    let got = conn.read(&mut buf);
    shown.show_two("socket: read", &got, &text_of(&buf));
}

fn show_taken_over(
    rt: &HostRuntime,
    listener: &mut SocketListener<'_, HostRuntime>,
    shown: &mut Shown,
) -> io::Result<()> {
    shown.show("socket: accept", &found(&listener.accept()));
    shown.show("socket: listen", &listener.listen(NAME));
    shown.show("socket: accept", &found(&listener.accept()));
    show_client(UnixStream::connect(rt, NAME)?, listener, shown)?;
    let bell = Bell::new(rt);
    show_second(&mut SocketListener::new(rt, &bell), shown);
    shown.show("socket: the first failed", &listener.faults());
    shown.show("socket: stands", &fs::exists(rt, NAME)?);
    Ok(())
}

fn show_second(other: &mut SocketListener<'_, HostRuntime>, shown: &mut Shown) {
    let second = other.listen(NAME);
    shown.show(
        "socket: a second listens, failed",
        &(second, other.faults()),
    );
}

// A client that is connected says a byte, and is ended.
fn show_client<C: Read + Write + Drop>(
    mut client: C,
    listener: &mut SocketListener<'_, HostRuntime>,
    shown: &mut Shown,
) -> io::Result<()> {
    client.write_all(b"a")?;
    show_accepted(listener, shown);
    shown.show("socket: the client reads", &client.read(&mut [0; 2])?);
    Ok(())
}

fn show_accepted(listener: &mut SocketListener<'_, HostRuntime>, shown: &mut Shown) {
    match listener.accept() {
        Ok(Accepted::Conn(conn)) => {
            let mut conn = sendable(conn);
            shown.show("socket: of a client", &conn.read(&mut [0; 2]));
            listener.end(conn);
        }
        _ => shown.text("socket: no client\n"),
    }
}

// A reader in another thread can have it.
fn sendable<C: Conn + Send>(conn: C) -> C {
    conn
}
