// Connections in memory: one comes, speaks and ends, and another ends at once. The third call on the first one fails, and of
// the listener the second listen and the first accept.
use crate::showing::{Shown, found, text_of};
use outside_mem::{Failing, MemoryCaller, MemoryConn, MemoryListener, Past};
use serve_host::{Accepted, Conn, Listener, put_all};
use std::alloc::{AllocError, Global};
use std::collections::VecDeque;

pub fn show(alloc: Global, shown: &mut Shown) -> Result<(), AllocError> {
    show_listener(&mut listener(alloc)?, shown);
    Ok(())
}

fn listener(alloc: Global) -> Result<MemoryListener, AllocError> {
    let mut callers = VecDeque::new(alloc);
    callers.push_back(caller(alloc)?)?;
    callers.push_back(silent(alloc))?;
    let calls = [1, 2].to_vec(alloc)?;
    Ok(MemoryListener::new(alloc, callers, Failing::new(calls)))
}

fn caller(alloc: Global) -> Result<MemoryCaller, AllocError> {
    Ok(MemoryCaller {
        bytes: b"abc".to_vec(alloc)?,
        sizes: [2, 0].to_vec(alloc)?,
        most: 1,
        failing: [2].to_vec(alloc)?,
    })
}

// Says nothing.
fn silent(alloc: Global) -> MemoryCaller {
    MemoryCaller {
        bytes: Vec::new(alloc),
        sizes: Vec::new(alloc),
        most: 1,
        failing: Vec::new(alloc),
    }
}

fn show_listener(listener: &mut MemoryListener, shown: &mut Shown) {
    show_listen(listener, "s", shown);
    show_listen(listener, "t", shown);
    shown.show("conn: accept", &found(&listener.accept()));
    shown.show("conn: accept", &found(&listener.accept()));
    speak(listener, shown);
    show_past(listener.ended(), shown);
    shown.show("conn: accept", &found(&listener.accept()));
    end_next(listener, shown);
    show_past(listener.ended(), shown);
    show_before(listener.ended(), shown);
    shown.show("conn: accept", &found(&listener.accept()));
    shown.show("conn: failed", &listener.faults());
}

// The path before, what the listen answers, and the path behind it.
fn show_listen(listener: &mut MemoryListener, path: &str, shown: &mut Shown) {
    shown.show("conn: path", &listener.path());
    shown.show("conn: listen", &listener.listen(path));
    shown.show("conn: path", &listener.path());
}

// The next connection, which is then ended.
fn speak(listener: &mut MemoryListener, shown: &mut Shown) {
    match listener.accept() {
        Ok(Accepted::Conn(mut conn)) => {
            show_reads(&mut conn, shown);
            shown.show("conn: put", &put_all(&mut conn, b"xyz"));
            listener.end(conn);
        }
        _ => shown.text("conn: no connection\n"),
    }
}

// The next connection is ended at once.
fn end_next(listener: &mut MemoryListener, shown: &mut Shown) {
    match listener.accept() {
        Ok(Accepted::Conn(conn)) => listener.end(conn),
        _ => shown.text("conn: no connection\n"),
    }
}

// What each read gives, what the buffer has then, and how many calls have failed.
fn show_reads(conn: &mut MemoryConn, shown: &mut Shown) {
    let mut buf = [0; 4];
    for _ in 0..5 {
        let got = conn.read(&mut buf);
        shown.show_bytes("conn: read", &got, &buf, conn.faults());
    }
}

fn show_past(past: &Past, shown: &mut Shown) {
    match past {
        Past::Nothing => shown.text("conn: none is over\n"),
        Past::Conn { passed, faults, .. } => shown.show_bytes(
            "conn: over",
            &text_of(passed.gave()),
            passed.took(),
            *faults,
        ),
    }
}

// The connection that was over before the last one.
fn show_before(past: &Past, shown: &mut Shown) {
    match past {
        Past::Nothing => shown.text("conn: none is over\n"),
        Past::Conn { before, .. } => show_past(before, shown),
    }
}
