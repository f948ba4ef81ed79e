// A listener on a Unix socket.
ghost use Rattle.std.specs.Prelude.{◌≡◌, Err, IfErr};

use crate::bell::Bell;
use crate::looking::NO_DESCRIPTOR;
use crate::socket_conn::SocketConn;
use crate::socket_file::{LOCK_TRIES, SocketFile, is_nobody};
use outside_real::counted::counted;
use serve_host::{Accepted, Listener};
use std::fs::File;
use std::io::ErrorKind;
use std::net::Net;
use std::os::unix::io::AsRawFd;
use std::os::unix::net::UnixStream;
use std::time::Duration;
use std::{io, rt, thread};
use vm_outside::Failed;

// Linux's numbers of failures that have no kind: too many files are open in the system or in the process, and no room for
// what a socket holds.
const ENFILE: i32 = 23;

const EMFILE: i32 = 24;

const ENOBUFS: i32 = 105;

/// So often in a row a client that comes can be neither taken nor turned away before that is a failure, so many
/// milliseconds apart: ten seconds.
const MOST_WANTS: u32 = 1_000;

const WANT_PAUSE: u64 = 10;

/// Listens on a socket under a name in the file system. A socket on which nobody listens is replaced; one in use is a
/// failure, and so is any other file. The socket's file is its owner's alone. It listens before it has its name, and it is
/// removed when the listener is let go, unless another one has its name by then. Connections never end to come.
///
/// Where no descriptor or no memory is left for a client it is turned away. Where that fails too for ten seconds, it is a
/// failure of the listener.
#[derive(Drop)]
pub struct SocketListener<'a, R: rt::Files<File = File> + rt::Clock> {
    rt: &'a R,
    bell: &'a Bell,
    open: Option<SocketFile<'a, R>>,
    wants: u32,
    faults: u64,
}

impl<'a, R: rt::Files<File = File> + rt::Clock + Net + AllocGlobal> SocketListener<'a, R> {
    pub fn new(rt: &'a R, bell: &'a Bell) -> SocketListener<'a, R>
        ensures { (⟦<SocketListener<'a, R> as Listener<SocketConn<'a, R>>>⟧.known result).health.faults ≡ 0 }
    {
        SocketListener {
            rt,
            bell,
            open: None,
            wants: 0,
            faults: 0,
        }
    }

    /// How many calls have failed. It stays at its last value.
    pub fn faults(&self) -> u64
        ensures { result ≡ (⟦<SocketListener<'a, R> as Listener<SocketConn<'a, R>>>⟧.known self.now).health.faults }
    {
        self.faults
    }
}

impl<'a, R: rt::Files<File = File> + rt::Clock + Net + AllocGlobal> Listener<SocketConn<'a, R>>
    for SocketListener<'a, R> {
    ghost use Rattle.std.specs.Prelude.{[], None};
    ghost use Rattle.outside_real.specs.Counting.{untold};

    ghost known = { λ l. record {
      health = untold l.faults;
      path = None;
      coming = [];
      ended = [];
    } };

    /// It goes on listening where it did, if this fails. The bell's door is the new socket.
    fn listen(&mut self, path: &str) -> Result<(), Failed> {
        let file = counted(
            &mut self.faults,
            SocketFile::bind(self.rt, path, LOCK_TRIES),
        )?;
        self.bell.set_door(file.listener.as_raw_fd());
        self.open = Some(file);
        Ok(())
    }

    fn accept(&mut self) -> Result<Accepted<SocketConn<'a, R>>, Failed> {
        self.bell.quiet();
        counted(
            &mut self.faults,
            accept_now(self.rt, self.bell, &mut self.open, &mut self.wants),
        )
    }

    fn end(&mut self, conn: SocketConn<'a, R>) {
        conn.close();
        self.bell.set_client(NO_DESCRIPTOR);
    }
}

fn accept_now<'a, R: rt::Files<File = File> + rt::Clock + Net + AllocGlobal>(
    rt: &'a R,
    bell: &'a Bell,
    open: &mut Option<SocketFile<'a, R>>,
    wants: &mut u32,
) -> io::Result<Accepted<SocketConn<'a, R>>> {
    let Some(file) = open else {
        return Err(io::Error::from(ErrorKind::NotConnected));
    };
    match file.listener.accept() {
        Err(e) if is_want(&e) => turn_away(rt, file, wants),
        came => {
            *wants = 0;
            as_accepted(rt, bell, came.map(|(stream, _)| stream))
        }
    }
}

// The client that comes is closed; where that can't be done either, it is waited a little.
fn turn_away<'a, R: rt::Files<File = File> + rt::Clock + Net + AllocGlobal>(
    rt: &'a R,
    file: &mut SocketFile<'a, R>,
    wants: &mut u32,
) -> io::Result<Accepted<SocketConn<'a, R>>> {
    match file.turn_away() {
        Err(e) if is_want(&e) => {
            *wants = wants.saturating_add(1);
            if *wants > MOST_WANTS {
                return Err(e);
            }
            thread::sleep(rt, Duration::from_millis(WANT_PAUSE));
        }
        _ => *wants = 0,
    }
    Ok(Accepted::NotYet)
}

/// What came of the system's accept. A connection that can't be prepared ends alone, as one does that its client has
/// given up; and where there is no room for one more, it is asked for again later.
pub fn as_accepted<'a, R: rt::Clock>(
    rt: &'a R,
    bell: &'a Bell,
    came: io::Result<UnixStream>,
) -> io::Result<Accepted<SocketConn<'a, R>>>
    ensures { IfErr result (λ e. came ≡ Err e) }
{
    match came {
        Ok(stream) => {
            let client = stream.as_raw_fd();
            Ok(match SocketConn::new(rt, bell, stream) {
                Ok(conn) => {
                    bell.set_client(client);
                    Accepted::Conn(conn)
                }
                Err(_) => Accepted::NotYet,
            })
        }
        Err(e) if passes(&e) => Ok(Accepted::NotYet),
        Err(e) => Err(e),
    }
}

// Whether the failure says nothing against the listener.
fn passes(e: &io::Error) -> bool {
    is_nobody(e) || is_want(e)
}

// Whether there was no room for one more connection.
fn is_want(e: &io::Error) -> bool {
    e.kind() == ErrorKind::OutOfMemory
        || matches!(e.raw_os_error(), Some(ENFILE | EMFILE | ENOBUFS))
}
