// A connection over a Unix socket.
ghost use Rattle.std.specs.Prelude.{◌≡◌, IfOk};

use crate::bell::Bell;
use crate::socket_client::Client;
use outside_real::counted::counted;
use serve_host::{Conn, Got};
use std::os::unix::net::UnixStream;
use std::{io, rt};
use vm_outside::Failed;

/// A read waits for its client, half a second at most; where somebody has rested since the read before, it doesn't wait. It fails where a client without a begun request was silent
/// for 100 milliseconds while another one waits at the bell's door, or for five seconds; where no more of a request came that
/// was begun for ten seconds; and where the client was gone altogether before its first byte was read. A write waits for its
/// client for ten seconds at most, and then fails. Behind one that took all of its bytes the connection comes to its end
/// where another client has waited for 100 milliseconds.
///
/// Before a client's connection ends so it can't send any more, and what it had sent until then is given first: no request is
/// lost. Each read but one that finds nothing rings the bell, until the next call.
#[derive(Drop)]
pub struct SocketConn<'a, R> {
    client: Client<'a, R>,
    bell: &'a Bell,
    faults: u64,
}

impl<'a, R: rt::Clock> SocketConn<'a, R> {
    pub fn new(rt: &'a R, bell: &'a Bell, stream: UnixStream) -> io::Result<SocketConn<'a, R>>
        ensures { IfOk result (λ conn. (⟦<SocketConn<'a, R> as Conn>⟧.known conn).health.faults ≡ 0) }
    {
        Ok(SocketConn {
            client: Client::new(rt, bell, stream)?,
            bell,
            faults: 0,
        })
    }

    /// How many calls have failed. It stays at its last value.
    pub fn faults(&self) -> u64
        ensures { result ≡ (⟦<SocketConn<'a, R> as Conn>⟧.known self.now).health.faults }
    {
        self.faults
    }

    /// Ends the connection. Where the last call was a write, up to 1 MiB that the client still sends is read away, for a
    /// second at most, so that it doesn't fail before it has read its answer.
    pub fn close(self) {
        self.client.let_go();
    }
}

impl<'a, R: rt::Clock> Conn for SocketConn<'a, R> {
    ghost use Rattle.std.specs.Prelude.{[]};
    ghost use Rattle.outside_real.specs.Counting.{untold};

    ghost known = { λ c. record { health = untold c.faults; gave = []; took = []; left = [] } };

    fn read(&mut self, buf: &mut [u8]) -> Result<Got, Failed> {
        self.bell.quiet();
        let got = counted(&mut self.faults, self.client.hear(buf));
        if !matches!(got, Ok(Got::NotYet)) {
            self.bell.ring();
        }
        got
    }

    fn write(&mut self, bytes: &[u8]) -> Result<usize, Failed> {
        self.bell.quiet();
        counted(&mut self.faults, self.client.tell(bytes))
    }
}
