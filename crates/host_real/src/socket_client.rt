// A client at the other end of a Unix socket, and how long it is waited for.
ghost use Rattle.std.specs.Prelude.{◌≤◌, ◌<◌, length, IfOk};
ghost use Rattle.serve_host.specs.Passing.{IsWithin};

use crate::bell::Bell;
use crate::looking::{NO_DESCRIPTOR, Seen, look};
use crate::patience::Patience;
use outside_real::tries;
use serve_host::Got;
use std::io::{ErrorKind, Read};
use std::net::Shutdown;
use std::os::unix::io::AsRawFd;
use std::os::unix::net::UnixStream;
use std::time::Duration;
use std::{io, rt};

/// A read waits so long at most while nothing runs, in milliseconds.
const READ_WAIT: u64 = 500;

/// And so long where something does, which may come to its end.
const BUSY_WAIT: u64 = 20;

/// A write waits so long at most for its peer, in milliseconds.
const WRITE_WAIT: u64 = 10_000;

/// What still comes of a client that is over is read away for so long at most, in milliseconds, and in so many reads.
const LAST_WAIT: u64 = 1_000;

const LAST_READS: u32 = 256;

#[derive(Drop)]
pub(crate) struct Client<'a, R> {
    rt: &'a R,
    bell: &'a Bell,
    stream: UnixStream,
    patience: Patience,
    /// Whether nothing was read of it so far.
    is_new: bool,
    /// Whether the last call was a write.
    spoke_last: bool,
    /// The last moment of the clock.
    now: Duration,
}

impl<'a, R: rt::Clock> Client<'a, R> {
    pub(crate) fn new(rt: &'a R, bell: &'a Bell, stream: UnixStream) -> io::Result<Client<'a, R>> {
        stream.set_write_timeout(Some(Duration::from_millis(WRITE_WAIT)))?;
        let now = rt.monotonic()?;
        let client = Client {
            rt,
            bell,
            stream,
            patience: Patience::new(now),
            is_new: true,
            spoke_last: false,
            now,
        };
        client.expect();
        Ok(client)
    }

    /// What has come of it, after a wait of at most half a second. It is an error where the client was waited for
    /// long enough, and where it was gone before its first byte was read. A read with no room tells nothing of the end.
    pub(crate) fn hear(&mut self, buf: &mut [u8]) -> io::Result<Got>
        ensures within { IfOk result (λ got. IsWithin got (length buf.new)) }
    {
        self.spoke_last = false;
        if buf.is_empty() {
            return Ok(Got::NotYet);
        }
        let seen = self.wait();
        let got = self.take_seen(seen, buf);
        self.expect();
        got
    }

    /// Sends some of the bytes. Where they are all sent and its turn is over, it learns of the end at once, and not when it asks
    /// again.
    pub(crate) fn tell(&mut self, bytes: &[u8]) -> io::Result<usize>
        ensures bound { IfOk result (λ n. n ≤ length bytes.now) }
        ensures some { IfOk result (λ n. 0 < length bytes.now → 0 < n) }
    {
        let count = tries::write_some(&mut self.stream, bytes)?;
        self.spoke_last = true;
        let now = self.moment();
        self.patience.has_told(now);
        if count == bytes.len() && self.patience.is_turn_over(now) {
            self.take_leave();
        }
        self.expect();
        Ok(count)
    }

    /// Its connection is over. Where it was refused in the middle of a request, what it still sends is read away for a while,
    /// so that it comes to read why.
    pub(crate) fn let_go(mut self) {
        if self.spoke_last && self.stream.shutdown(Shutdown::Write).is_ok() {
            self.read_away();
        }
    }

    // Waits until something has come, or another client waits, or the patience is over. Both were looked at in one look then.
    fn wait(&mut self) -> Seen {
        let most = self.longest_wait();
        self.bell.set_heard(true);
        let seen = self.look_for(most);
        self.bell.set_heard(false);
        seen
    }

    fn look_for(&self, most: Duration) -> Seen {
        let client = self.stream.as_raw_fd();
        if most.is_zero() || !self.patience.is_awaited() {
            return look(client, self.bell.door(), most);
        }
        look(client, NO_DESCRIPTOR, most);
        look(client, self.bell.door(), Duration::ZERO)
    }

    // Who rested has waited in its place.
    fn longest_wait(&mut self) -> Duration {
        if self.bell.take_rested() {
            return Duration::ZERO;
        }
        let most = Duration::from_millis(if self.bell.is_resting() {
            READ_WAIT
        } else {
            BUSY_WAIT
        });
        let now = self.moment();
        self.patience.left(now).min(most)
    }

    // Whoever rests is to look again before the patience is over.
    fn expect(&self) {
        self.bell
            .expect(self.patience.end(self.now), self.patience.is_awaited());
    }

    fn take_seen(&mut self, seen: Seen, buf: &mut [u8]) -> io::Result<Got>
        ensures within { IfOk result (λ got. IsWithin got (length buf.new)) }
    {
        if seen.is_gone && self.is_new {
            return Err(io::Error::from(ErrorKind::ConnectionAborted));
        }
        let now = self.moment();
        self.patience.has_looked(seen.is_second_ready, now);
        if self.patience.left(now).is_zero() {
            return self.take_last(buf);
        }
        if seen.is_ready {
            return self.take(buf);
        }
        Ok(Got::NotYet)
    }
    // The clock's, or the last one where it doesn't tell.
    fn moment(&mut self) -> Duration {
        if let Ok(now) = self.rt.monotonic() {
            self.now = now;
        }
        self.now
    }

    fn take(&mut self, buf: &mut [u8]) -> io::Result<Got>
        ensures within { IfOk result (λ got. IsWithin got (length buf.new)) }
    {
        match tries::read_some(&mut self.stream, buf) {
            Ok(0) => Ok(Got::End),
            Ok(count) => {
                self.is_new = false;
                let now = self.moment();
                self.patience.has_heard(now);
                Ok(Got::Bytes(count))
            }
            Err(e) if e.kind() == ErrorKind::WouldBlock => Ok(Got::NotYet),
            Err(e) => Err(e),
        }
    }

    // From now on the client can send nothing more. What it sent up to now is still read, so that no request is lost.
    fn take_last(&mut self, buf: &mut [u8]) -> io::Result<Got>
        ensures within { IfOk result (λ got. IsWithin got (length buf.new)) }
    {
        self.stream.shutdown(Shutdown::Read)?;
        match self.take(buf) {
            Ok(Got::Bytes(count)) => Ok(Got::Bytes(count)),
            Ok(_) => {
                let _shut = self.stream.shutdown(Shutdown::Write);
                Err(io::Error::from(ErrorKind::TimedOut))
            }
            Err(e) => Err(e),
        }
    }

    // Nothing goes either way from now on, unless something has come that wasn't read.
    fn take_leave(&mut self) {
        let client = self.stream.as_raw_fd();
        if !look(client, NO_DESCRIPTOR, Duration::ZERO).is_ready {
            // Where it fails the client is gone, which the next read tells.
            let _shut = self.stream.shutdown(Shutdown::Both);
        }
    }

    fn read_away(&mut self) {
        let start = self.moment();
        for _ in 0..LAST_READS {
            let gone = self.moment().saturating_sub(start);
            let left = Duration::from_millis(LAST_WAIT).saturating_sub(gone);
            if !look(self.stream.as_raw_fd(), NO_DESCRIPTOR, left).is_ready {
                return;
            }
            match tries::read_some(&mut self.stream, &mut [0; 4096]) {
                Ok(0) => return,
                Ok(_) => {}
                Err(_) => return,
            }
        }
    }
}
