// The connections of a device.
ghost use Rattle.std.specs.Prelude.{◌≡◌, ◌≤◌, ◌<◌, ◌++◌, ◌∷◌, [], length};
ghost use Rattle.vsock_device.specs.Connections.{connection_at, connection_between, free_port, has_port, is_live, port_after};
ghost use Rattle.vsock_device.specs.Connections.{updated, without};

use crate::connection::Connection;
use std::marker::Model;

/// The most connections that there are.
pub(crate) const MOST: usize = 64;

const FIRST_PORT: u32 = 0x4000_0000;

/// At most 64 connections, in the order in which they began.
#[derive(Drop)]
pub struct Connections {
    list: [Connection; 64],
    len: usize,
}

impl Model for Connections {
    ghost use Rattle.std.specs.Prelude.{◌≤◌, ◌≡◌, List, take, length};
    ghost use Rattle.vsock_device.specs.declared.connection.Connection.{Connection};

    ghost Value = { List Connection };

    ghost view = { λ c. take c.len c.list };

    ghost invariant = { λ c. (c.len ≤ 64) × (length c.list ≡ 64) };
}

// The port that comes after one, at the host.
pub(crate) fn port_after(port: u32) -> u32
    ensures { result ≡ port_after port }
{
    if port == u32::MAX {
        FIRST_PORT
    } else {
        port + 1
    }
}

impl Connections {
    /// None.
    pub fn new() -> Connections
        ensures { result ≡ [] }
    {
        Connections {
            list: [Connection::new(0); 64],
            len: 0,
        }
    }

    /// All of them.
    pub fn as_slice(&self) -> &[Connection]
        ensures connections { result.now ≡ self.now }
        ensures most { length result.now ≤ 64 }
    {
        &self.list[..self.len]
    }

    /// One more.
    pub(crate) fn push(&mut self, c: &Connection)
        requires { length self.old < 64 }
        ensures { self.new ≡ self.old ++ c.now ∷ [] }
    {
        self.list[self.len] = c.again();
        self.len += 1;
    }

    /// The same ones.
    pub(crate) fn again(&self) -> Connections
        ensures { result ≡ self.now }
    {
        let mut same = Connections::new();
        for c in self.as_slice() {
            same.push(c);
        }
        same
    }

    /// Whether one of this number lives.
    pub(crate) fn is_live(&self, host: u32) -> bool
        ensures { result ≡ is_live host self.now }
    {
        self.as_slice().iter().any(|c| c.is_at(host))
    }

    /// Whether the guest knows one that has this port at the host.
    fn has_port(&self, port: u32) -> bool
        ensures { result ≡ has_port port self.now }
    {
        self.as_slice().iter().any(|c| c.has_port(port))
    }

    /// The one of this number.
    pub(crate) fn at(&self, host: u32) -> Option<Connection>
        ensures { result ≡ connection_at host self.now }
    {
        for c in self.as_slice() {
            if c.is_at(host) {
                return Some(c.again());
            }
        }
        None
    }

    /// The one between these ports.
    pub(crate) fn between(&self, guest_port: u32, host_port: u32) -> Option<Connection>
        ensures { result ≡ connection_between guest_port host_port self.now }
    {
        for c in self.as_slice() {
            if c.is_between(guest_port, host_port) {
                return Some(c.again());
            }
        }
        None
    }

    // All but the one of this number.
    fn others(&self, host: u32) -> Connections
        ensures { result ≡ without host self.now }
    {
        let mut some = Connections::new();
        for c in self.as_slice() {
            if !c.is_at(host) {
                some.push(c);
            }
        }
        some
    }

    // All, of which the one of this number is so now.
    fn with(&self, now: &Connection) -> Connections
        ensures { result ≡ updated now.now self.now }
    {
        let mut some = Connections::new();
        for c in self.as_slice() {
            if c.is_at(now.host) {
                some.push(now);
            } else {
                some.push(c);
            }
        }
        some
    }

    /// The one of this number is gone.
    pub(crate) fn remove(&mut self, host: u32)
        ensures { self.new ≡ without host self.old }
    {
        *self = self.others(host);
    }

    /// The one of its number is so now.
    pub(crate) fn update(&mut self, now: &Connection)
        ensures { self.new ≡ updated now.now self.old }
    {
        *self = self.with(now);
    }

    /// The first port from here on that none has which the guest knows.
    pub(crate) fn free_port(&self, port: u32) -> u32
        ensures { result ≡ free_port (length self.now) self.now port }
    {
        let mut port = port;
        for _ in 0..self.as_slice().len() {
            if self.has_port(port) {
                port = port_after(port);
            } else {
                return port;
            }
        }
        port
    }
}
