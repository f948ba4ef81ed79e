// A connection.
ghost use Rattle.std.specs.Prelude.{◌≡◌, ◌≤◌, ◌^◌};
ghost use Rattle.vsock_device.specs.Connections.{has_this_port, is_at, is_between, is_known, new_connection};
ghost use Rattle.vsock_device.specs.Credit.{credited, forwarded, has_credit, in_flight, sent};

use vm_types::Piece;
use vsock_packet::Header;

/// How far a connection is.
#[derive(Clone, Copy, Drop)]
pub enum Standing {
    /// Somebody connected at the host, and this came so far of the line that asks for a port of the guest: fewer than 32 bytes.
    Line(Piece),
    /// The guest was asked for it.
    Asked,
    /// The guest takes it.
    Open,
}

/// A connection, with its counters, which run modulo 2^32 (VIRTIO 1.2, 5.10.6.3).
#[derive(Clone, Copy, Drop)]
pub struct Connection {
    /// Its number at the host.
    pub host: u32,
    /// Its port at the host, and its port at the guest. They are 0 until the guest is asked.
    pub host_port: u32,
    pub guest_port: u32,
    pub standing: Standing,
    /// How many of the guest's bytes went to the host.
    pub fwd_cnt: u32,
    /// How many bytes went to the guest.
    pub tx_cnt: u32,
    /// How many bytes the guest has room for, and how many it has let go, as its last packet says.
    pub peer_buf_alloc: u32,
    pub peer_fwd_cnt: u32,
}

impl Connection {
    /// Somebody connected at the host.
    pub fn new(host: u32) -> Connection
        ensures { result ≡ new_connection host }
    {
        Connection {
            host,
            host_port: 0,
            guest_port: 0,
            standing: Standing::Line(Piece::empty()),
            fwd_cnt: 0,
            tx_cnt: 0,
            peer_buf_alloc: 0,
            peer_fwd_cnt: 0,
        }
    }

    /// The same connection.
    pub(crate) fn again(&self) -> Connection
        ensures { result ≡ self.now }
    {
        *self
    }

    // The guest was asked for it, or has asked for it.
    fn is_known(&self) -> bool
        ensures { result ≡ is_known self.now.standing }
    {
        match &self.standing {
            Standing::Line(_) => false,
            Standing::Asked => true,
            Standing::Open => true,
        }
    }

    /// Whether its number at the host is this one.
    pub(crate) fn is_at(&self, host: u32) -> bool
        ensures { result ≡ is_at host self.now }
    {
        self.host == host
    }

    /// Whether the guest knows it, between these ports.
    pub(crate) fn is_between(&self, guest_port: u32, host_port: u32) -> bool
        ensures { result ≡ is_between guest_port host_port self.now }
    {
        self.is_known() && self.guest_port == guest_port && self.host_port == host_port
    }

    /// Whether the guest knows it, and it has this port at the host.
    pub(crate) fn has_port(&self, port: u32) -> bool
        ensures { result ≡ has_this_port port self.now }
    {
        self.is_known() && self.host_port == port
    }

    // How many bytes were sent to the guest that it hasn't let go.
    fn in_flight(&self) -> u32
        ensures { result ≡ in_flight self.now }
    {
        self.tx_cnt.wrapping_sub(self.peer_fwd_cnt)
    }

    /// Whether the guest has room for so many bytes more.
    pub(crate) fn has_credit(&self, n: usize) -> bool
        requires { n ≤ 64 }
        ensures { result ≡ has_credit n self.now }
    {
        self.in_flight() as u64 + n as u64 <= self.peer_buf_alloc as u64
    }

    /// A packet tells how much room the guest has, and how much it has let go.
    pub(crate) fn credit(&mut self, header: &Header)
        ensures { self.new ≡ credited header.now self.old }
    {
        self.peer_buf_alloc = header.buf_alloc;
        self.peer_fwd_cnt = header.fwd_cnt;
    }

    /// So many bytes went to the guest.
    pub(crate) fn send(&mut self, n: usize)
        requires { n ≤ 64 }
        ensures { self.new ≡ sent n self.old }
    {
        self.tx_cnt = self.tx_cnt.wrapping_add(n as u32);
    }

    /// So many of the guest's bytes went to the host.
    pub(crate) fn forward(&mut self, n: usize)
        requires { n ≤ 64 }
        ensures { self.new ≡ forwarded n self.old }
    {
        self.fwd_cnt = self.fwd_cnt.wrapping_add(n as u32);
    }
}
