// The header of a packet, and its 44 bytes.
ghost use Rattle.std.specs.Prelude.{◌≡◌};
ghost use Rattle.vsock_packet.specs.Header.{ends_both_ways, header_bytes, header_of, is_stream};
ghost use Rattle.vsock_packet.specs.Operations.{operation_of};

use crate::fields::{value16, value32, value64};
use crate::operation::Operation;
use le_fields::{put16, put32, put64};

/// A header (VIRTIO 1.2, 5.10.6).
#[derive(Clone, Copy, Drop)]
pub struct Header {
    /// Whose the packet is, and to whom it goes: a guest or the host.
    pub src_cid: u64,
    pub dst_cid: u64,
    pub src_port: u32,
    pub dst_port: u32,
    /// How many bytes the packet carries.
    pub len: u32,
    /// The field `type`.
    pub socket_type: u16,
    /// The field `op`, by its number.
    pub op: u16,
    pub flags: u32,
    /// How many bytes its sender has room for, on this connection.
    pub buf_alloc: u32,
    /// How many bytes of this connection its sender has let go, modulo 2^32.
    pub fwd_cnt: u32,
}

impl Header {
    /// How many bytes a header has.
    pub const SIZE: usize = 44;

    /// The header that has these bytes.
    pub fn read(bytes: &[u8; 44]) -> Header
        ensures fields { result ≡ header_of bytes.now }
        ensures bytes { header_bytes result ≡ bytes.now }
    {
        Header {
            src_cid: value64(bytes, 0),
            dst_cid: value64(bytes, 8),
            src_port: value32(bytes, 16),
            dst_port: value32(bytes, 20),
            len: value32(bytes, 24),
            socket_type: value16(bytes, 28),
            op: value16(bytes, 30),
            flags: value32(bytes, 32),
            buf_alloc: value32(bytes, 36),
            fwd_cnt: value32(bytes, 40),
        }
    }

    /// Its bytes.
    pub fn write(&self) -> [u8; 44]
        ensures { result ≡ header_bytes self.now }
    {
        let mut bytes = [0; 44];
        put64(&mut bytes, 0, self.src_cid);
        put64(&mut bytes, 8, self.dst_cid);
        put32(&mut bytes, 16, self.src_port);
        put32(&mut bytes, 20, self.dst_port);
        put32(&mut bytes, 24, self.len);
        put16(&mut bytes, 28, self.socket_type);
        put16(&mut bytes, 30, self.op);
        put32(&mut bytes, 32, self.flags);
        put32(&mut bytes, 36, self.buf_alloc);
        put32(&mut bytes, 40, self.fwd_cnt);
        bytes
    }

    /// Whether it is of a stream socket (VIRTIO 1.2, 5.10.6.5).
    pub fn is_stream(&self) -> bool
        ensures { result ≡ is_stream self.now }
    {
        self.socket_type == 1
    }

    /// The operation that its number names, if it names one.
    pub fn operation(&self) -> Option<Operation>
        ensures { result ≡ operation_of self.now.op }
    {
        Operation::from_number(self.op)
    }

    /// Whether its flags, those of a SHUTDOWN, say that its sender receives no more and sends no more, and nothing else.
    pub fn ends_both_ways(&self) -> bool
        ensures { result ≡ ends_both_ways self.now }
    {
        self.flags == 3
    }
}
