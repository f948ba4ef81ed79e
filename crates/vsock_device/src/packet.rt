// What the device has to tell the guest.
ghost use Rattle.std.specs.Prelude.{◌≡◌, ◌≤◌, length};
ghost use Rattle.vsock_device.specs.Packets.{head_of, header_of_head, packet_bytes, refusal};

use crate::connection::Connection;
use dev_core::Held;
use vm_types::Piece;
use vsock_packet::{Header, Operation};

/// The host's CID (VIRTIO 1.2, 5.10.4).
pub(crate) const HOST_CID: u64 = 2;

/// How much room the host tells the guest of.
pub(crate) const HOST_ROOM: u32 = 65536;

/// What the header of a packet for the guest says of a connection, or of a packet that is of none.
#[derive(Clone, Copy, Drop)]
pub struct Head {
    pub operation: Operation,
    pub host_port: u32,
    pub guest_port: u32,
    /// How many of the guest's bytes went to the host, modulo 2^32.
    pub fwd_cnt: u32,
}

/// A packet for the guest, with the bytes that it carries.
#[derive(Clone, Copy, Drop)]
pub struct Packet {
    pub head: Head,
    pub bytes: Piece,
}

/// Bytes that came from the host on the connection of this number.
#[derive(Clone, Copy, Drop)]
pub struct HostBytes {
    pub host: u32,
    pub bytes: Piece,
}

impl Head {
    /// One of a connection.
    pub(crate) fn of(operation: Operation, c: &Connection) -> Head
        ensures { result ≡ head_of operation c.now }
    {
        Head {
            operation,
            host_port: c.host_port,
            guest_port: c.guest_port,
            fwd_cnt: c.fwd_cnt,
        }
    }

    /// That of the RST which answers a packet of no connection. An RST has none.
    pub(crate) fn refusing(header: &Header) -> Option<Head>
        ensures { result ≡ refusal header.now }
    {
        if header.op == Operation::Rst.number() {
            return None;
        }
        Some(Head {
            operation: Operation::Rst,
            host_port: header.dst_port,
            guest_port: header.src_port,
            fwd_cnt: 0,
        })
    }

    // The header, with so many bytes behind it, for the guest of this CID.
    fn header(&self, guest_cid: u64, len: u32) -> Header
        ensures { result ≡ header_of_head guest_cid len self.now }
    {
        Header {
            src_cid: HOST_CID,
            dst_cid: guest_cid,
            src_port: self.host_port,
            dst_port: self.guest_port,
            len,
            socket_type: 1,
            op: self.operation.number(),
            flags: 0,
            buf_alloc: HOST_ROOM,
            fwd_cnt: self.fwd_cnt,
        }
    }
}

impl Packet {
    /// Its header and what it carries, for the guest of this CID.
    pub(crate) fn text(&self, guest_cid: u64) -> Held
        ensures bytes { result ≡ packet_bytes guest_cid self.now }
        ensures most { length result ≤ 108 }
    {
        let header = self.head.header(guest_cid, self.bytes.len() as u32);
        let mut held = Held::new();
        held.append(&Piece::from_slice(&header.write()));
        held.append(&self.bytes);
        held
    }
}
