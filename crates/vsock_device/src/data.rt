// What a vsock device keeps.
ghost use Rattle.std.specs.Prelude.{◌≡◌, ◌<◌, ◌≤◌, length, true, Some, None, IfSome};
ghost use Rattle.vm_types.specs.Fits.{fits};
ghost use Rattle.vsock_device.specs.Data.{answered, bytes_of_one, connected, delivered, dropped, new_data, refused, reset_to_guest};
ghost use Rattle.vsock_device.specs.Data.{bytes_waiting, held_sent, held_without, waiting, with_connection};
ghost use Rattle.vsock_device.specs.Guest.{failed, is_addressed, is_orphaned, one_forwarded, one_open};
ghost use Rattle.vsock_device.specs.Connections.{connection_at};
ghost use Rattle.vsock_device.specs.Reset.{answer_reset, cut_by, hand_reset, is_unconnected, reset, unconnected};

use crate::connection::{Connection, Standing};
use crate::connections::Connections;
use crate::packet::{HOST_CID, Head, HostBytes, Packet};
use vm_types::{Op, OutOp, Piece, Reply};
use vsock_packet::{Header, Operation};

/// The first port at the host.
const FIRST_PORT: u32 = 0x4000_0000;

/// The chain in hand, as far as it matters to a reset of the connections.
#[derive(Clone, Copy, Drop)]
pub enum InHand {
    /// None, or one of the event queue.
    Free,
    /// One that receives this packet.
    Receives(Packet),
    /// One whose packet isn't judged yet.
    Unjudged,
    /// The same, and the connections were reset since it was begun.
    Orphaned,
    /// One whose packet was judged, with what a reset answers to it.
    Judged(Option<Head>),
}

/// What may be changed from outside.
#[derive(Drop)]
pub enum VsockChange {
    /// All connections are gone.
    Reset,
}

/// The data of a vsock device.
#[derive(Drop)]
pub struct Vsock {
    /// The guest's CID.
    pub guest_cid: u64,
    /// The next port at the host.
    pub next_port: u32,
    pub connections: Connections,
    /// What waits for the guest, and is told before anything else is asked or read.
    pub answer: Option<Head>,
    /// Bytes of the host that wait for the guest. Nothing is asked meanwhile.
    pub held: Option<HostBytes>,
    pub in_hand: InHand,
    /// The guest is still to be told that its connections are gone (VIRTIO 1.2, 5.10.6.7).
    pub reset_due: bool,
}

impl InHand {
    // The packet of the chain isn't judged yet, and is of no connection.
    fn is_orphaned(&self) -> bool
        ensures { result ≡ is_orphaned self.now }
    {
        matches!(self, InHand::Orphaned)
    }

    // What a reset answers to the packet in hand.
    fn answer_reset(&self) -> Option<Head>
        ensures { result ≡ answer_reset self.now }
    {
        match self {
            InHand::Judged(refusal) => *refusal,
            _ => None,
        }
    }

    // And what it makes of the chain.
    fn reset(&self) -> InHand
        ensures { result ≡ hand_reset self.now }
    {
        match self {
            InHand::Unjudged => InHand::Orphaned,
            _ => *self,
        }
    }

    /// How an act is left out by a reset, if it is.
    pub(crate) fn cut(&self, op: &Op) -> Option<Reply>
        ensures cut { result ≡ cut_by self.now op.now }
        ensures fits { IfSome result (λ reply. fits op.now reply ≡ true) }
    {
        match self {
            InHand::Judged(_) => match op {
                Op::Out(call) => match call {
                    OutOp::HostDial { .. } => Some(Reply::Failed),
                    OutOp::HostSend { .. } => Some(Reply::Failed),
                    OutOp::HostClose { .. } => Some(Reply::Failed),
                    _ => None,
                },
                Op::Read { .. } => Some(Reply::AccessFault),
                _ => None,
            },
            _ => None,
        }
    }
}

// Bytes of a connection go where the guest has room for them.
fn bytes_of(c: &Connection, bytes: &Piece) -> Option<Packet>
    ensures { result ≡ bytes_of_one (Some c.now) bytes.now }
{
    if c.has_credit(bytes.len()) {
        Some(Packet {
            head: Head::of(Operation::Rw, c),
            bytes: *bytes,
        })
    } else {
        None
    }
}

impl Vsock {
    /// The data of a device that has done nothing, for the guest of this CID.
    pub fn new(guest_cid: u64) -> Vsock
        ensures { result ≡ new_data guest_cid }
    {
        Vsock {
            guest_cid,
            next_port: FIRST_PORT,
            connections: Connections::new(),
            answer: None,
            held: None,
            in_hand: InHand::Free,
            reset_due: false,
        }
    }

    /// The data that have these, and no connection.
    pub fn unconnected(
        guest_cid: u64,
        next_port: u32,
        answer: Option<Head>,
        in_hand: InHand,
        reset_due: bool,
    ) -> Vsock
        ensures { result ≡ unconnected guest_cid next_port answer in_hand reset_due }
    {
        Vsock {
            guest_cid,
            next_port,
            connections: Connections::new(),
            answer,
            held: None,
            in_hand,
            reset_due,
        }
    }

    /// Whether they are such data, as all are behind a reset.
    pub fn is_unconnected(&self) -> bool
        ensures { result ≡ is_unconnected self.now }
    {
        self.connections.as_slice().len() == 0 && self.held.is_none()
    }

    /// The same data.
    pub(crate) fn again(&self) -> Vsock
        ensures { result ≡ self.now }
    {
        Vsock {
            guest_cid: self.guest_cid,
            next_port: self.next_port,
            connections: self.connections.again(),
            answer: self.answer,
            held: self.held,
            in_hand: self.in_hand,
            reset_due: self.reset_due,
        }
    }

    // ---- what waits for the guest

    fn bytes_waiting(&self) -> Option<Packet>
        ensures { result ≡ bytes_waiting self.now.held self.now.connections }
    {
        match &self.held {
            None => None,
            Some(held) => match self.connections.at(held.host) {
                None => None,
                Some(c) => bytes_of(&c, &held.bytes),
            },
        }
    }

    /// The packet that waits for a chain: the answer, or else the bytes that are held.
    pub(crate) fn waiting(&self) -> Option<Packet>
        ensures { result ≡ waiting self.now }
    {
        match &self.answer {
            Some(head) => Some(Packet {
                head: *head,
                bytes: Piece::empty(),
            }),
            None => self.bytes_waiting(),
        }
    }

    fn send_held(&mut self)
        ensures { self.new ≡ held_sent self.old.held self.old }
    {
        if let Some(held) = &self.held {
            if let Some(c) = self.connections.at(held.host) {
                let mut c = c;
                c.send(held.bytes.len());
                self.connections.update(&c);
            }
            self.held = None;
        }
    }

    /// What waited was told.
    pub(crate) fn deliver(&mut self)
        ensures { self.new ≡ delivered self.old }
    {
        match self.answer {
            Some(_) => self.answer = None,
            None => self.send_held(),
        }
    }

    // ---- connections

    /// One more.
    pub(crate) fn connect(&mut self, c: &Connection)
        requires { length self.old.connections < 64 }
        ensures { self.new ≡ connected c.now self.old }
    {
        self.connections.push(c);
    }

    /// The one of its number is so now.
    pub(crate) fn update(&mut self, c: &Connection)
        ensures { self.new ≡ with_connection c.now self.old }
    {
        self.connections.update(c);
    }

    fn held_without(&self, host: u32) -> Option<HostBytes>
        ensures { result ≡ held_without host self.now.held }
    {
        match &self.held {
            None => None,
            Some(held) => { if held.host == host { None } else { Some(*held) } }
        }
    }

    /// The one of this number is gone.
    pub(crate) fn drop_connection(&mut self, host: u32)
        ensures { self.new ≡ dropped host self.old }
    {
        self.connections.remove(host);
        self.held = self.held_without(host);
    }

    /// The guest is to be told this.
    pub(crate) fn answer_with(&mut self, head: Head)
        ensures { self.new ≡ answered head self.old }
    {
        self.answer = Some(head);
    }

    /// A packet is of no connection.
    pub(crate) fn refuse(&mut self, header: &Header)
        ensures { self.new ≡ refused header.now self.old }
    {
        self.answer = Head::refusing(header);
    }

    /// A connection is gone, and the guest is told so.
    pub(crate) fn reset_to_guest(&mut self, c: &Connection)
        ensures { self.new ≡ reset_to_guest c.now self.old }
    {
        self.drop_connection(c.host);
        self.answer_with(Head::of(Operation::Rst, c));
    }

    // ---- calls of the host's end

    /// So many bytes went to the host.
    pub(crate) fn forward(&mut self, host: u32, n: usize)
        requires { n ≤ 64 }
        ensures { self.new ≡ one_forwarded (connection_at host self.old.connections) n self.old }
    {
        if let Some(c) = self.connections.at(host) {
            let mut c = c;
            c.forward(n);
            self.update(&c);
        }
    }

    /// The connection of this number could not be sent to.
    pub(crate) fn fail(&mut self, host: u32)
        ensures { self.new ≡ failed host self.old }
    {
        if let Some(c) = self.connections.at(host) {
            self.reset_to_guest(&c);
        }
    }

    /// It is open.
    pub(crate) fn open(&mut self, host: u32)
        ensures { self.new ≡ one_open (connection_at host self.old.connections) self.old }
    {
        if let Some(c) = self.connections.at(host) {
            let mut c = c;
            c.standing = Standing::Open;
            self.update(&c);
        }
    }

    // ---- the chain in hand

    /// Whether a packet is from this guest to the host, of a stream.
    pub(crate) fn is_addressed(&self, header: &Header) -> bool
        ensures { result ≡ is_addressed header.now self.now }
    {
        header.src_cid == self.guest_cid && header.dst_cid == HOST_CID && header.is_stream()
    }

    /// Whether the packet in hand can be of no connection.
    pub(crate) fn is_orphaned(&self) -> bool
        ensures { result ≡ is_orphaned self.now.in_hand }
    {
        self.in_hand.is_orphaned()
    }

    /// All connections are gone.
    pub(crate) fn reset(&mut self)
        ensures { self.new ≡ reset self.old }
    {
        self.answer = self.in_hand.answer_reset();
        self.in_hand = self.in_hand.reset();
        self.connections = Connections::new();
        self.held = None;
        self.reset_due = true;
    }
}
