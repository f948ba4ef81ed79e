// What comes from the guest.
ghost use Rattle.std.specs.Prelude.{ℕ, ◌≡◌, ◌≤◌, true, [], length, drop, take};
ghost use Rattle.vq_split.specs.Kept.{are_inside};
ghost use Rattle.dev_core.specs.Collecting.{collect_left};
ghost use Rattle.queue_device.specs.Acting.{Works, performing};
ghost use Rattle.queue_device.specs.Chains.{got_of};
ghost use Rattle.queue_device.specs.Kept.{work_after};
ghost use Rattle.queue_device.specs.declared.lanes.Which.TheVariants.{Second};
ghost use Rattle.queue_device.specs.declared.phase.Work.TheVariants as work;
ghost use Rattle.vsock_packet.specs.Header.{header_of};
ghost use Rattle.vsock_packet.specs.Operations.{operation_of};
ghost use Rattle.vsock_device.specs.Connections.{connection_between};
ghost use Rattle.vsock_device.specs.Data.{refused};
ghost use Rattle.vsock_device.specs.Guest.{closed, dialling, done, forwarding_all, ignored, judged, of_connection, packet_read};
ghost use Rattle.vsock_device.specs.Guest.{passing, reset_both_ways, responded, shut_down, strange, telling_open, transmitted};
ghost use Rattle.vsock_device.specs.Guest.{taken_in, written};
ghost use Rattle.vsock_device.specs.Work.{hand_of, is_work};
ghost use Rattle.vsock_device.specs.declared.kind.Stage.TheVariants as stages;

use crate::connection::{Connection, Standing};
use crate::connections::MOST;
use crate::data::InHand;
use crate::fetching::Fetching;
use crate::kind::{Stage, VsockKind};
use crate::line::ok_line;
use crate::packet::{HOST_ROOM, Head};
use dev_core::{Collect, Gather, Held, total};
use vm_types::Piece;
use vq_split::PartList;
use vsock_packet::{Header, Operation};

// The header that these bytes begin with.
fn header_of(bytes: &[u8]) -> Header
    requires { 44 ≤ length bytes.now }
    ensures { result ≡ header_of (take 44 bytes.now) }
{
    let mut first = [0; 44];
    first.copy_from_slice(&bytes[..44]);
    Header::read(&first)
}

// The bytes behind it.
fn behind_header(bytes: &[u8]) -> Piece
    requires some { 44 ≤ length bytes.now }
    requires most { length bytes.now ≤ 107 }
    ensures { result ≡ drop 44 bytes.now }
{
    Piece::from_slice(&bytes[44..])
}

// All of these parts are still to be read.
fn unread(parts: PartList) -> Collect
    ensures { result ≡ record { from = parts; held = [] } }
{
    Collect {
        from: Gather::new(parts),
        held: Held::new(),
    }
}

impl VsockKind {
    // A connection is closed at the host.
    fn close(&mut self, host: u32) -> Option<Option<u32>>
        ensures works { Works (closed host self.old.own)
            result self.new.own (hand_of self.new.stage).op (hand_of self.new.stage).serving }
        ensures work { (pages : ℕ) → is_work (work_after result (work.Serve Second)) pages self.new.stage ≡ true }
    {
        self.stage = Stage::Close(host);
        None
    }

    // And the guest is told so.
    fn reset_both_ways(&mut self, c: &Connection) -> Option<Option<u32>>
        ensures works { Works (reset_both_ways c.now self.old.own)
            result self.new.own (hand_of self.new.stage).op (hand_of self.new.stage).serving }
        ensures work { (pages : ℕ) → is_work (work_after result (work.Serve Second)) pages self.new.stage ≡ true }
    {
        self.own.reset_to_guest(c);
        self.close(c.host)
    }

    // ---- bytes for the host

    // The next piece is read, if there is one.
    #[tactic(auto, using(crate::proofs::Pieces::forward_more, crate::proofs::Pieces::forward_done, crate::proofs::Staying::read_more))]
    pub(crate) fn read_on(&mut self, host: u32, from: Gather) -> Option<Option<u32>>
        requires rest { self.old.stage ≡ stages.Rest }
        ensures works { Works (forwarding_all host from self.old.own)
            result self.new.own (hand_of self.new.stage).op (hand_of self.new.stage).serving }
        ensures work { (pages : ℕ) → are_inside pages from ≡ true →
            is_work (work_after result (work.Serve Second)) pages self.new.stage ≡ true }
    {
        if from.room() == 0 {
            return Some(Some(0));
        }
        let _parts = from.parts();
        self.stage = Stage::Read(host, from);
        None
    }

    // A piece goes to the host, if it has bytes, before the next is read.
    pub(crate) fn pass(&mut self, host: u32, piece: Piece, from: Gather) -> Option<Option<u32>>
        requires rest { self.old.stage ≡ stages.Rest }
        ensures works { Works (passing host piece self.old.own (λ f. forwarding_all host from f))
            result self.new.own (hand_of self.new.stage).op (hand_of self.new.stage).serving }
        ensures work { (pages : ℕ) → are_inside pages from ≡ true →
            is_work (work_after result (work.Serve Second)) pages self.new.stage ≡ true }
    {
        if piece.len() == 0 {
            return self.read_on(host, from);
        }
        let _parts = from.parts();
        self.stage = Stage::Send(host, piece, from);
        None
    }

    // ---- a connection begins

    // The guest asks for a connection.
    fn dial(&mut self, header: &Header) -> Option<Option<u32>>
        requires rest { self.old.stage ≡ stages.Rest }
        ensures works { Works (dialling header.now self.old.own)
            result self.new.own (hand_of self.new.stage).op (hand_of self.new.stage).serving }
        ensures work { (pages : ℕ) → is_work (work_after result (work.Serve Second)) pages self.new.stage ≡ true }
    {
        if self.own.connections.as_slice().len() < MOST {
            self.stage = Stage::Dial(*header);
            None
        } else {
            self.own.refuse(header);
            Some(Some(0))
        }
    }

    // The guest takes a connection of the host, which is told so.
    fn tell_open(&mut self, c: &Connection) -> Option<Option<u32>>
        ensures works { Works (telling_open c.now self.old.own)
            result self.new.own (hand_of self.new.stage).op (hand_of self.new.stage).serving }
        ensures work { (pages : ℕ) → is_work (work_after result (work.Serve Second)) pages self.new.stage ≡ true }
    {
        self.stage = Stage::Accept(c.host, ok_line(c.host_port));
        None
    }

    // ---- packets of a connection

    fn respond(&mut self, c: &Connection) -> Option<Option<u32>>
        ensures works { Works (responded c.now.standing c.now self.old.own)
            result self.new.own (hand_of self.new.stage).op (hand_of self.new.stage).serving }
        ensures work { (pages : ℕ) → is_work (work_after result (work.Serve Second)) pages self.new.stage ≡ true }
    {
        match &c.standing {
            Standing::Asked => self.tell_open(c),
            Standing::Line(_) => self.reset_both_ways(c),
            Standing::Open => self.reset_both_ways(c),
        }
    }

    // Bytes come, as far as these the first ones of which are the header.
    fn write(&mut self, header: &Header, from: Collect, c: &Connection) -> Option<Option<u32>>
        requires rest { self.old.stage ≡ stages.Rest }
        requires some { 44 ≤ length from.held }
        requires most { length from.held ≤ 107 }
        ensures works { Works (written c.now.standing header.now (got_of from) c.now self.old.own)
            result self.new.own (hand_of self.new.stage).op (hand_of self.new.stage).serving }
        ensures work { (pages : ℕ) → are_inside pages from.from ≡ true →
            is_work (work_after result (work.Serve Second)) pages self.new.stage ≡ true }
    {
        match &c.standing {
            Standing::Open => {
                if header.len <= HOST_ROOM {
                    let piece = behind_header(from.held.as_slice());
                    self.pass(c.host, piece, from.from)
                } else {
                    self.reset_both_ways(c)
                }
            }
            Standing::Line(_) => self.reset_both_ways(c),
            Standing::Asked => self.reset_both_ways(c),
        }
    }

    fn shut_down(&mut self, header: &Header, c: &Connection) -> Option<Option<u32>>
        requires rest { self.old.stage ≡ stages.Rest }
        ensures works { Works (shut_down header.now c.now self.old.own)
            result self.new.own (hand_of self.new.stage).op (hand_of self.new.stage).serving }
        ensures work { (pages : ℕ) → is_work (work_after result (work.Serve Second)) pages self.new.stage ≡ true }
    {
        if header.ends_both_ways() {
            self.reset_both_ways(c)
        } else {
            Some(Some(0))
        }
    }

    fn act(&mut self, header: &Header, from: Collect, c: &Connection) -> Option<Option<u32>>
        requires rest { self.old.stage ≡ stages.Rest }
        requires some { 44 ≤ length from.held }
        requires most { length from.held ≤ 107 }
        ensures works { Works (done (operation_of header.now.op) header.now (got_of from) c.now self.old.own)
            result self.new.own (hand_of self.new.stage).op (hand_of self.new.stage).serving }
        ensures work { (pages : ℕ) → are_inside pages from.from ≡ true →
            is_work (work_after result (work.Serve Second)) pages self.new.stage ≡ true }
    {
        match header.operation() {
            None => Some(Some(0)),
            Some(operation) => match operation {
                Operation::Request => self.reset_both_ways(c),
                Operation::Response => self.respond(c),
                Operation::Rst => {
                    self.own.drop_connection(c.host);
                    self.close(c.host)
                }
                Operation::Shutdown => self.shut_down(header, c),
                Operation::Rw => self.write(header, from, c),
                Operation::CreditUpdate => Some(Some(0)),
                Operation::CreditRequest => {
                    self.own.answer_with(Head::of(Operation::CreditUpdate, c));
                    Some(Some(0))
                }
            },
        }
    }

    // ---- a packet

    // A packet is refused.
    fn refuse(&mut self, header: &Header) -> Option<Option<u32>>
        requires rest { self.old.stage ≡ stages.Rest }
        ensures works { Works (taken_in (refused header.now self.old.own))
            result self.new.own (hand_of self.new.stage).op (hand_of self.new.stage).serving }
        ensures work { (pages : ℕ) → is_work (work_after result (work.Serve Second)) pages self.new.stage ≡ true }
    {
        self.own.refuse(header);
        Some(Some(0))
    }

    // It is of no connection.
    fn strange(&mut self, header: &Header) -> Option<Option<u32>>
        requires rest { self.old.stage ≡ stages.Rest }
        ensures works { Works (strange (operation_of header.now.op) header.now self.old.own)
            result self.new.own (hand_of self.new.stage).op (hand_of self.new.stage).serving }
        ensures work { (pages : ℕ) → is_work (work_after result (work.Serve Second)) pages self.new.stage ≡ true }
    {
        match header.operation() {
            None => self.refuse(header),
            Some(operation) => match operation {
                Operation::Request => self.dial(header),
                Operation::Response => self.refuse(header),
                Operation::Rst => self.refuse(header),
                Operation::Shutdown => self.refuse(header),
                Operation::Rw => self.refuse(header),
                Operation::CreditUpdate => self.refuse(header),
                Operation::CreditRequest => self.refuse(header),
            },
        }
    }

    fn of_connection(&mut self, header: &Header, from: Collect) -> Option<Option<u32>>
        requires rest { self.old.stage ≡ stages.Rest }
        requires some { 44 ≤ length from.held }
        requires most { length from.held ≤ 107 }
        ensures works { Works (of_connection (connection_between header.now.src_port header.now.dst_port self.old.own.connections)
            header.now (got_of from) self.old.own)
            result self.new.own (hand_of self.new.stage).op (hand_of self.new.stage).serving }
        ensures work { (pages : ℕ) → are_inside pages from.from ≡ true →
            is_work (work_after result (work.Serve Second)) pages self.new.stage ≡ true }
    {
        match self
            .own
            .connections
            .between(header.src_port, header.dst_port)
        {
            None => self.strange(header),
            Some(c) => {
                let mut c = c;
                c.credit(header);
                self.own.update(&c);
                self.act(header, from, &c)
            }
        }
    }

    fn judge(&mut self, header: &Header, from: Collect) -> Option<Option<u32>>
        requires rest { self.old.stage ≡ stages.Rest }
        requires some { 44 ≤ length from.held }
        requires most { length from.held ≤ 107 }
        ensures works { Works (judged header.now (got_of from) self.old.own)
            result self.new.own (hand_of self.new.stage).op (hand_of self.new.stage).serving }
        ensures work { (pages : ℕ) → are_inside pages from.from ≡ true →
            is_work (work_after result (work.Serve Second)) pages self.new.stage ≡ true }
    {
        let is_its = !self.own.is_orphaned() && self.own.is_addressed(header);
        self.own.in_hand = InHand::Judged(Head::refusing(header));
        if is_its {
            self.of_connection(header, from)
        } else {
            self.refuse(header)
        }
    }

    // What does nothing is answered by nothing.
    fn ignore(&mut self) -> Option<Option<u32>>
        requires rest { self.old.stage ≡ stages.Rest }
        ensures works { Works (ignored self.old.own)
            result self.new.own (hand_of self.new.stage).op (hand_of self.new.stage).serving }
        ensures work { (pages : ℕ) → is_work (work_after result (work.Serve Second)) pages self.new.stage ≡ true }
    {
        self.own.in_hand = InHand::Judged(None);
        Some(Some(0))
    }

    // The header came, behind which the chain has so many bytes.
    fn packet_read(&mut self, from: Collect, len: u64) -> Option<Option<u32>>
        requires rest { self.old.stage ≡ stages.Rest }
        requires most { length from.held ≤ 107 }
        ensures works { Works (packet_read len self.old.own (got_of from))
            result self.new.own (hand_of self.new.stage).op (hand_of self.new.stage).serving }
        ensures work { (pages : ℕ) → are_inside pages from.from ≡ true →
            is_work (work_after result (work.Serve Second)) pages self.new.stage ≡ true }
    {
        if from.held.as_slice().len() < Header::SIZE {
            return self.ignore();
        }
        let header = header_of(from.held.as_slice());
        if header.len as u64 == len {
            self.judge(&header, from)
        } else {
            self.ignore()
        }
    }

    // The header is read, as long as it isn't there.
    pub(crate) fn fetch_on(&mut self, from: Collect, len: u64) -> Option<Option<u32>>
        requires rest { self.old.stage ≡ stages.Rest }
        requires most { length from.held ≤ 107 }
        ensures works { Works (performing (collect_left 44 from) self.old.own (packet_read len))
            result self.new.own (hand_of self.new.stage).op (hand_of self.new.stage).serving }
        ensures work { (pages : ℕ) → are_inside pages from.from ≡ true →
            is_work (work_after result (work.Serve Second)) pages self.new.stage ≡ true }
    {
        if from.is_done(Header::SIZE) {
            return self.packet_read(from, len);
        }
        let _parts = from.from.parts();
        self.stage = Stage::Fetch(Fetching::new(from), len);
        None
    }

    // A chain is transmitted, of which these parts can be read.
    pub(crate) fn transmit(&mut self, parts: PartList) -> Option<Option<u32>>
        requires rest { self.old.stage ≡ stages.Rest }
        ensures works { Works (transmitted parts self.old.own)
            result self.new.own (hand_of self.new.stage).op (hand_of self.new.stage).serving }
        ensures work { (pages : ℕ) → are_inside pages parts ≡ true →
            is_work (work_after result (work.Serve Second)) pages self.new.stage ≡ true }
    {
        let len = total(parts.as_slice());
        if len < Header::SIZE as u64 {
            return self.ignore();
        }
        self.fetch_on(unread(parts), len - Header::SIZE as u64)
    }
}
