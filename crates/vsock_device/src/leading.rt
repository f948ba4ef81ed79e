// Where a reply leads while a chain is served.
ghost use Rattle.std.specs.Prelude.{ℕ, ◌≡◌, ◌≤◌, ◌<◌, ◌^◌, true, Some};
ghost use Rattle.vm_types.specs.declared.op.Op.TheVariants.{Read};
ghost use Rattle.vm_types.specs.declared.reply.Reply.{Reply as Replied};
ghost use Rattle.vm_types.specs.Fits.{fits};
ghost use Rattle.device_trace.specs.Doing.{led};
ghost use Rattle.vq_split.specs.Chain.{read_bytes};
ghost use Rattle.vq_split.specs.Kept.{are_inside};
ghost use Rattle.dev_core.specs.Pieces.{past, place, room};
ghost use Rattle.queue_device.specs.Acting.{Comes, Works, performing};
ghost use Rattle.queue_device.specs.Kept.{work_after};
ghost use Rattle.queue_device.specs.Spilling.{spill_left};
ghost use Rattle.queue_device.specs.declared.lanes.Which.TheVariants.{First, Second, Third};
ghost use Rattle.queue_device.specs.declared.phase.Work.TheVariants as work;
ghost use Rattle.vsock_device.specs.Data.{delivered};
ghost use Rattle.vsock_device.specs.Guest.{dialled, forwarding_all, guest_connection, is_new, passed, piece_read, told_open, welcomed};
ghost use Rattle.vsock_device.specs.Vsock.{told};
ghost use Rattle.vsock_device.specs.Work.{hand_of, is_work};
ghost use Rattle.vsock_device.specs.declared.kind.Stage.TheVariants as stages;

use crate::connection::{Connection, Standing};
use crate::connections::MOST;
use crate::data::Vsock;
use crate::kind::VsockKind;
use crate::packet::Head;
use dev_core::Gather;
use queue_device::Spill;
use vm_types::Reply;
use vsock_packet::{Header, Operation};

// A piece was written.
fn given(spill: Spill) -> Spill
    ensures left { (reply : Replied) → spill_left result ≡ led (spill_left spill) reply }
    ensures inside { (pages : ℕ) → pages < 2 ^ 32 → are_inside pages spill.to ≡ true → are_inside pages result.to ≡ true }
{
    if spill.is_done() {
        return spill;
    }
    let mut spill = spill;
    spill.give();
    spill
}

// The connection of this number that the guest asked for.
fn guest_connection(host: u32, header: &Header) -> Connection
    ensures { result ≡ guest_connection host header.now }
{
    Connection {
        host,
        host_port: header.dst_port,
        guest_port: header.src_port,
        standing: Standing::Open,
        fwd_cnt: 0,
        tx_cnt: 0,
        peer_buf_alloc: header.buf_alloc,
        peer_fwd_cnt: header.fwd_cnt,
    }
}

impl Vsock {
    // Whether there is room for one more, whose number isn't in use.
    fn is_new(&self, host: u32) -> bool
        ensures { result ≡ is_new host self.now }
    {
        !self.connections.is_live(host) && self.connections.as_slice().len() < MOST
    }

    // One more, which the guest is told.
    fn welcome(&mut self, c: &Connection)
        requires { is_new c.now.host self.old ≡ true }
        ensures { self.new ≡ welcomed c.now self.old }
    {
        self.connect(c);
        self.answer_with(Head::of(Operation::Response, c));
    }
}

impl VsockKind {
    /// A piece of a packet was written.
    pub(crate) fn delivered(&mut self, spill: Spill, len: u32) -> Option<Option<u32>>
        requires rest { self.old.stage ≡ stages.Rest }
        ensures works { (reply : Replied) →
            Works (performing (led (spill_left spill) reply) self.old.own (λ f left. Comes (delivered f) (Some len)))
            result self.new.own (hand_of self.new.stage).op (hand_of self.new.stage).serving }
        ensures work { (pages : ℕ) → pages < 2 ^ 32 → are_inside pages spill.to ≡ true →
            is_work (work_after result (work.Serve First)) pages self.new.stage ≡ true }
    {
        self.deliver_on(given(spill), len)
    }

    /// A piece of the event was written.
    pub(crate) fn told(&mut self, spill: Spill) -> Option<Option<u32>>
        requires rest { self.old.stage ≡ stages.Rest }
        ensures works { (reply : Replied) →
            Works (performing (led (spill_left spill) reply) self.old.own (λ f left. Comes (told f) (Some 4)))
            result self.new.own (hand_of self.new.stage).op (hand_of self.new.stage).serving }
        ensures work { (pages : ℕ) → pages < 2 ^ 32 → are_inside pages spill.to ≡ true →
            is_work (work_after result (work.Serve Third)) pages self.new.stage ≡ true }
    {
        self.event_on(given(spill))
    }

    /// The host answered a guest that asks for a connection.
    pub(crate) fn dialled(&mut self, reply: &Reply, header: &Header) -> Option<Option<u32>>
        requires rest { self.old.stage ≡ stages.Rest }
        ensures works { Works (dialled reply.now header.now self.old.own)
            result self.new.own (hand_of self.new.stage).op (hand_of self.new.stage).serving }
        ensures work { (pages : ℕ) → is_work (work_after result (work.Serve Second)) pages self.new.stage ≡ true }
    {
        match reply {
            Reply::Dialled { connection } => {
                if self.own.is_new(*connection) {
                    self.own.welcome(&guest_connection(*connection, header));
                } else {
                    self.own.refuse(header);
                }
            }
            _ => self.own.refuse(header),
        }
        Some(Some(0))
    }

    /// A connection of the host was told that the guest takes it, or couldn't be.
    pub(crate) fn told_open(&mut self, reply: &Reply, host: u32) -> Option<Option<u32>>
        requires rest { self.old.stage ≡ stages.Rest }
        ensures works { Works (told_open reply.now host self.old.own)
            result self.new.own (hand_of self.new.stage).op (hand_of self.new.stage).serving }
        ensures work { (pages : ℕ) → is_work (work_after result (work.Serve Second)) pages self.new.stage ≡ true }
    {
        match reply {
            Reply::Done => self.own.open(host),
            _ => self.own.fail(host),
        }
        Some(Some(0))
    }

    /// Bytes went to the host, or couldn't.
    pub(crate) fn passed(
        &mut self,
        reply: &Reply,
        host: u32,
        n: usize,
        from: Gather,
    ) -> Option<Option<u32>>
        requires rest { self.old.stage ≡ stages.Rest }
        requires most { n ≤ 64 }
        ensures works { Works (passed reply.now host n self.old.own (λ f. forwarding_all host from f))
            result self.new.own (hand_of self.new.stage).op (hand_of self.new.stage).serving }
        ensures work { (pages : ℕ) → are_inside pages from ≡ true →
            is_work (work_after result (work.Serve Second)) pages self.new.stage ≡ true }
    {
        match reply {
            Reply::Done => {
                self.own.forward(host, n);
                self.read_on(host, from)
            }
            _ => {
                self.own.fail(host);
                Some(Some(0))
            }
        }
    }

    /// A piece of a packet was read.
    pub(crate) fn piece_read(
        &mut self,
        reply: &Reply,
        host: u32,
        from: Gather,
    ) -> Option<Option<u32>>
        requires rest { self.old.stage ≡ stages.Rest }
        requires fit { fits (Read (place from) (room from)) reply.now ≡ true }
        ensures works { Works (piece_read host (read_bytes (room from) reply.now) self.old.own
            (λ f. forwarding_all host (past (room from) from) f))
            result self.new.own (hand_of self.new.stage).op (hand_of self.new.stage).serving }
        ensures work { (pages : ℕ) → pages < 2 ^ 32 → are_inside pages from ≡ true →
            is_work (work_after result (work.Serve Second)) pages self.new.stage ≡ true }
    {
        let mut from = from;
        let piece = from.give(reply);
        if self.own.connections.is_live(host) {
            self.pass(host, piece, from)
        } else {
            Some(Some(0))
        }
    }
}
