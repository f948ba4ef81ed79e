// The calls of a vsock device.
ghost use Rattle.std.specs.Prelude.{◌≡◌, ◌&&◌, length, nat_le, nat_lt};
ghost use Rattle.vq_split.specs.Kept.{are_inside};
ghost use Rattle.vsock_device.specs.Vsock.{begun_by, text_of};
ghost use Rattle.vsock_device.specs.Work.{are_parts, has_left, is_spilling};

use crate::data::{InHand, Vsock, VsockChange};
use crate::kind::{Stage, VsockKind, stage_again};
use dev_core::{Collect, Held, readable, writable};
use queue_device::{Begin, Kind, Spill, TakenChain, TakenParts, Which, Work};
use std::mem::replace;
use vm_types::{Op, OutOp, Reply};
use vq_split::{Part, PartList, are_inside};

// Whether these parts lie inside RAM, and aren't more than a chain has.
fn are_parts(pages: u32, parts: &[Part]) -> bool
    ensures { result ≡ are_parts pages parts.now }
{
    are_inside(pages, parts) && parts.len() <= 256
}

// Whether so many bytes are left to do, at such parts.
fn has_left(pages: u32, n: usize, parts: &[Part]) -> bool
    ensures { result ≡ has_left pages n parts.now }
{
    0 < n && are_inside(pages, parts) && parts.len() <= 256
}

fn is_spilling(pages: u32, spill: &Spill) -> bool
    ensures { result ≡ is_spilling pages spill.now }
{
    has_left(pages, spill.share(), spill.to.parts())
}

impl Vsock {
    // What a chain receives.
    fn text(&self) -> Held
        ensures { result ≡ text_of self.now.guest_cid self.now.in_hand }
    {
        match &self.in_hand {
            InHand::Receives(packet) => packet.text(self.guest_cid),
            _ => Held::new(),
        }
    }

    // The chain in hand, of this queue.
    fn begun(&self, which: Which) -> InHand
        ensures { result ≡ begun_by which self.now }
    {
        match which {
            Which::First => match self.waiting() {
                None => InHand::Free,
                Some(packet) => InHand::Receives(packet),
            },
            Which::Second => InHand::Unjudged,
            Which::Third => InHand::Free,
        }
    }
}

impl Kind for VsockKind {
    ghost use Rattle.std.specs.Prelude.{false};
    ghost use Rattle.vsock_device.specs.declared.data.Vsock.{Vsock};
    ghost use Rattle.vsock_device.specs.declared.kind.Stage.{Stage};
    ghost use Rattle.vsock_device.specs.Reset.{resetting};
    ghost use Rattle.vsock_device.specs.Vsock.{is_host_call, vsock};
    ghost use Rattle.vsock_device.specs.Work.{AnyVsock, hand_of, is_work};

    type Change = VsockChange;

    ghost Own = { Vsock };

    ghost service = { vsock };

    ghost changing = { resetting };

    ghost times = { false };

    ghost calls = { is_host_call };

    ghost Stage = { Stage };

    ghost own = { λ k. k.own };

    ghost stage = { λ k. k.stage };

    ghost hand = { hand_of };

    ghost is_work = { is_work };

    ghost IsFine = { AnyVsock };

    fn last(&self) -> Which {
        Which::Third
    }

    fn may_ask(&self) -> bool {
        true
    }

    fn may_wait(&self) -> bool {
        false
    }

    fn is_taken(&self, which: Which, chain: &TakenChain) -> bool {
        let _ = which;
        let _ = chain;
        true
    }

    fn is_work(&self, work: Work, pages: u32) -> bool {
        match (work, &self.stage) {
            (Work::Rest, Stage::Rest) => true,
            (Work::Answer, Stage::Close(_)) => true,
            (Work::Serve(Which::First), Stage::Deliver(spill, _)) => is_spilling(pages, spill),
            (Work::Serve(Which::Second), Stage::Fetch(from, _)) => {
                let from = from.inner();
                from.held.as_slice().len() < 44
                    && has_left(pages, from.from.room(), from.from.parts())
            }
            (Work::Serve(Which::Second), Stage::Close(_)) => true,
            (Work::Serve(Which::Second), Stage::Dial(_)) => true,
            (Work::Serve(Which::Second), Stage::Accept(_, _)) => true,
            (Work::Serve(Which::Second), Stage::Send(_, piece, from)) => {
                0 < piece.len() && are_parts(pages, from.parts())
            }
            (Work::Serve(Which::Second), Stage::Read(_, from)) => {
                has_left(pages, from.room(), from.parts())
            }
            (Work::Serve(Which::Third), Stage::Event(spill)) => is_spilling(pages, spill),
            _ => false,
        }
    }

    fn want(&self) -> Op {
        match &self.stage {
            Stage::Rest => Op::Idle,
            Stage::Close(host) => Op::Out(OutOp::HostClose { connection: *host }),
            Stage::Deliver(spill, _) => spill.op(),
            Stage::Event(spill) => spill.op(),
            Stage::Fetch(from, _) => from.op(),
            Stage::Dial(header) => Op::Out(OutOp::HostDial {
                port: header.dst_port,
            }),
            Stage::Accept(host, line) => Op::Out(OutOp::HostSend {
                piece: *line,
                connection: *host,
            }),
            Stage::Send(host, piece, _) => Op::Out(OutOp::HostSend {
                piece: *piece,
                connection: *host,
            }),
            Stage::Read(_, from) => Op::Read {
                at: from.place(),
                len: from.room(),
            },
        }
    }

    fn asks(&self) -> bool {
        self.own.answer.is_none() && self.own.held.is_none()
    }

    fn question(&self) -> Op {
        Op::Out(OutOp::HostNext)
    }

    fn answer(&mut self, reply: &Reply) -> Option<bool> {
        self.stage = Stage::Rest;
        match reply {
            Reply::Opened { connection } => self.opened(*connection),
            Reply::Received { piece, connection } => self.heard(*connection, piece),
            Reply::Ended { connection } => self.ended(*connection),
            _ => Some(false),
        }
    }

    fn answer_on(&mut self, reply: &Reply) -> Option<bool> {
        let _ = reply;
        match replace(&mut self.stage, Stage::Rest) {
            Stage::Close(_) => Some(true),
            _ => Some(false),
        }
    }

    fn wants_chain(&self, which: Which, is_kicked: bool) -> bool {
        match which {
            Which::First => self.own.waiting().is_some(),
            Which::Second => is_kicked && self.own.waiting().is_none(),
            Which::Third => self.own.reset_due,
        }
    }

    fn begun(&mut self, which: Which) {
        self.own.in_hand = self.own.begun(which);
    }

    fn take(&mut self, which: Which, parts: PartList) -> Option<Option<TakenParts>> {
        let _ = which;
        Some(Some(TakenParts::new(parts, Collect::new())))
    }

    fn take_on(&mut self, reply: &Reply) -> Option<Option<TakenParts>> {
        let _ = reply;
        self.stage = Stage::Rest;
        Some(None)
    }

    fn is_timed(&self, which: Which, chain: &TakenChain) -> bool {
        let _ = which;
        let _ = chain;
        false
    }

    fn passes(&mut self, which: Which, chain: &TakenChain, now: u64) -> bool {
        let _ = which;
        let _ = chain;
        let _ = now;
        true
    }

    fn serves(&self, which: Which, chain: &TakenChain) -> Begin {
        let mut same = self.again();
        match same.serve(which, chain) {
            None => Begin::Wants(same.want()),
            Some(len) => Begin::Comes(len),
        }
    }

    fn serve(&mut self, which: Which, chain: &TakenChain) -> Option<Option<u32>> {
        self.stage = Stage::Rest;
        match which {
            Which::First => {
                let text = self.own.text();
                self.receive(text, writable(chain.parts()))
            }
            Which::Second => self.transmit(readable(chain.parts())),
            Which::Third => self.tell_event(writable(chain.parts())),
        }
    }

    fn serve_on(&mut self, reply: &Reply) -> Option<Option<u32>> {
        match replace(&mut self.stage, Stage::Rest) {
            Stage::Rest => Some(None),
            Stage::Close(_) => Some(Some(0)),
            Stage::Deliver(spill, len) => self.delivered(spill, len),
            Stage::Event(spill) => self.told(spill),
            Stage::Fetch(from, len) => self.fetch_on(from.give(reply), len),
            Stage::Dial(header) => self.dialled(reply, &header),
            Stage::Accept(host, _) => self.told_open(reply, host),
            Stage::Send(host, piece, from) => self.passed(reply, host, piece.len(), from),
            Stage::Read(host, from) => self.piece_read(reply, host, from),
        }
    }

    fn over(&mut self, which: Which) {
        let _ = which;
        self.own.in_hand = InHand::Free;
    }

    fn reset(&mut self) {
        self.own = Vsock::new(self.own.guest_cid);
    }

    fn change(&mut self, change: VsockChange) {
        let VsockChange::Reset = change;
        self.own.reset();
    }

    fn change_inside(&mut self, change: VsockChange, op: &Op) -> Option<Reply> {
        let VsockChange::Reset = change;
        let cut = self.own.in_hand.cut(op);
        self.own.reset();
        cut
    }

    fn again(&self) -> VsockKind {
        VsockKind {
            own: self.own.again(),
            stage: stage_again(&self.stage),
        }
    }
}
