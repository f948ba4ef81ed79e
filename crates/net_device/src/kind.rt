// What a network device does, beside its rounds.
ghost use Rattle.std.specs.Prelude.{ℕ, ◌≡◌, ◌≤◌, ◌<◌, ◌+◌, ◌-◌, ◌*◌, ◌&&◌, true, false, Some, None, [], drop, length, nat_le};
ghost use Rattle.vm_types.specs.declared.op.Op.TheVariants.{Out, Read};
ghost use Rattle.vm_types.specs.declared.reply.Reply.{Reply as Replied};
ghost use Rattle.device_trace.specs.Doing.{led};
ghost use Rattle.vm_types.specs.declared.op.OutOp.TheVariants.{LinkPart};
ghost use Rattle.vm_types.specs.Fits.{fits};
ghost use Rattle.vq_split.specs.Kept.{are_inside};
ghost use Rattle.dev_core.specs.Pieces.{past, place, put_all, readable, room, share, total, writable};
ghost use Rattle.queue_device.specs.Acting.{Works, performing};
ghost use Rattle.queue_device.specs.Left.{begin_of};
ghost use Rattle.queue_device.specs.Kept.{work_after};
ghost use Rattle.queue_device.specs.declared.lanes.Which.TheVariants.{First, Second};
ghost use Rattle.queue_device.specs.declared.phase.Work.TheVariants as work;
ghost use Rattle.net_device.specs.Frames.{header_size, is_frame, piece_length, piece_sent, pieces, sending_all, sent_length, taking};
ghost use Rattle.net_device.specs.Net.{emptied, limited, received};
ghost use Rattle.net_device.specs.declared.kind.Stage.TheVariants as stages;
ghost use Rattle.net_device.specs.Work.{at_work, hand_of, is_at, is_work, kept_from, own_of, sent, written};

use crate::text::Text;
use crate::valid::is_at;
use dev_core::{Gather, Scatter, readable, total, writable};
use queue_device::{Begin, parts_again};
use rate_gate::RateGate;
use std::marker::Model;
use std::mem::replace;
use token_bucket::Bucket;
use vm_types::{Piece, Reply};
use vq_split::PartList;

pub(crate) const HEADER_SIZE: usize = 12;

/// What the API may change: the bucket of bytes and that of operations, each another one, none, or the one that is there.
#[derive(Drop)]
pub enum NetChange {
    /// Of what is received.
    Receives(Option<Option<Bucket>>, Option<Option<Bucket>>),
    /// Of what is transmitted.
    Transmits(Option<Option<Bucket>>, Option<Option<Bucket>>),
}

/// What a network device is at.
#[derive(Drop)]
pub enum Stage {
    Rest,
    /// A frame of this length is taken from the link, its piece of this number next.
    Take(u64, u64),
    /// A frame is written with its header, from this byte on.
    Receive(usize, Scatter),
    /// A frame is read, and so many bytes before it are passed over.
    Read(usize, Gather),
    /// A piece of it is sent, before the next is read.
    Send(Piece, usize, Gather),
    /// All of it was sent.
    End,
}

/// A network device: what waits for the driver, a frame that is taken from the link or written to the driver, its limits, and its
/// work.
#[derive(Drop)]
pub struct NetKind {
    pub(crate) text: Text,
    pub(crate) frame: Text,
    pub(crate) rx: RateGate,
    pub(crate) tx: RateGate,
    pub(crate) stage: Stage,
}

impl Model for NetKind {
    ghost use Rattle.net_device.specs.Work.{IsAt, Kept};

    ghost Value = { Kept };

    ghost view = { λ n. record {
      own = record { text = n.text; rx = n.rx; tx = n.tx };
      doing = record { stage = n.stage; bytes = n.frame };
    } };

    ghost invariant = { λ n. IsAt n.stage n.frame };
}

// How many pieces a frame has.
pub(crate) fn pieces(length: u64) -> u64
    requires { length ≤ 1514 }
    ensures { result ≡ pieces length }
{
    (length + 63) / 64
}

// How long its piece of this number is.
pub(crate) fn piece_length(length: u64, index: u64) -> u64
    requires { index < pieces length }
    ensures length { result ≡ piece_length length index }
    ensures most { result ≤ 64 }
{
    (length - 64 * index).min(64)
}

// How long the frame is that these parts have.
pub(crate) fn sent_length(parts: &PartList) -> u64
    ensures { result ≡ sent_length parts.now }
{
    total(readable(parts).as_slice()).saturating_sub(HEADER_SIZE as u64)
}

pub(crate) fn is_frame(length: u64) -> bool
    ensures { result ≡ is_frame length }
{
    14 <= length && length <= 1514
}

// Whether so many bytes fit into what can be written of these parts.
pub(crate) fn has_room(len: usize, parts: &PartList) -> bool
    ensures { result ≡ nat_le len (total (writable parts.now)) }
{
    len as u64 <= total(writable(parts).as_slice())
}

// Other buckets in place of those that are named.
pub(crate) fn limit(kind: &mut NetKind, change: NetChange)
    ensures own { own_of kind.new ≡ limited change (own_of kind.old) }
    ensures stage { at_work kind.new ≡ at_work kind.old }
{
    match change {
        NetChange::Receives(bandwidth, ops) => kind.rx.set_buckets(bandwidth, ops),
        NetChange::Transmits(bandwidth, ops) => kind.tx.set_buckets(bandwidth, ops),
    }
}

// The bytes of a piece behind its first ones.
fn behind(piece: &Piece, skip: usize) -> Piece
    ensures { result ≡ drop skip piece.now }
{
    let bytes = piece.as_slice();
    Piece::from_slice(&bytes[skip.min(bytes.len())..])
}

// The piece that was read, less what is passed over of it, and how much is passed over behind it.
#[tactic(auto, using(crate::proofs::Working::read_led))]
pub(crate) fn read_piece(skip: usize, from: &mut Gather, reply: &Reply) -> (Piece, usize)
    requires room { 0 < room from.old }
    requires fit { fits (Read (place from.old) (room from.old)) reply.now ≡ true }
    ensures sent { piece_sent result.0 (sending_all result.1 from.new) ≡ led (sending_all skip from.old) reply.now }
    ensures from { from.new ≡ past (room from.old) from.old }
{
    let piece = from.give(reply);
    (
        behind(&piece, skip),
        skip.saturating_sub(piece.as_slice().len()),
    )
}

impl NetKind {
    /// A network device with these limits for which no frame waits.
    pub fn new(rx: RateGate, tx: RateGate) -> NetKind
        ensures { result ≡ record {
          own = record { text = []; rx = rx; tx = tx };
          doing = record { stage = stages.Rest; bytes = [] };
        } }
    {
        NetKind {
            text: Text::new(),
            frame: Text::new(),
            rx,
            tx,
            stage: Stage::Rest,
        }
    }

    /// The network device that keeps these, if one may be at this stage.
    #[tactic(auto, using(crate::proofs::Stages::stage_of))]
    pub fn from_parts(
        text: Text,
        rx: RateGate,
        tx: RateGate,
        stage: Stage,
        frame: Text,
    ) -> Option<NetKind>
        ensures { result ≡ kept_from (record {
          own = record { text = text; rx = rx; tx = tx };
          doing = record { stage = stage; bytes = frame };
        }) }
    {
        if is_at(&stage, &frame) {
            Some(NetKind {
                text,
                frame,
                rx,
                tx,
                stage,
            })
        } else {
            None
        }
    }

    /// What waits for the driver: the header and a frame, or no byte.
    pub fn text(&self) -> &Text
        ensures { result.now ≡ self.now.own.text }
    {
        &self.text
    }

    /// How much it may receive.
    pub fn rx(&self) -> &RateGate
        ensures { result.now ≡ self.now.own.rx }
    {
        &self.rx
    }

    /// How much it may transmit.
    pub fn tx(&self) -> &RateGate
        ensures { result.now ≡ self.now.own.tx }
    {
        &self.tx
    }

    /// What it is at, where one may be.
    #[tactic(auto, using(crate::proofs::Stages::test_of_stage))]
    pub fn stage(&self) -> &Stage
        ensures stage { result.now ≡ self.now.doing.stage }
        ensures is { is_at self.now.doing.stage self.now.doing.bytes ≡ true }
    {
        &self.stage
    }

    /// The frame that is taken from the link or written to the driver, behind its header; or no byte.
    pub fn frame(&self) -> &Text
        ensures { result.now ≡ self.now.doing.bytes }
    {
        &self.frame
    }

    // How many bytes wait for the driver.
    pub(crate) fn text_len(&self) -> usize
        ensures len { result ≡ length (own_of self.now).text }
        ensures most { result ≤ 1526 }
    {
        self.text.len()
    }

    // It is at rest, and no frame is on its way.
    pub(crate) fn rest(&mut self)
        ensures rest { self.new.doing.stage ≡ stages.Rest }
        ensures clear { self.new.doing.bytes ≡ [] }
        ensures own { own_of self.new ≡ own_of self.old }
    {
        self.stage = Stage::Rest;
        self.frame.clear();
    }

    // The frame that waits goes into a chain.
    pub(crate) fn text_begins(&mut self)
        requires { self.old.doing.stage ≡ stages.Rest }
        ensures rest { self.new.doing.stage ≡ stages.Rest }
        ensures frame { self.new.doing.bytes ≡ (own_of self.old).text }
        ensures own { own_of self.new ≡ emptied (own_of self.old) }
    {
        self.frame = replace(&mut self.text, Text::new());
    }

    // The piece of this number is taken, as long as there is one.
    #[tactic(auto, using(crate::proofs::Staying::at_rest, crate::proofs::Staying::take_more))]
    pub(crate) fn take_piece(&mut self, size: u64, index: u64) -> Option<bool>
        requires rest { self.old.doing.stage ≡ stages.Rest }
        requires most { size ≤ 1514 }
        requires index { index ≤ pieces size }
        requires bytes { index < pieces size → length self.old.doing.bytes ≡ header_size + 64 * index }
        ensures works { Works (performing (taking (pieces size - index) size index self.old.doing.bytes) (own_of self.old) received)
            result (own_of self.new) (hand_of (at_work self.new)).op (hand_of (at_work self.new)).answering }
        ensures work { (pages : ℕ) → is_frame size ≡ true →
            is_work (work_after result work.Answer) pages (at_work self.new) ≡ true }
    {
        if index == pieces(size) {
            self.text = replace(&mut self.frame, Text::new());
            return Some(true);
        }
        self.stage = Stage::Take(size, index);
        None
    }

    // The frame is written from this byte on, as long as there are some.
    #[tactic(auto, using(crate::proofs::Working::fills, crate::proofs::Working::filled, crate::proofs::Staying::at_rest, crate::proofs::Staying::receive_more,))]
    pub(crate) fn fill(&mut self, at: usize, to: Scatter) -> Option<Option<u32>>
        requires rest { self.old.doing.stage ≡ stages.Rest }
        requires at { at ≤ length self.old.doing.bytes }
        ensures works { Works (performing (put_all (drop at self.old.doing.bytes) to) (own_of self.old)
            (λ e left. written (length self.old.doing.bytes) e))
            result (own_of self.new) (hand_of (at_work self.new)).op (hand_of (at_work self.new)).serving }
        ensures work { (pages : ℕ) → are_inside pages to ≡ true →
            is_work (work_after result (work.Serve First)) pages (at_work self.new) ≡ true }
    {
        let len = self.frame.len();
        if (len - at).min(to.room()) == 0 {
            self.frame.clear();
            return Some(Some(len as u32));
        }
        let _parts = to.parts();
        self.stage = Stage::Receive(at, to);
        None
    }

    // How it begins to be written.
    #[tactic(auto, using(crate::proofs::Working::fill_wants, crate::proofs::Working::fill_comes))]
    pub(crate) fn fill_begins(&self, len: usize, to: Scatter) -> Begin
        requires len { len ≡ length (own_of self.now).text }
        requires most { len ≤ 1526 }
        ensures { result ≡ begin_of (performing (put_all (own_of self.now).text to) (emptied (own_of self.now))
            (λ e left. written len e)) }
    {
        let n = len.min(to.room());
        if n == 0 {
            Begin::Comes(Some(len as u32))
        } else {
            Begin::Wants(to.op(self.text.piece(0, n)))
        }
    }

    // How many bytes the next piece has that is written, of those from a place on.
    #[tactic(auto, using(crate::proofs::Working::share_is))]
    pub(crate) fn share(&self, at: usize, to: &Scatter) -> usize
        requires { at ≤ length self.now.doing.bytes }
        ensures share { result ≡ share (drop at self.now.doing.bytes) to.now }
        ensures most { result ≤ 64 }
    {
        (self.frame.len() - at).min(to.room())
    }

    // Passes the piece that was written.
    #[tactic(auto, using(crate::proofs::Working::fill_led))]
    pub(crate) fn pass_piece(&self, at: usize, to: &mut Scatter) -> usize
        requires { 0 < share (drop at self.now.doing.bytes) to.old }
        ensures led { (reply : Replied) →
            put_all (drop result self.now.doing.bytes) to.new ≡ led (put_all (drop at self.now.doing.bytes) to.old) reply }
        ensures at { result ≤ length self.now.doing.bytes }
        ensures to { (n : ℕ) × (n ≤ room to.old) × (to.new ≡ past n to.old) }
    {
        let n = (self.frame.len() - at).min(to.room());
        to.pass(n);
        at + n
    }

    // The next piece is read, or the frame is ended.
    #[tactic(auto, using(crate::proofs::Staying::read_more, crate::proofs::Staying::end_more))]
    pub(crate) fn send_next(&mut self, skip: usize, from: Gather) -> Option<Option<u32>>
        requires rest { self.old.doing.stage ≡ stages.Rest }
        ensures works { Works (performing (sending_all skip from) (own_of self.old) (λ e done. sent e))
            result (own_of self.new) (hand_of (at_work self.new)).op (hand_of (at_work self.new)).serving }
        ensures work { (pages : ℕ) → are_inside pages from ≡ true →
            is_work (work_after result (work.Serve Second)) pages (at_work self.new) ≡ true }
    {
        let _parts = from.parts();
        self.frame.clear();
        if from.room() == 0 {
            self.stage = Stage::End;
        } else {
            self.stage = Stage::Read(skip, from);
        }
        None
    }

    // A piece is sent, if there is one.
    #[tactic(auto, using(crate::proofs::Staying::send_more))]
    pub(crate) fn send_piece(
        &mut self,
        piece: Piece,
        skip: usize,
        from: Gather,
    ) -> Option<Option<u32>>
        requires rest { self.old.doing.stage ≡ stages.Rest }
        ensures works { Works (performing (piece_sent piece (sending_all skip from)) (own_of self.old) (λ e done. sent e))
            result (own_of self.new) (hand_of (at_work self.new)).op (hand_of (at_work self.new)).serving }
        ensures work { (pages : ℕ) → are_inside pages from ≡ true →
            is_work (work_after result (work.Serve Second)) pages (at_work self.new) ≡ true }
    {
        if piece.as_slice().len() == 0 {
            return self.send_next(skip, from);
        }
        let _parts = from.parts();
        self.frame.clear();
        self.stage = Stage::Send(piece, skip, from);
        None
    }
}

// ---- once more

fn gather_again(from: &Gather) -> Gather
    ensures { result ≡ from.now }
{
    Gather::new(parts_again(from.parts()))
}

pub(crate) fn stage_again(stage: &Stage) -> Stage
    ensures { result ≡ stage.now }
{
    match stage {
        Stage::Rest => Stage::Rest,
        Stage::Take(size, index) => Stage::Take(*size, *index),
        Stage::Receive(at, to) => Stage::Receive(*at, Scatter::new(parts_again(to.parts()))),
        Stage::Read(skip, from) => Stage::Read(*skip, gather_again(from)),
        Stage::Send(piece, skip, from) => Stage::Send(*piece, *skip, gather_again(from)),
        Stage::End => Stage::End,
    }
}
