// What a vsock device is at, and what a chain receives.
ghost use Rattle.std.specs.Prelude.{ℕ, ◌≡◌, true, Some};
ghost use Rattle.vq_split.specs.Kept.{are_inside};
ghost use Rattle.queue_device.specs.Acting.{Works, Comes, performing};
ghost use Rattle.queue_device.specs.Kept.{work_after};
ghost use Rattle.queue_device.specs.Spilling.{spill_left};
ghost use Rattle.queue_device.specs.declared.lanes.Which.TheVariants.{First, Third};
ghost use Rattle.queue_device.specs.declared.phase.Work.TheVariants as work;
ghost use Rattle.vsock_device.specs.Data.{delivered, new_data};
ghost use Rattle.vsock_device.specs.Vsock.{event_told, received, told};
ghost use Rattle.vsock_device.specs.Work.{hand_of, is_work};
ghost use Rattle.vsock_device.specs.declared.kind.Stage.TheVariants as stages;

use crate::data::Vsock;
use crate::fetching::Fetching;
use dev_core::{Gather, Held, total};
use queue_device::{Spill, parts_again};
use vm_types::Piece;
use vq_split::PartList;
use vsock_packet::Header;

/// What a vsock device is at.
#[derive(Drop)]
pub enum Stage {
    Rest,
    /// A connection is closed at the host.
    Close(u32),
    /// A packet of so many bytes is written.
    Deliver(Spill, u32),
    /// An event is written.
    Event(Spill),
    /// A packet's header is read, behind which the chain has so many bytes.
    Fetch(Fetching, u64),
    /// The guest's packet asks for a connection, and its port is dialled.
    Dial(Header),
    /// A connection of the host is told that the guest takes it, by this line.
    Accept(u32, Piece),
    /// A piece of a packet goes to the host on a connection, before the next is read.
    Send(u32, Piece, Gather),
    /// The next piece is read.
    Read(u32, Gather),
}

/// A vsock device: its data, and its work.
#[derive(Drop)]
pub struct VsockKind {
    pub own: Vsock,
    pub stage: Stage,
}

impl VsockKind {
    /// A vsock device that has done nothing, for the guest of this CID.
    pub fn new(guest_cid: u64) -> VsockKind
        ensures { result ≡ record { own = new_data guest_cid; stage = stages.Rest } }
    {
        VsockKind {
            own: Vsock::new(guest_cid),
            stage: Stage::Rest,
        }
    }

    // The packet is written, as long as there are bytes of it.
    pub(crate) fn deliver_on(&mut self, spill: Spill, len: u32) -> Option<Option<u32>>
        requires rest { self.old.stage ≡ stages.Rest }
        ensures works { Works (performing (spill_left spill) self.old.own (λ f left. Comes (delivered f) (Some len)))
            result self.new.own (hand_of self.new.stage).op (hand_of self.new.stage).serving }
        ensures work { (pages : ℕ) → are_inside pages spill.to ≡ true →
            is_work (work_after result (work.Serve First)) pages self.new.stage ≡ true }
    {
        if spill.is_done() {
            self.own.deliver();
            return Some(Some(len));
        }
        let _parts = spill.to.parts();
        self.stage = Stage::Deliver(spill, len);
        None
    }

    // What waits for the guest is written to a chain, if it is long enough.
    pub(crate) fn receive(&mut self, text: Held, to: PartList) -> Option<Option<u32>>
        requires rest { self.old.stage ≡ stages.Rest }
        ensures works { Works (received text to self.old.own)
            result self.new.own (hand_of self.new.stage).op (hand_of self.new.stage).serving }
        ensures work { (pages : ℕ) → are_inside pages to ≡ true →
            is_work (work_after result (work.Serve First)) pages self.new.stage ≡ true }
    {
        let len = text.as_slice().len();
        if len as u64 <= total(to.as_slice()) {
            self.deliver_on(Spill::new(text, to), len as u32)
        } else {
            Some(Some(0))
        }
    }

    // The event is written, as long as there are bytes of it.
    pub(crate) fn event_on(&mut self, spill: Spill) -> Option<Option<u32>>
        requires rest { self.old.stage ≡ stages.Rest }
        ensures works { Works (performing (spill_left spill) self.old.own (λ f left. Comes (told f) (Some 4)))
            result self.new.own (hand_of self.new.stage).op (hand_of self.new.stage).serving }
        ensures work { (pages : ℕ) → are_inside pages spill.to ≡ true →
            is_work (work_after result (work.Serve Third)) pages self.new.stage ≡ true }
    {
        if spill.is_done() {
            self.own.reset_due = false;
            return Some(Some(4));
        }
        let _parts = spill.to.parts();
        self.stage = Stage::Event(spill);
        None
    }

    // The guest is told that its connections are gone, in a chain that is long enough.
    pub(crate) fn tell_event(&mut self, to: PartList) -> Option<Option<u32>>
        requires rest { self.old.stage ≡ stages.Rest }
        ensures works { Works (event_told to self.old.own)
            result self.new.own (hand_of self.new.stage).op (hand_of self.new.stage).serving }
        ensures work { (pages : ℕ) → are_inside pages to ≡ true →
            is_work (work_after result (work.Serve Third)) pages self.new.stage ≡ true }
    {
        if 4 <= total(to.as_slice()) {
            let mut event = Held::new();
            event.append(&Piece::from_slice(&[0; 4]));
            self.event_on(Spill::new(event, to))
        } else {
            Some(Some(0))
        }
    }
}

// ---- once more

fn spill_again(spill: &Spill) -> Spill
    ensures { result ≡ spill.now }
{
    let held = Held::copy_of(spill.held.as_slice()).unwrap();
    Spill::new(held, parts_again(spill.to.parts()))
}

fn gather_again(from: &Gather) -> Gather
    ensures { result ≡ from.now }
{
    Gather::new(parts_again(from.parts()))
}

pub(crate) fn stage_again(stage: &Stage) -> Stage
    ensures { result ≡ stage.now }
{
    match stage {
        Stage::Rest => Stage::Rest,
        Stage::Close(host) => Stage::Close(*host),
        Stage::Deliver(spill, len) => Stage::Deliver(spill_again(spill), *len),
        Stage::Event(spill) => Stage::Event(spill_again(spill)),
        Stage::Fetch(from, len) => Stage::Fetch(from.again(), *len),
        Stage::Dial(header) => Stage::Dial(*header),
        Stage::Accept(host, line) => Stage::Accept(*host, *line),
        Stage::Send(host, piece, from) => Stage::Send(*host, *piece, gather_again(from)),
        Stage::Read(host, from) => Stage::Read(*host, gather_again(from)),
    }
}
