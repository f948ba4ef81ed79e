// The walk of one chain.
ghost use Rattle.std.specs.Prelude.{ℕ, ◌≡◌, ◌==◌, ◌≤◌, ◌<◌, ◌&&◌, ◌+◌, ◌-◌, ◌++◌, MatchResult, IfOk, Some, None, List, length, true, [], ◌∷◌};
ghost use Rattle.vm_types.specs.Fits.{fits};
ghost use Rattle.device_trace.specs.Doing.{and_then, asked, led};
ghost use Rattle.le_fields.specs.Fields.{bytes_of};
ghost use Rattle.vq_split.specs.Chain.{described_by, descriptor_of, entries, entry_begun, entry_linked, entry_place, front_length, headed_by, index_seen};
ghost use Rattle.vq_split.specs.Chain.{indexed_by, is_writable, most_parts, queue_flaw, read_bytes};
ghost use Rattle.vq_split.specs.declared.queue.Table.{Table};
ghost use Rattle.vq_split.specs.declared.walk.Stage.TheVariants.{Entry, EntryRest, Index, Link, Ring};
ghost use Rattle.vq_split.specs.declared.walk.Walk.TheVariants as walks;
ghost use Rattle.vq_split.specs.Inside.{WalkInside};
ghost use Rattle.vq_split.specs.Kept.{IsWalking, is_walking, walking_from};
ghost use Rattle.vq_split.specs.Walking.{IsEntry, IsSound, Told, look_led, look_left, look_open, walk_left, walk_of, walk_wants};

use crate::descriptor::{Descriptor, descriptor_flaw, entry_flaw};
use crate::entry::{entry_place, front_length};
use crate::fields::{index_in, read_bytes};
use crate::flaw::queue_flaw;
use crate::queue::{Part, PartList, Queue, Table, Why};
use crate::valid::{are_inside, is_sound, is_stage};
use le_fields::put16;
use std::marker::Model;
use std::mem::replace;
use vm_types::{Op, Piece, Reply};

/// What a reply made of a walk.
#[derive(Drop)]
pub enum Walk {
    /// It goes on.
    More,
    /// The chain with this head has these parts.
    Chain { head: u16, parts: PartList },
    /// No chain is there.
    Empty,
    Broken { why: Why },
}

/// The act that a walk wants.
#[derive(Clone, Copy, Drop)]
pub enum Stage {
    /// The available ring's index.
    Index,
    /// The write of the index at which the device wants a kick, where the first look showed nothing new.
    AvailEvent,
    /// The index once more, behind that.
    IndexAgain,
    /// The entry of the available ring.
    Ring,
    /// The descriptor of this number.
    Link {
        head: u16,
        at: u16,
    },
    /// The entry of this number of a table that a descriptor names, or as much of it as its page has.
    Entry {
        head: u16,
        table: Table,
        at: u16,
    },
    /// The rest of it, behind this front.
    EntryRest {
        head: u16,
        table: Table,
        at: u16,
        front: Piece,
    },
}

fn part_of(d: &Descriptor) -> Part
    ensures { result ≡ record { at = d.now.at; len = d.now.len; writable = is_writable d.now } }
{
    Part {
        at: d.at,
        len: d.len,
        writable: d.is_writable(),
    }
}

fn index_piece(index: u16) -> Piece
    ensures { result ≡ bytes_of 2 index }
{
    let mut bytes = [0; 2];
    put16(&mut bytes, 0, index);
    Piece::from_slice(&bytes)
}

// The front of an entry and its rest.
fn both(front: &Piece, rest: &Piece) -> [u8; 16]
    requires { length front.now + length rest.now ≡ 16 }
    ensures { result ≡ front.now ++ rest.now }
{
    let mut bytes = [0; 16];
    bytes[..front.len()].copy_from_slice(front.as_slice());
    bytes[front.len()..].copy_from_slice(rest.as_slice());
    bytes
}

// The entry with this front, of which the rest came.
fn joined(front: &Piece, reply: &Reply) -> Descriptor
    requires front { length front.now ≤ 16 }
    requires rest { length (read_bytes (16 - length front.now) reply.now) ≡ 16 - length front.now }
    ensures { result ≡ descriptor_of (front.now ++ read_bytes (16 - length front.now) reply.now) }
{
    let rest = read_bytes(16 - front.len(), reply);
    Descriptor::from_bytes(&both(front, &rest))
}

/// The walk of one chain of a queue.
#[derive(Drop)]
pub struct ChainWalk {
    queue: Queue,
    next: u16,
    stage: Stage,
    parts: PartList,
}

impl Model for ChainWalk {
    ghost use Rattle.vq_split.specs.Inside.{AreInside};
    ghost use Rattle.vq_split.specs.Walking.{Walking, IsSound, IsStage};

    ghost Value = { Walking };

    ghost view = { λ w. record { queue = w.queue; next = w.next; stage = w.stage; parts = w.parts } };

    ghost invariant = { λ w. IsSound w.queue × IsStage w.stage w.queue w.parts × AreInside w.queue.pages w.parts };
}

impl ChainWalk {
    /// The walk of the chain number `next`, modulo 65,536. `Err` exactly where the queue's own fields make
    /// it broken.
    pub fn new(queue: Queue, next: u16) -> Result<ChainWalk, Why>
        ensures first { MatchResult result (λ walk. (queue_flaw queue ≡ None) × (walk ≡ walk_of queue next))
            (λ why. queue_flaw queue ≡ Some why) }
        ensures sound { IfOk result (λ walk. IsSound queue) }
    {
        if let Some(why) = queue_flaw(&queue) {
            return Err(why);
        }
        Ok(ChainWalk {
            queue,
            next,
            stage: Stage::Index,
            parts: PartList::new(),
        })
    }

    /// The walk that has these, if there is such a one.
    pub fn from_parts(queue: Queue, next: u16, stage: Stage, parts: PartList) -> Option<ChainWalk>
        ensures { result ≡ walking_from queue next stage parts }
    {
        let sound = is_sound(&queue);
        let staged = is_stage(&stage, &queue, parts.as_slice());
        let inside = are_inside(queue.pages, parts.as_slice());
        if sound && staged && inside {
            Some(ChainWalk {
                queue,
                next,
                stage,
                parts,
            })
        } else {
            None
        }
    }

    /// Its queue.
    pub fn queue(&self) -> &Queue
        ensures { result.now ≡ self.now.queue }
    {
        &self.queue
    }

    /// The number of its chain, modulo 65,536.
    pub fn number(&self) -> u16
        ensures { result ≡ self.now.next }
    {
        self.next
    }

    /// The act that it is at.
    pub fn stage(&self) -> Stage
        ensures { result ≡ self.now.stage }
    {
        self.stage
    }

    /// The parts that it has.
    pub fn parts(&self) -> &[Part]
        ensures parts { result.now ≡ self.now.parts }
        ensures most { length result.now ≤ 256 }
    {
        self.parts.as_slice()
    }

    /// The act that is wanted: a read of a table.
    pub fn want(&self) -> Op
        ensures op { result ≡ walk_wants self.now }
        ensures asked { asked (walk_left self.now) ≡ Some result }
    {
        match self.stage {
            Stage::Index | Stage::IndexAgain => Op::Read {
                at: self.queue.available + 2,
                len: 2,
            },
            Stage::AvailEvent => Op::Write {
                at: self.queue.used + (4 + 8 * self.queue.size as u64),
                piece: index_piece(self.next),
            },
            Stage::Ring => Op::Read {
                at: self.queue.available + (4 + 2 * (self.next as u64 % self.queue.size as u64)),
                len: 2,
            },
            Stage::Link { head: _, at } => Op::Read {
                at: self.queue.descriptors + 16 * at as u64,
                len: 16,
            },
            Stage::Entry { head: _, table, at } => {
                let place = entry_place(&table, at);
                Op::Read {
                    at: place,
                    len: front_length(place),
                }
            }
            Stage::EntryRest {
                head: _,
                table,
                at,
                front,
            } => Op::Read {
                at: entry_place(&table, at) + front.len() as u64,
                len: 16 - front.len(),
            },
        }
    }

    /// A walk is one that there is, and always has something left to want.
    #[tactic(auto, using(crate::proofs::Kept::test_of_walking))]
    pub fn wanting(&self)
        ensures is { IsWalking self.now }
        ensures test { is_walking self.now ≡ true }
        ensures asked { asked (walk_left self.now) ≡ Some (walk_wants self.now) }
    {
        match self.stage {
            Stage::Index => {}
            Stage::AvailEvent => {}
            Stage::IndexAgain => {}
            Stage::Ring => {}
            Stage::Link { .. } => {}
            Stage::Entry { .. } => {}
            Stage::EntryRest { .. } => {}
        }
    }

    /// Leads the walk on by a reply to the act that it wants. What has ended is where it began. The parts of the chain
    /// that it comes to are inside RAM.
    pub fn give(&mut self, reply: Reply) -> Walk
        requires { fits (walk_wants self.old) reply ≡ true }
        ensures told { Told (led (walk_left self.old) reply) result (walk_left self.new) }
        ensures look { result ≡ walks.More → look_left self.new.stage self.new.queue self.new.next ≡
            look_led (look_left self.old.stage self.old.queue self.old.next) reply }
        ensures queue { self.new.queue ≡ self.old.queue }
        ensures number { self.new.next ≡ self.old.next }
        ensures inside { WalkInside self.old.queue.pages result }
    {
        match self.stage {
            Stage::Index => self.seen(index_in(&reply)),
            Stage::AvailEvent => {
                self.stage = Stage::IndexAgain;
                Walk::More
            }
            Stage::IndexAgain => self.indexed(index_in(&reply)),
            Stage::Ring => self.headed(index_in(&reply)),
            Stage::Link { head, at: _ } => {
                let d = Descriptor::from_bytes(read_bytes(16, &reply).as_slice());
                self.described(head, d)
            }
            Stage::Entry { head, table, at } => {
                let length = front_length(entry_place(&table, at));
                self.begun(head, table, at, read_bytes(length, &reply))
            }
            Stage::EntryRest {
                head,
                table,
                at: _,
                front: _,
            } => {
                let d = self.rest_came(&reply);
                self.entered(head, table, d)
            }
        }
    }

    // The entry of which the rest came.
    fn rest_came(&self, reply: &Reply) -> Descriptor
        requires { fits (walk_wants self.now) reply.now ≡ true }
        ensures { (head : ℕ) → (table : Table) → (at : ℕ) → (front : List ℕ) → self.now.stage ≡ EntryRest head table at front →
            result ≡ descriptor_of (front ++ read_bytes (16 - length front) reply.now) }
    {
        match &self.stage {
            Stage::EntryRest {
                head: _,
                table: _,
                at: _,
                front,
            } => joined(front, reply),
            _ => Descriptor::from_bytes(&[0; 16]),
        }
    }

    // Whether a look at this index is followed by a second one.
    fn is_old(&self, index: u16) -> bool
        ensures { result ≡ ((index == self.now.next) && self.now.queue.accepted.event_index) }
    {
        index == self.next && self.queue.accepted.event_index
    }

    // The first look: where it shows nothing new, and the event index was accepted, there is a second one.
    fn seen(&mut self, index: u16) -> Walk
        requires { self.old.stage ≡ Index }
        ensures told { Told (and_then (index_seen self.old.queue self.old.next index) (indexed_by self.old.queue self.old.next))
            result (walk_left self.new) }
        ensures look { result ≡ walks.More → look_left self.new.stage self.new.queue self.new.next ≡
            look_open (index_seen self.old.queue self.old.next index) }
        ensures queue { self.new.queue ≡ self.old.queue }
        ensures number { self.new.next ≡ self.old.next }
        ensures inside { WalkInside self.old.queue.pages result }
    {
        if self.is_old(index) {
            self.stage = Stage::AvailEvent;
            Walk::More
        } else {
            self.indexed(index)
        }
    }

    // The look that counts.
    fn indexed(&mut self, index: u16) -> Walk
        requires { self.old.parts ≡ [] }
        ensures told { Told (indexed_by self.old.queue self.old.next index) result (walk_left self.new) }
        ensures look { result ≡ walks.More → look_left self.new.stage self.new.queue self.new.next ≡ None }
        ensures queue { self.new.queue ≡ self.old.queue }
        ensures number { self.new.next ≡ self.old.next }
        ensures inside { WalkInside self.old.queue.pages result }
    {
        let ahead = index.wrapping_sub(self.next);
        self.stage = Stage::Index;
        if index == self.next {
            Walk::Empty
        } else if self.queue.size < ahead {
            Walk::Broken { why: Why::Ahead }
        } else {
            self.stage = Stage::Ring;
            Walk::More
        }
    }

    fn headed(&mut self, head: u16) -> Walk
        requires { self.old.stage ≡ Ring }
        ensures told { Told (headed_by self.old.queue head) result (walk_left self.new) }
        ensures look { result ≡ walks.More → look_left self.new.stage self.new.queue self.new.next ≡ None }
        ensures queue { self.new.queue ≡ self.old.queue }
        ensures number { self.new.next ≡ self.old.next }
        ensures inside { WalkInside self.old.queue.pages result }
    {
        if self.queue.size <= head {
            self.stage = Stage::Index;
            Walk::Broken { why: Why::Index }
        } else {
            self.stage = Stage::Link { head, at: head };
            Walk::More
        }
    }

    #[tactic(auto, using(crate::proofs::Inside::part_inside))]
    fn described(&mut self, head: u16, d: Descriptor) -> Walk
        requires { (at : ℕ) × (self.old.stage ≡ Link head at) }
        ensures told { Told (described_by self.old.queue head (self.old.queue.size - length self.old.parts - 1)
            self.old.parts d) result (walk_left self.new) }
        ensures look { result ≡ walks.More → look_left self.new.stage self.new.queue self.new.next ≡ None }
        ensures queue { self.new.queue ≡ self.old.queue }
        ensures number { self.new.next ≡ self.old.next }
        ensures inside { WalkInside self.old.queue.pages result }
    {
        if let Some(why) = descriptor_flaw(&self.queue, self.parts.as_slice(), &d) {
            return self.broken(why);
        }
        if d.is_indirect() {
            let table = Table::named(&d);
            self.stage = Stage::Entry { head, table, at: 0 };
            return Walk::More;
        }
        let part = part_of(&d);
        if d.has_next() {
            self.parts.push(part);
            self.stage = Stage::Link { head, at: d.next };
            Walk::More
        } else {
            self.over(head, part)
        }
    }

    // The front of an entry came, which may be all of it.
    fn begun(&mut self, head: u16, table: Table, at: u16, front: Piece) -> Walk
        requires stage { self.old.stage ≡ Entry head table at }
        requires front { length front ≡ front_length (entry_place table at) }
        ensures told { Told (entry_begun (entry_place table at) front (λ d. entry_linked self.old.queue head table self.old.parts d
            (entries self.old.queue head table (most_parts - length self.old.parts - 1)))) result (walk_left self.new) }
        ensures look { result ≡ walks.More → look_left self.new.stage self.new.queue self.new.next ≡ None }
        ensures queue { self.new.queue ≡ self.old.queue }
        ensures number { self.new.next ≡ self.old.next }
        ensures inside { WalkInside self.old.queue.pages result }
    {
        if front.len() < 16 {
            self.stage = Stage::EntryRest {
                head,
                table,
                at,
                front,
            };
            return Walk::More;
        }
        let d = Descriptor::from_bytes(front.as_slice());
        self.entered(head, table, d)
    }

    // An entry came.
    #[tactic(auto, using(crate::proofs::Inside::part_inside))]
    fn entered(&mut self, head: u16, table: Table, d: Descriptor) -> Walk
        requires { (at : ℕ) × IsEntry self.old.queue table at self.old.parts }
        ensures told { Told (entry_linked self.old.queue head table self.old.parts d
            (entries self.old.queue head table (most_parts - length self.old.parts - 1))) result (walk_left self.new) }
        ensures look { result ≡ walks.More → look_left self.new.stage self.new.queue self.new.next ≡ None }
        ensures queue { self.new.queue ≡ self.old.queue }
        ensures number { self.new.next ≡ self.old.next }
        ensures inside { WalkInside self.old.queue.pages result }
    {
        if let Some(why) = entry_flaw(&self.queue, &table, self.parts.as_slice(), &d) {
            return self.broken(why);
        }
        let part = part_of(&d);
        if d.has_next() {
            self.parts.push(part);
            self.stage = Stage::Entry {
                head,
                table,
                at: d.next,
            };
            Walk::More
        } else {
            self.over(head, part)
        }
    }

    // It is where it began, since the queue is broken.
    fn broken(&mut self, why: Why) -> Walk
        ensures walk { result ≡ walks.Broken why }
        ensures left { self.new ≡ walk_of self.old.queue self.old.next }
    {
        self.stage = Stage::Index;
        self.parts = PartList::new();
        Walk::Broken { why }
    }

    // And since this part is its last.
    fn over(&mut self, head: u16, part: Part) -> Walk
        requires { length self.old.parts < most_parts }
        ensures walk { result ≡ walks.Chain head (self.old.parts ++ part ∷ []) }
        ensures left { self.new ≡ walk_of self.old.queue self.old.next }
    {
        self.stage = Stage::Index;
        let mut parts = replace(&mut self.parts, PartList::new());
        parts.push(part);
        Walk::Chain { head, parts }
    }
}
