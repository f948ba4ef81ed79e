// A chain that was taken of a queue.
ghost use Rattle.std.specs.Prelude.{◌≡◌, if◌then◌else◌, Some, None};
ghost use Rattle.vq_split.specs.Kept.{is_sound};
ghost use Rattle.vq_split.specs.Walking.{IsSound};
ghost use Rattle.queue_device.specs.Chains.{got_of};

use dev_core::Collect;
use std::marker::Model;
use vq_split::{ChainWalk, Part, PartList, Queue, is_sound};

/// A queue whose own fields have no flaw, as its registers were at a look.
#[derive(Clone, Copy, Drop)]
pub struct SoundQueue {
    inner: Queue,
}

impl Model for SoundQueue {
    ghost use Rattle.vq_split.specs.declared.queue.Queue.{Queue};
    ghost use Rattle.vq_split.specs.Walking.{IsSound};

    ghost Value = { Queue };

    ghost view = { λ q. q.inner };

    ghost invariant = { λ q. IsSound q.inner };

    ghost inverse = { λ q. record { inner = q } };
}

impl SoundQueue {
    /// The queue of these fields, where they have no flaw.
    pub fn from_fields(queue: Queue) -> Option<SoundQueue>
        ensures { result ≡ (if is_sound queue then Some queue else None) }
    {
        if is_sound(&queue) {
            Some(SoundQueue { inner: queue })
        } else {
            None
        }
    }

    /// The queue that a walk is made on.
    pub fn of(walk: &ChainWalk) -> SoundQueue
        ensures { result ≡ walk.now.queue }
    {
        walk.wanting();
        SoundQueue {
            inner: *walk.queue(),
        }
    }

    /// Its fields.
    pub fn fields(&self) -> Queue
        ensures queue { result ≡ self.now }
        ensures sound { IsSound self.now }
    {
        self.inner
    }
}

/// What a kind keeps of a chain that it took: the parts that it still needs, and what it read.
#[derive(Drop)]
pub struct TakenParts {
    parts: PartList,
    got: Collect,
}

impl Model for TakenParts {
    ghost use Rattle.queue_device.specs.Chains.{Taken, got_of};

    ghost Value = { Taken };

    ghost view = { λ t. record { parts = t.parts; got = got_of t.got } };
}

impl TakenParts {
    /// These parts, and this that was read.
    pub fn new(parts: PartList, got: Collect) -> TakenParts
        ensures { result ≡ record { parts = parts; got = got_of got } }
    {
        TakenParts { parts, got }
    }

    /// The parts.
    pub fn parts(&self) -> &PartList
        ensures { result.now ≡ self.now.parts }
    {
        &self.parts
    }

    /// What was read.
    pub fn got(&self) -> &Collect
        ensures { got_of result.now ≡ self.now.got }
    {
        &self.got
    }
}

/// A chain that was taken: the queue as it was then, the number of its first descriptor, and what its kind keeps of it.
#[derive(Drop)]
pub struct TakenChain {
    queue: SoundQueue,
    head: u16,
    taken: TakenParts,
}

impl Model for TakenChain {
    ghost use Rattle.queue_device.specs.Chains.{Chain};

    ghost Value = { Chain };

    ghost view = { λ c. record { queue = c.queue; head = c.head; parts = c.taken.parts; got = c.taken.got } };
}

impl TakenChain {
    /// A chain of which this is kept.
    pub fn new(queue: SoundQueue, head: u16, taken: TakenParts) -> TakenChain
        ensures { result ≡ record { queue = queue; head = head; parts = taken.parts; got = taken.got } }
    {
        TakenChain { queue, head, taken }
    }

    /// Its queue, as it was when the chain was taken.
    pub fn queue(&self) -> SoundQueue
        ensures { result ≡ self.now.queue }
    {
        self.queue
    }

    /// The number of its first descriptor.
    pub fn head(&self) -> u16
        ensures { result ≡ self.now.head }
    {
        self.head
    }

    /// The parts of it that its kind still needs.
    pub fn parts(&self) -> &PartList
        ensures { result.now ≡ self.now.parts }
    {
        self.taken.parts()
    }

    /// What was read of it before it may be served.
    pub fn got(&self) -> &Collect
        ensures { got_of result.now ≡ self.now.got }
    {
        self.taken.got()
    }
}
