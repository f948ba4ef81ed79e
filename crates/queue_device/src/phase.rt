// Where a device with queues is inside a group of acts.
use crate::chain::SoundQueue;
use crate::lanes::Which;
use dev_core::{BreakStage, ReturnStage};
use vq_split::ChainWalk;

/// The chain in hand: its queue, as it was when it was taken, and the number of its first descriptor.
#[derive(Clone, Copy, Drop)]
pub struct InHand {
    pub which: Which,
    pub queue: SoundQueue,
    pub head: u16,
}

/// What a kind is at, by what its device is at.
#[derive(Clone, Copy, Drop)]
pub enum Work {
    /// No work was begun.
    Rest,
    /// The host object answered.
    Answer,
    /// A chain of this queue is taken.
    Take(Which),
    /// A chain of this queue is served.
    Serve(Which),
}

/// What a device is at.
#[derive(Drop)]
pub enum Phase {
    /// No group is begun.
    Between,
    /// The host object answered, and the kind goes on.
    Question,
    /// The next chain of a queue is walked.
    Walk {
        which: Which,
        walk: ChainWalk,
    },
    /// A chain is read, before it may be served.
    Take {
        chain: InHand,
    },
    /// A chain is served.
    Serve {
        chain: InHand,
    },
    /// It is given back, with so many bytes written.
    Return {
        chain: InHand,
        len: u32,
        stage: ReturnStage,
    },
    /// The queue was found broken, and that is told.
    Break {
        which: Which,
        stage: BreakStage,
    },
}
