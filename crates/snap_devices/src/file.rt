// A block device as a file has it.
use block_device::ServiceStage;
use dev_core::{BreakStage, Collect, ReturnStage, Scatter};
use queue_device::TakenChain;
use rate_gate::RateGate;
use vq_split::{ChainWalk, Queue};

/// What is due next.
#[derive(Clone, Copy, Drop)]
pub enum FileDue {
    /// A look at the port, which begins a round.
    Look,
    /// The next chain of the queue.
    Walk,
    /// A wait.
    Idle,
}

/// Its data.
#[derive(Clone, Copy, Drop)]
pub struct FileData {
    /// The size of the disk, in sectors of 512 bytes.
    pub sectors: u64,
    /// The queue that the round in hand works on; between two rounds one that has the guest's pages alone.
    pub queue: Queue,
    /// What GET_ID gives.
    pub drive_id: [u8; 20],
    /// The number of the next chain, modulo 65,536.
    pub next: u16,
    /// How many chains were given back, modulo 65,536.
    pub used: u16,
    /// The number of the device's port.
    pub port: u8,
    pub is_read_only: bool,
    /// Kicked since the queue was last found empty.
    pub is_kicked: bool,
    /// The round in hand gave a chain back.
    pub has_finished: bool,
    pub due: FileDue,
}

/// Where it is, while no chain is walked.
#[derive(Clone, Copy, Drop)]
pub enum FilePhase {
    /// Between two groups of acts.
    Between,
    /// The queue was found broken, and that is told.
    Break {
        stage: BreakStage,
    },
    /// The header of a request is read: how many bytes are held and left to read, and the chain's head.
    Header {
        len: u64,
        head: u16,
    },
    /// A request is served: where its status goes, its act, and the chain's head.
    Serve {
        at: u64,
        stage: ServiceStage,
        head: u16,
    },
    /// A chain is given back: how many bytes were written, its head, and how far.
    Return {
        len: u32,
        head: u16,
        stage: ReturnStage,
    },
}

/// The device: its data, where it is, the walk that is begun, what is read of a request, and the parts that are still written.
#[derive(Drop)]
pub struct FileBlock {
    pub facts: FileData,
    pub phase: FilePhase,
    pub walk: Option<ChainWalk>,
    pub from: Collect,
    pub to: Scatter,
}

/// What may be lacking behind it.
#[derive(Drop)]
pub struct FileMore {
    pub limits: RateGate,
    /// The chain that waits for guest time.
    pub waiting: Option<TakenChain>,
    /// The queue of the chain in hand, where it was taken when the queue had other registers.
    pub in_hand: Option<Queue>,
}
