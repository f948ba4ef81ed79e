// What a block device keeps, and its form in a file.
ghost use Rattle.std.specs.Prelude.{◌≡◌, ◌+◌, length, true, false, Some, None, IfSome, IfNone, if◌then◌else◌};
ghost use Rattle.queue_device.specs.declared.lanes.Rounds.{Rounds};
ghost use Rattle.queue_device.specs.Kept.{is_place, is_same_queue};
ghost use Rattle.vq_split.specs.Kept.{is_sound};
ghost use Rattle.block_device.specs.States.{is_state};
ghost use Rattle.dev_core.specs.Pieces.{total};
ghost use Rattle.snap_devices.specs.Forms as form;
ghost use Rattle.snap_devices.specs.declared.file.FileMore.{FileMore};

use crate::file::{FileBlock, FileData, FileDue, FileMore, FilePhase};
use block_device::{Block, BlockData, BlockKind, BlockStage, BlockWork};
use dev_core::{Collect, no_queue, total};
use queue_device::{
    Due, InHand, Lane, Phase, QueueRounds, Rounds, SoundQueue, TakenChain, TakenParts, Which,
    collect_again, parts_again,
};
use vq_split::{ChainWalk, Queue};

// ---- what is kept, by its form

fn due_kept(due: FileDue) -> Due
    ensures { result ≡ form.due_kept due }
{
    match due {
        FileDue::Look => Due::Look,
        FileDue::Walk => Due::Lane(Which::First),
        FileDue::Idle => Due::Wait,
    }
}

fn queue_kept(due: FileDue, queue: Queue) -> Option<Queue>
    ensures { result ≡ form.queue_kept due queue }
{
    match due {
        FileDue::Walk => Some(queue),
        FileDue::Look | FileDue::Idle => None,
    }
}

fn rounds_kept(facts: &FileData, waiting: Option<TakenChain>) -> Rounds
    ensures { result ≡ form.rounds_kept facts.now waiting }
{
    Rounds {
        first: Lane {
            queue: queue_kept(facts.due, facts.queue),
            waiting,
            next: facts.next,
            used: facts.used,
            is_kicked: facts.is_kicked,
        },
        second: Lane::new(),
        third: Lane::new(),
        pages: facts.queue.pages,
        port: facts.port,
        due: due_kept(facts.due),
        is_busy: facts.has_finished,
    }
}

fn in_hand(queue: Queue, head: u16) -> Option<InHand>
    ensures { result ≡ (if is_sound queue then Some (form.in_hand queue head) else None) }
{
    match SoundQueue::from_fields(queue) {
        Some(queue) => Some(InHand {
            which: Which::First,
            queue,
            head,
        }),
        None => None,
    }
}

// What the device is at, unless a chain is in hand of a queue that has a flaw.
#[tactic(auto, using(crate::proofs::Forms::unsound_off))]
fn phase_kept(walk: Option<ChainWalk>, phase: FilePhase, queue: Queue) -> Option<Phase>
    ensures some { IfSome result (λ p. p ≡ form.phase_kept walk phase queue) }
    ensures none { IfNone result ((r : Rounds) → is_place true (form.phase_kept walk phase queue) r ≡ false) }
{
    if let Some(walk) = walk {
        return Some(Phase::Walk {
            which: Which::First,
            walk,
        });
    }
    match phase {
        FilePhase::Between => Some(Phase::Between),
        FilePhase::Break { stage } => Some(Phase::Break {
            which: Which::First,
            stage,
        }),
        FilePhase::Header { len: _, head } => match in_hand(queue, head) {
            Some(chain) => Some(Phase::Take { chain }),
            None => None,
        },
        FilePhase::Serve {
            at: _,
            stage: _,
            head,
        } => match in_hand(queue, head) {
            Some(chain) => Some(Phase::Serve { chain }),
            None => None,
        },
        FilePhase::Return { len, head, stage } => match in_hand(queue, head) {
            Some(chain) => Some(Phase::Return { chain, len, stage }),
            None => None,
        },
    }
}

fn hand_kept(in_hand: Option<Queue>, queue: Queue) -> Queue
    ensures { result ≡ form.hand_kept in_hand queue }
{
    match in_hand {
        Some(hand) => hand,
        None => queue,
    }
}

fn stage_kept(phase: FilePhase) -> BlockStage
    ensures { result ≡ form.stage_kept phase }
{
    match phase {
        FilePhase::Header { .. } => BlockStage::Header,
        FilePhase::Serve { at, stage, head: _ } => BlockStage::Serve(at, stage),
        FilePhase::Between | FilePhase::Break { .. } | FilePhase::Return { .. } => {
            BlockStage::Rest
        }
    }
}

// What is kept, where what this has may be kept together.
#[tactic(auto, using(crate::proofs::Forms::place_off, crate::proofs::Forms::work_off))]
fn kept_of(file: FileBlock, more: FileMore) -> Option<QueueRounds<BlockKind>>
    ensures some { IfSome result (λ state. state ≡ form.kept_of (file, more)) }
    ensures none { IfNone result (is_state (form.kept_of (file, more)) ≡ false) }
{
    let rounds = rounds_kept(&file.facts, more.waiting);
    let stage = stage_kept(file.phase);
    let queue = hand_kept(more.in_hand, file.facts.queue);
    let Some(phase) = phase_kept(file.walk, file.phase, queue) else {
        return None;
    };
    let Some(work) = BlockWork::from_parts(stage, file.from, file.to) else {
        return None;
    };
    let facts = BlockData {
        sectors: file.facts.sectors,
        drive_id: file.facts.drive_id,
        is_read_only: file.facts.is_read_only,
        limits: more.limits,
    };
    Some(QueueRounds {
        rounds,
        kind: BlockKind { facts, work },
        phase,
    })
}

// ---- which forms there are

fn is_queue_due(due: FileDue, queue: &Queue) -> bool
    ensures { result ≡ form.is_queue_due due queue.now }
{
    match due {
        FileDue::Walk => true,
        FileDue::Look | FileDue::Idle => {
            queue.descriptors == 0
                && queue.available == 0
                && queue.used == 0
                && queue.size == 0
                && !queue.accepted.indirect
                && !queue.accepted.event_index
        }
    }
}

fn is_walk_alone(walk: &Option<ChainWalk>, phase: FilePhase) -> bool
    ensures { result ≡ form.is_walk_alone walk.now phase }
{
    match walk {
        None => true,
        Some(_) => matches!(phase, FilePhase::Between),
    }
}

fn is_header_long(phase: FilePhase, from: &Collect) -> bool
    ensures { result ≡ form.is_header_long phase from.now }
{
    match phase {
        FilePhase::Header { len, head: _ } => len == bytes_of(from),
        FilePhase::Between
        | FilePhase::Break { .. }
        | FilePhase::Serve { .. }
        | FilePhase::Return { .. } => true,
    }
}

fn is_same_queue(a: &Queue, b: &Queue) -> bool
    ensures { result ≡ is_same_queue a.now b.now }
{
    a.descriptors == b.descriptors
        && a.available == b.available
        && a.used == b.used
        && a.size == b.size
        && a.pages == b.pages
        && a.accepted.indirect == b.accepted.indirect
        && a.accepted.event_index == b.accepted.event_index
}

fn is_hand(
    in_hand: &Option<Queue>,
    walk: &Option<ChainWalk>,
    phase: FilePhase,
    queue: &Queue,
) -> bool
    ensures { result ≡ form.is_hand in_hand.now walk.now phase queue.now }
{
    match in_hand {
        None => true,
        Some(hand) => match walk {
            Some(_) => false,
            None => match phase {
                FilePhase::Between | FilePhase::Break { .. } => false,
                FilePhase::Header { .. } | FilePhase::Serve { .. } | FilePhase::Return { .. } => {
                    !is_same_queue(queue, hand)
                }
            },
        },
    }
}

fn is_plain(file: &FileBlock, in_hand: &Option<Queue>) -> bool
    ensures { (more : FileMore) → more.in_hand ≡ in_hand.now → result ≡ form.is_plain (file.now, more) }
{
    is_queue_due(file.facts.due, &file.facts.queue)
        && is_walk_alone(&file.walk, file.phase)
        && is_header_long(file.phase, &file.from)
        && is_hand(in_hand, &file.walk, file.phase, &file.facts.queue)
}

/// The block device of which this is the form, with this behind it, if it is one.
pub fn block_of(file: FileBlock, more: FileMore) -> Option<Block>
    ensures { result ≡ (if form.is_form (file, more) then Some (form.kept_of (file, more)) else None) }
{
    if !is_plain(&file, &more.in_hand) {
        return None;
    }
    match kept_of(file, more) {
        Some(state) => Block::from_state(state),
        None => None,
    }
}

// ---- the form of what is kept

// How many bytes are held or left to be read.
fn bytes_of(from: &Collect) -> u64
    ensures { result ≡ length from.now.held + total from.now.from }
{
    from.held.as_slice().len() as u64 + total(from.from.parts())
}

fn due_filed(due: Due) -> FileDue
    ensures { result ≡ form.due_filed due }
{
    match due {
        Due::Look | Due::Question => FileDue::Look,
        Due::Lane(_) => FileDue::Walk,
        Due::Wait => FileDue::Idle,
    }
}

fn queue_filed(rounds: &Rounds) -> Queue
    ensures { result ≡ form.queue_filed rounds.now.pages rounds.now.first.queue }
{
    match rounds.first.queue {
        Some(queue) => queue,
        None => no_queue(rounds.pages),
    }
}

/// The data of a block device, as a file has them.
pub fn data_filed(state: &QueueRounds<BlockKind>) -> FileData
    ensures { result ≡ form.data_filed state.now }
{
    let rounds = &state.rounds;
    let facts = &state.kind.facts;
    FileData {
        sectors: facts.sectors,
        queue: queue_filed(rounds),
        drive_id: facts.drive_id,
        next: rounds.first.next,
        used: rounds.first.used,
        port: rounds.port,
        is_read_only: facts.is_read_only,
        is_kicked: rounds.first.is_kicked,
        has_finished: rounds.is_busy,
        due: due_filed(rounds.due),
    }
}

fn served_filed(head: u16, stage: BlockStage) -> FilePhase
    ensures { result ≡ form.served_filed head stage }
{
    match stage {
        BlockStage::Serve(at, stage) => FilePhase::Serve { at, stage, head },
        BlockStage::Rest | BlockStage::Header => FilePhase::Between,
    }
}

/// Where a block device is, as a file has it.
pub fn phase_filed(phase: &Phase, work: &BlockWork) -> FilePhase
    ensures { result ≡ form.phase_filed phase.now work.now.stage work.now.from }
{
    match phase {
        Phase::Between | Phase::Question | Phase::Walk { .. } => FilePhase::Between,
        Phase::Take { chain } => FilePhase::Header {
            len: bytes_of(work.from()),
            head: chain.head,
        },
        Phase::Serve { chain } => served_filed(chain.head, work.stage()),
        Phase::Return { chain, len, stage } => FilePhase::Return {
            len: *len,
            head: chain.head,
            stage: *stage,
        },
        Phase::Break { which: _, stage } => FilePhase::Break { stage: *stage },
    }
}

fn other_queue(queue: &Queue, hand: Queue) -> Option<Queue>
    ensures { result ≡ form.other_queue queue.now hand }
{
    if is_same_queue(queue, &hand) {
        None
    } else {
        Some(hand)
    }
}

fn hand_filed(phase: &Phase, queue: &Queue) -> Option<Queue>
    ensures { result ≡ form.hand_filed phase.now queue.now }
{
    match phase {
        Phase::Take { chain } => other_queue(queue, chain.queue.fields()),
        Phase::Serve { chain } => other_queue(queue, chain.queue.fields()),
        Phase::Return { chain, .. } => other_queue(queue, chain.queue.fields()),
        Phase::Between | Phase::Question | Phase::Walk { .. } | Phase::Break { .. } => None,
    }
}

fn chain_again(chain: &TakenChain) -> TakenChain
    ensures { result ≡ chain.now }
{
    let parts = TakenParts::new(
        parts_again(chain.parts().as_slice()),
        collect_again(chain.got()),
    );
    TakenChain::new(chain.queue(), chain.head(), parts)
}

/// What stands behind them, as far as there is something.
pub fn more_filed(state: &QueueRounds<BlockKind>) -> FileMore
    ensures { result ≡ form.more_filed state.now }
{
    let queue = queue_filed(&state.rounds);
    let waiting = match &state.rounds.first.waiting {
        Some(chain) => Some(chain_again(chain)),
        None => None,
    };
    FileMore {
        limits: state.kind.facts.limits.again(),
        waiting,
        in_hand: hand_filed(&state.phase, &queue),
    }
}
