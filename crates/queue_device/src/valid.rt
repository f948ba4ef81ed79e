// Which states a device may be in.
ghost use Rattle.std.specs.Prelude.{◌≡◌};
ghost use Rattle.dev_core.specs.Returning as returning;
ghost use Rattle.queue_device.specs.Confined as confined;
ghost use Rattle.queue_device.specs.Kept as kept;

use crate::chain::TakenChain;
use crate::kind::Kind;
use crate::lanes::{Due, Lane, Rounds, Which, is_up_to};
use crate::phase::{InHand, Phase, Work};
use dev_core::ReturnStage;
use vq_split::{ChainWalk, Queue, are_inside, is_sound};

// ---- the rounds

fn is_chain<K: Kind>(kind: &K, pages: u32, which: Which, chain: &TakenChain) -> bool
    ensures { result ≡ confined.is_chain K.service pages which chain.now }
{
    let queue = chain.queue().fields();
    queue.pages == pages
        && is_sound(&queue)
        && are_inside(pages, chain.parts().as_slice())
        && are_inside(pages, chain.got().from.parts())
        && kind.is_taken(which, chain)
}

fn is_lane<K: Kind>(kind: &K, pages: u32, which: Which, lane: &Lane) -> bool
    ensures { result ≡ confined.is_lane K.service pages which lane.now }
{
    let is_queue = match &lane.queue {
        None => true,
        Some(queue) => queue.pages == pages,
    };
    is_queue
        && match &lane.waiting {
            None => true,
            Some(chain) => is_chain(kind, pages, which, chain),
        }
}

fn are_lanes<K: Kind>(kind: &K, rounds: &Rounds) -> bool
    ensures { result ≡ confined.are_lanes K.service rounds.now.pages rounds.now }
{
    let pages = rounds.pages;
    is_lane(kind, pages, Which::First, &rounds.first)
        && is_lane(kind, pages, Which::Second, &rounds.second)
        && is_lane(kind, pages, Which::Third, &rounds.third)
}

fn is_new(lane: &Lane) -> bool
    ensures { result ≡ kept.is_new lane.now }
{
    lane.queue.is_none()
        && lane.waiting.is_none()
        && lane.next == 0
        && lane.used == 0
        && !lane.is_kicked
}

fn is_own_lane(times: bool, has: bool, lane: &Lane) -> bool
    ensures { result ≡ kept.is_own_lane times has lane.now }
{
    if has {
        times || lane.waiting.is_none()
    } else {
        is_new(lane)
    }
}

fn are_own_lanes<K: Kind>(kind: &K, rounds: &Rounds) -> bool
    ensures { result ≡ kept.are_own_lanes K.service K.times rounds.now }
{
    let (last, times) = (kind.last(), kind.may_wait());
    is_own_lane(times, is_up_to(last, Which::First), &rounds.first)
        && is_own_lane(times, is_up_to(last, Which::Second), &rounds.second)
        && is_own_lane(times, is_up_to(last, Which::Third), &rounds.third)
}

fn is_over(rounds: &Rounds) -> bool
    ensures { result ≡ kept.is_over rounds.now }
{
    rounds.first.queue.is_none()
        && rounds.second.queue.is_none()
        && rounds.third.queue.is_none()
        && !rounds.is_busy
}

fn is_next(may_ask: bool, rounds: &Rounds) -> bool
    ensures { result ≡ kept.is_next may_ask rounds.now.due rounds.now }
{
    match rounds.due {
        Due::Look | Due::Wait => is_over(rounds),
        Due::Question => may_ask,
        Due::Lane(which) => rounds.lane(which).queue.is_some(),
    }
}

fn are_kept<K: Kind>(kind: &K, rounds: &Rounds) -> bool
    ensures { result ≡ kept.are_kept K.service K.times rounds.now }
{
    are_lanes(kind, rounds) && are_own_lanes(kind, rounds) && is_next(kind.may_ask(), rounds)
}

// ---- inside a group

fn is_asking(due: Due) -> bool
    ensures { result ≡ kept.is_asking due }
{
    matches!(due, Due::Question)
}

fn is_at_lane(due: Due) -> bool
    ensures { result ≡ kept.is_at_lane due }
{
    matches!(due, Due::Lane(_))
}

fn is_same_queue(a: &Queue, b: &Queue) -> bool
    ensures { result ≡ kept.is_same_queue a.now b.now }
{
    a.descriptors == b.descriptors
        && a.available == b.available
        && a.used == b.used
        && a.size == b.size
        && a.pages == b.pages
        && a.accepted.indirect == b.accepted.indirect
        && a.accepted.event_index == b.accepted.event_index
}

fn is_of_round(shown: &Option<Queue>, queue: &Queue) -> bool
    ensures { result ≡ kept.is_of_round shown.now queue.now }
{
    match shown {
        None => false,
        Some(shown) => is_same_queue(shown, queue),
    }
}

fn is_in_hand(times: bool, chain: InHand, rounds: &Rounds) -> bool
    ensures { result ≡ kept.is_in_hand times chain rounds.now }
{
    let queue = chain.queue.fields();
    let shown = &rounds.lane(chain.which).queue;
    is_sound(&queue)
        && queue.pages == rounds.pages
        && (if times {
            shown.is_some()
        } else {
            is_of_round(shown, &queue)
        })
}

fn is_told(stage: ReturnStage, len: u32, head: u16) -> bool
    ensures { result ≡ kept.is_told stage len head }
{
    match stage {
        ReturnStage::Pair => true,
        ReturnStage::Half => head == 0,
        ReturnStage::Index | ReturnStage::Event | ReturnStage::Interrupt | ReturnStage::Line => {
            len == 0 && head == 0
        }
    }
}

// The driver's event is read where it was accepted alone.
fn may_return(stage: ReturnStage, queue: &Queue) -> bool
    ensures { result ≡ returning.may_return stage queue.now }
{
    match stage {
        ReturnStage::Event => queue.accepted.event_index,
        _ => true,
    }
}

fn is_walked(lane: &Lane, walk: &ChainWalk) -> bool
    ensures { result ≡ kept.is_walked lane.now walk.now }
{
    walk.wanting();
    is_of_round(&lane.queue, walk.queue()) && walk.number() == lane.next
}

fn is_place(times: bool, phase: &Phase, rounds: &Rounds) -> bool
    ensures { result ≡ kept.is_place times phase.now rounds.now }
{
    match phase {
        Phase::Between => true,
        Phase::Question => is_asking(rounds.due),
        Phase::Walk { which, walk } => {
            is_at_lane(rounds.due) && is_walked(rounds.lane(*which), walk)
        }
        Phase::Take { chain } | Phase::Serve { chain } => {
            is_at_lane(rounds.due) && is_in_hand(times, *chain, rounds)
        }
        Phase::Return { chain, len, stage } => {
            is_at_lane(rounds.due)
                && is_in_hand(times, *chain, rounds)
                && is_told(*stage, *len, chain.head)
                && may_return(*stage, &chain.queue.fields())
        }
        Phase::Break { which, stage: _ } => {
            is_at_lane(rounds.due) && rounds.lane(*which).queue.is_some()
        }
    }
}

fn work_of(phase: &Phase) -> Work
    ensures { result ≡ kept.work_of phase.now }
{
    match phase {
        Phase::Question => Work::Answer,
        Phase::Take { chain } => Work::Take(chain.which),
        Phase::Serve { chain } => Work::Serve(chain.which),
        _ => Work::Rest,
    }
}

/// Whether a device may be in this state.
pub fn is_state<K: Kind>(phase: &Phase, rounds: &Rounds, kind: &K) -> bool
    ensures { result ≡ kept.is_state K.service K.times K.is_work phase.now rounds.now (K.stage kind.now) }
{
    are_kept(kind, rounds)
        && is_place(kind.may_wait(), phase, rounds)
        && kind.is_work(work_of(phase), rounds.pages)
}
