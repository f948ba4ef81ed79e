// What a device keeps, once more.
ghost use Rattle.std.specs.Prelude.{◌≡◌, ◌≤◌, length};

use crate::chain::{TakenChain, TakenParts};
use crate::device::QueueRounds;
use crate::kind::Kind;
use crate::lanes::{Lane, Rounds};
use crate::phase::Phase;
use dev_core::{Collect, Gather, Held};
use vq_split::{ChainWalk, Part, PartList};

/// The same parts.
pub fn parts_again(parts: &[Part]) -> PartList
    requires { length parts.now ≤ 256 }
    ensures { result ≡ parts.now }
{
    PartList::copy_of(parts).unwrap()
}

/// The same bytes, with the same parts that more are read from.
pub fn collect_again(from: &Collect) -> Collect
    ensures { result ≡ from.now }
{
    Collect {
        from: Gather::new(parts_again(from.from.parts())),
        held: Held::copy_of(from.held.as_slice()).unwrap(),
    }
}

fn walk_again(walk: &ChainWalk) -> ChainWalk
    ensures { result ≡ walk.now }
{
    walk.wanting();
    let parts = parts_again(walk.parts());
    ChainWalk::from_parts(*walk.queue(), walk.number(), walk.stage(), parts).unwrap()
}

fn chain_again(chain: &TakenChain) -> TakenChain
    ensures { result ≡ chain.now }
{
    let parts = parts_again(chain.parts().as_slice());
    let taken = TakenParts::new(parts, collect_again(chain.got()));
    TakenChain::new(chain.queue(), chain.head(), taken)
}

fn waiting_again(waiting: &Option<TakenChain>) -> Option<TakenChain>
    ensures { result ≡ waiting.now }
{
    match waiting {
        Some(chain) => Some(chain_again(chain)),
        None => None,
    }
}

fn lane_again(lane: &Lane) -> Lane
    ensures { result ≡ lane.now }
{
    Lane {
        queue: lane.queue,
        waiting: waiting_again(&lane.waiting),
        next: lane.next,
        used: lane.used,
        is_kicked: lane.is_kicked,
    }
}

fn rounds_again(rounds: &Rounds) -> Rounds
    ensures { result ≡ rounds.now }
{
    Rounds {
        first: lane_again(&rounds.first),
        second: lane_again(&rounds.second),
        third: lane_again(&rounds.third),
        pages: rounds.pages,
        port: rounds.port,
        due: rounds.due,
        is_busy: rounds.is_busy,
    }
}

fn phase_again(phase: &Phase) -> Phase
    ensures { result ≡ phase.now }
{
    match phase {
        Phase::Between => Phase::Between,
        Phase::Question => Phase::Question,
        Phase::Walk { which, walk } => Phase::Walk {
            which: *which,
            walk: walk_again(walk),
        },
        Phase::Take { chain } => Phase::Take { chain: *chain },
        Phase::Serve { chain } => Phase::Serve { chain: *chain },
        Phase::Return { chain, len, stage } => Phase::Return {
            chain: *chain,
            len: *len,
            stage: *stage,
        },
        Phase::Break { which, stage } => Phase::Break {
            which: *which,
            stage: *stage,
        },
    }
}

impl<K: Kind> QueueRounds<K> {
    /// A device that keeps the same.
    pub fn again(&self) -> QueueRounds<K>
        ensures { result ≡ self.now }
    {
        QueueRounds {
            rounds: rounds_again(&self.rounds),
            kind: self.kind.again(),
            phase: phase_again(&self.phase),
        }
    }
}
