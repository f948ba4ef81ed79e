// Which queue is next, and what a chain comes to.
ghost use Rattle.std.specs.Prelude.{◌≡◌, ◌<◌, ◌^◌, ℕ, Bool, true, IfSome, Option, is_some};
ghost use Rattle.vq_split.specs.Inside.{WalkInside};
ghost use Rattle.vm_types.specs.Fits.{fits};
ghost use Rattle.device_trace.specs.Doing.{Doing, asked, led};
ghost use Rattle.device_trace.specs.Script.{Ends, perform};
ghost use Rattle.vq_split.specs.Walking.{is_looking, look_left, walk_wants};
ghost use Rattle.dev_core.specs.Returning.{break_left, may_return, return_left};
ghost use Rattle.queue_device.specs.Acting.{Acting, Works};
ghost use Rattle.queue_device.specs.declared.phase.Work.TheVariants as work;
ghost use Rattle.queue_device.specs.Chains.{Taken};
ghost use Rattle.queue_device.specs.Confined.{is_chain};
ghost use Rattle.queue_device.specs.Kept.{RestsOn, are_kept, is_asking, is_fit, is_fit_told, is_holding, is_state, is_walked, is_working, work_after};
ghost use Rattle.queue_device.specs.Left.{Hand, left_at, queued, used_chain, walk_led, walk_shown};
ghost use Rattle.queue_device.specs.Lanes.{lane_of};
ghost use Rattle.queue_device.specs.Rounds.{answered, broken_off, due_behind, due_from, during, given_back, index_shown, is_due, second_due};
ghost use Rattle.queue_device.specs.Rounds.{served, serving, taken, taking, third_due, took, walked};
ghost use Rattle.queue_device.specs.Service.{Queued};

use crate::chain::{SoundQueue, TakenChain, TakenParts};
use crate::kind::Kind;
use crate::lanes::{Rounds, Which};
use crate::phase::{InHand, Phase};
use dev_core::{BreakStage, ReturnStage, UsedChain};
use vm_types::Reply;
use vq_split::{ChainWalk, Stage, Walk, index_in};

// Whether the round works on a queue of which a chain waits or is wanted.
fn is_due<K: Kind>(rounds: &Rounds, kind: &K, which: Which) -> bool
    ensures { result ≡ is_due K.service which (queued rounds.now (K.own kind.now)) }
{
    let lane = rounds.lane(which);
    lane.queue.is_some() && (lane.waiting.is_some() || kind.wants_chain(which, lane.is_kicked))
}

fn third_due<K: Kind>(rounds: &Rounds, kind: &K) -> Option<Which>
    ensures { result ≡ third_due K.service (queued rounds.now (K.own kind.now)) }
{
    if is_due(rounds, kind, Which::Third) {
        Some(Which::Third)
    } else {
        None
    }
}

fn second_due<K: Kind>(rounds: &Rounds, kind: &K) -> Option<Which>
    ensures { result ≡ second_due K.service (queued rounds.now (K.own kind.now)) }
{
    if is_due(rounds, kind, Which::Second) {
        Some(Which::Second)
    } else {
        third_due(rounds, kind)
    }
}

/// The first queue with something to do, from this one on.
pub fn due_from<K: Kind>(rounds: &Rounds, kind: &K, which: Which) -> Option<Which>
    ensures { result ≡ due_from K.service which (queued rounds.now (K.own kind.now)) }
{
    match which {
        Which::First => {
            if is_due(rounds, kind, Which::First) {
                Some(Which::First)
            } else {
                second_due(rounds, kind)
            }
        }
        Which::Second => second_due(rounds, kind),
        Which::Third => third_due(rounds, kind),
    }
}

/// And behind it.
pub fn due_behind<K: Kind>(rounds: &Rounds, kind: &K, which: Which) -> Option<Which>
    ensures { result ≡ due_behind K.service which (queued rounds.now (K.own kind.now)) }
{
    match which {
        Which::First => second_due(rounds, kind),
        Which::Second => third_due(rounds, kind),
        Which::Third => None,
    }
}

/// The chain in hand, as it is given back with so many bytes written.
pub fn used_chain(rounds: &Rounds, chain: InHand, len: u32) -> UsedChain
    ensures { result ≡ used_chain chain len rounds.now }
{
    UsedChain {
        queue: chain.queue.fields(),
        len,
        used: rounds.lane(chain.which).used,
        head: chain.head,
        port: rounds.port,
    }
}

// ---- what a chain comes to

/// A chain was served, with so many bytes written, or its queue is broken.
pub fn served<K: Kind>(chain: InHand, len: Option<u32>) -> Phase
    ensures left { (h : Hand K.Own) (d : Queued K.Own) →
        left_at K.service result h d ≡ served K.service chain.which chain.queue chain.head d len }
    ensures kept { (r : Rounds) (g : K.Stage) → is_holding K.service K.times chain r ≡ true →
        K.is_work work.Rest r.pages g ≡ true → is_state K.service K.times K.is_work result r g ≡ true }
{
    match len {
        None => Phase::Break {
            which: chain.which,
            stage: BreakStage::Port,
        },
        Some(len) => Phase::Return {
            chain,
            len,
            stage: ReturnStage::Pair,
        },
    }
}

/// What a kind tells of the service of a chain.
#[tactic(auto, using(crate::proofs::CodeKept::serve_kept))]
pub fn serve_told<K: Kind>(
    rounds: &Rounds,
    kind: &K,
    chain: InHand,
    told: Option<Option<u32>>,
) -> Phase
    ensures left { (t : Acting K.Own (Option ℕ)) →
        Works t told (K.own kind.now) (K.hand (K.stage kind.now)).op (K.hand (K.stage kind.now)).serving →
        left_at K.service result (K.hand (K.stage kind.now)) (queued rounds.now (K.own kind.now)) ≡
        during t rounds.now (served K.service chain.which chain.queue chain.head) }
    ensures kept { is_holding K.service K.times chain rounds.now ≡ true →
        K.is_work (work_after told (work.Serve chain.which)) rounds.now.pages (K.stage kind.now) ≡ true →
        is_state K.service K.times K.is_work result rounds.now (K.stage kind.now) ≡ true }
{
    let _ = rounds;
    let _ = kind;
    match told {
        None => Phase::Serve { chain },
        Some(len) => served::<K>(chain, len),
    }
}

/// A chain is served.
pub fn serve<K: Kind>(rounds: &Rounds, kind: &mut K, which: Which, chain: &TakenChain) -> Phase
    ensures left { left_at K.service result (K.hand (K.stage kind.new)) (queued rounds.now (K.own kind.new)) ≡
        serving K.service which chain.now (queued rounds.now (K.own kind.old)) }
    ensures kept { is_holding K.service K.times
        (record { which = which; queue = chain.now.queue; head = chain.now.head }) rounds.now ≡ true →
        is_chain K.service rounds.now.pages which chain.now ≡ true →
        K.is_work work.Rest rounds.now.pages (K.stage kind.old) ≡ true →
        is_state K.service K.times K.is_work result rounds.now (K.stage kind.new) ≡ true }
{
    let told = kind.serve(which, chain);
    let chain = InHand {
        which,
        queue: chain.queue(),
        head: chain.head(),
    };
    serve_told(rounds, kind, chain, told)
}

/// A chain was taken, of which this is kept, or its queue is broken.
pub fn took<K: Kind>(
    rounds: &mut Rounds,
    kind: &mut K,
    chain: InHand,
    taken: Option<TakenParts>,
) -> Phase
    ensures left { left_at K.service result (K.hand (K.stage kind.new)) (queued rounds.new (K.own kind.new)) ≡
        took K.service chain.which chain.queue chain.head (queued rounds.old (K.own kind.old)) taken }
    ensures kept { is_holding K.service K.times chain rounds.old ≡ true →
        is_fit K.service rounds.old.pages chain.which taken ≡ true →
        K.is_work work.Rest rounds.old.pages (K.stage kind.old) ≡ true →
        is_state K.service K.times K.is_work result rounds.new (K.stage kind.new) ≡ true }
{
    let which = chain.which;
    match taken {
        None => Phase::Break {
            which,
            stage: BreakStage::Port,
        },
        Some(taken) => {
            let chain = TakenChain::new(chain.queue, chain.head, taken);
            if kind.is_timed(which, &chain) {
                rounds.wait(which, chain);
                Phase::Between
            } else {
                serve(rounds, kind, which, &chain)
            }
        }
    }
}

/// What a kind tells of a chain that is taken.
#[tactic(auto, using(crate::proofs::CodeKept::take_kept))]
pub fn take_told<K: Kind>(
    rounds: &mut Rounds,
    kind: &mut K,
    chain: InHand,
    told: Option<Option<TakenParts>>,
) -> Phase
    ensures left { (t : Acting K.Own (Option Taken)) →
        Works t told (K.own kind.old) (K.hand (K.stage kind.old)).op (K.hand (K.stage kind.old)).taking →
        left_at K.service result (K.hand (K.stage kind.new)) (queued rounds.new (K.own kind.new)) ≡
        during t rounds.old (took K.service chain.which chain.queue chain.head) }
    ensures kept { is_holding K.service K.times chain rounds.old ≡ true →
        is_fit_told K.service rounds.old.pages chain.which told ≡ true →
        K.is_work (work_after told (work.Take chain.which)) rounds.old.pages (K.stage kind.old) ≡ true →
        is_state K.service K.times K.is_work result rounds.new (K.stage kind.new) ≡ true }
{
    match told {
        None => Phase::Take { chain },
        Some(taken) => took(rounds, kind, chain, taken),
    }
}

/// A guest has fewer than 2^32 pages.
pub fn few_pages(rounds: &Rounds)
    ensures { rounds.now.pages < 2 ^ 32 }
{
    let _pages = rounds.pages;
}

/// What a walk came to.
pub fn walked<K: Kind>(
    rounds: &mut Rounds,
    kind: &mut K,
    which: Which,
    queue: SoundQueue,
    came: Walk,
) -> Phase
    ensures left { left_at K.service result (K.hand (K.stage kind.new)) (queued rounds.new (K.own kind.new)) ≡
        walked K.service which queue (queued rounds.old (K.own kind.old)) came }
    ensures kept { (head : ℕ) → is_holding K.service K.times (record { which = which; queue = queue; head = head }) rounds.old ≡ true →
        WalkInside rounds.old.pages came → K.is_work work.Rest rounds.old.pages (K.stage kind.old) ≡ true →
        is_state K.service K.times K.is_work result rounds.new (K.stage kind.new) ≡ true }
{
    match came {
        Walk::More => Phase::Between,
        Walk::Empty => {
            rounds.empty(which);
            let due = due_behind(rounds, kind, which);
            rounds.next(due);
            Phase::Between
        }
        Walk::Broken { why: _ } => Phase::Break {
            which,
            stage: BreakStage::Port,
        },
        Walk::Chain { head, parts } => {
            few_pages(rounds);
            rounds.count(which);
            let told = kind.take(which, parts);
            let chain = InHand { which, queue, head };
            take_told(rounds, kind, chain, told)
        }
    }
}

// An index of the available ring shows whether there is a chain.
fn shown<K: Kind>(kind: &mut K, which: Which, next: u16, index: u16)
    ensures shown { (r : Rounds) → queued r (K.own kind.new) ≡
        index_shown K.service which next index (queued r (K.own kind.old)) }
    ensures rests { RestsOn K.is_work (K.stage kind.old) (K.stage kind.new) }
{
    if index != next {
        kind.begun(which);
    }
}

// Whether its reply is an index of the ring.
fn is_looking(walk: &ChainWalk) -> bool
    ensures { result ≡ is_looking walk.now.stage }
{
    matches!(walk.stage(), Stage::Index | Stage::IndexAgain)
}

/// The reply to a walk that looks at the ring shows whether there is a chain.
pub fn show<K: Kind>(kind: &mut K, which: Which, walk: &ChainWalk, reply: &Reply)
    requires { fits (walk_wants walk.now) reply.now ≡ true }
    ensures shown { (r : Rounds) → queued r (K.own kind.new) ≡
        walk_shown K.service which walk.now reply.now (queued r (K.own kind.old)) }
    ensures rests { RestsOn K.is_work (K.stage kind.old) (K.stage kind.new) }
{
    if is_looking(walk) {
        shown(kind, which, walk.number(), index_in(reply));
    }
}

/// A reply came to the act of a walk.
pub fn walk_given<K: Kind>(
    rounds: &mut Rounds,
    kind: &mut K,
    which: Which,
    walk: ChainWalk,
    reply: Reply,
) -> Phase
    requires { fits (walk_wants walk) reply ≡ true }
    ensures left { left_at K.service result (K.hand (K.stage kind.new)) (queued rounds.new (K.own kind.new)) ≡
        walk_led K.service which walk reply (look_left walk.stage walk.queue walk.next) (queued rounds.old (K.own kind.old)) }
    ensures kept { is_working K.service K.times rounds.old ≡ true → is_walked (lane_of which rounds.old) walk ≡ true →
        K.is_work work.Rest rounds.old.pages (K.stage kind.old) ≡ true →
        is_state K.service K.times K.is_work result rounds.new (K.stage kind.new) ≡ true }
{
    few_pages(rounds);
    let queue = SoundQueue::of(&walk);
    show(kind, which, &walk, &reply);
    let mut walk = walk;
    match walk.give(reply) {
        Walk::More => {
            walk.wanting();
            Phase::Walk { which, walk }
        }
        came => walked(rounds, kind, which, queue, came),
    }
}

// How far a chain is given back, with what is still to be told of it.
fn return_told<K: Kind>(
    rounds: &Rounds,
    kind: &K,
    chain: InHand,
    len: u32,
    stage: ReturnStage,
) -> Phase
    ensures left { (t : Doing (Unit {0})) → return_left stage (used_chain chain len rounds.now) ≡ t →
        left_at K.service result (K.hand (K.stage kind.now)) (queued rounds.now (K.own kind.now)) ≡
        perform t (queued rounds.now (K.own kind.now)) (λ e done. Ends (given_back K.service chain.which e)) }
    ensures kept { is_holding K.service K.times chain rounds.now ≡ true → may_return stage chain.queue ≡ true →
        K.is_work work.Rest rounds.now.pages (K.stage kind.now) ≡ true →
        is_state K.service K.times K.is_work result rounds.now (K.stage kind.now) ≡ true }
{
    let _ = rounds;
    let _ = kind;
    let told = InHand {
        which: chain.which,
        queue: chain.queue,
        head: 0,
    };
    match stage {
        ReturnStage::Pair => Phase::Return { chain, len, stage },
        ReturnStage::Half => Phase::Return {
            chain: told,
            len,
            stage,
        },
        ReturnStage::Index => Phase::Return {
            chain: told,
            len: 0,
            stage,
        },
        ReturnStage::Event => Phase::Return {
            chain: told,
            len: 0,
            stage,
        },
        ReturnStage::Interrupt => Phase::Return {
            chain: told,
            len: 0,
            stage,
        },
        ReturnStage::Line => Phase::Return {
            chain: told,
            len: 0,
            stage,
        },
    }
}

/// A reply came to the giving back of a chain.
pub fn return_given<K: Kind>(
    rounds: &mut Rounds,
    kind: &mut K,
    chain: InHand,
    len: u32,
    stage: ReturnStage,
    reply: &Reply,
) -> Phase
    requires { IfSome (asked (return_left stage (used_chain chain len rounds.old))) (λ op. fits op reply.now ≡ true) }
    ensures left { left_at K.service result (K.hand (K.stage kind.new)) (queued rounds.new (K.own kind.new)) ≡
        perform (led (return_left stage (used_chain chain len rounds.old)) reply.now)
        (queued rounds.old (K.own kind.old)) (λ e done. Ends (given_back K.service chain.which e)) }
    ensures kept { is_holding K.service K.times chain rounds.old ≡ true →
        K.is_work work.Rest rounds.old.pages (K.stage kind.old) ≡ true →
        is_state K.service K.times K.is_work result rounds.new (K.stage kind.new) ≡ true }
{
    let mut stage = stage;
    let used = used_chain(rounds, chain, len);
    let _queue = chain.queue.fields();
    match stage.give(&used, reply) {
        None => return_told(rounds, kind, chain, len, stage),
        Some(()) => {
            rounds.give(chain.which);
            kind.over(chain.which);
            let due = due_from(rounds, kind, chain.which);
            rounds.next(due);
            Phase::Between
        }
    }
}

/// A reply came to what is told of a broken queue.
pub fn break_given<K: Kind>(
    rounds: &mut Rounds,
    kind: &mut K,
    which: Which,
    stage: BreakStage,
    reply: &Reply,
) -> Phase
    ensures left { left_at K.service result (K.hand (K.stage kind.new)) (queued rounds.new (K.own kind.new)) ≡
        perform (led (break_left stage rounds.old.port) reply.now)
        (queued rounds.old (K.own kind.old)) (λ e done. Ends (broken_off K.service which e)) }
    ensures kept { is_working K.service K.times rounds.old ≡ true → is_some (lane_of which rounds.old).queue ≡ true →
        K.is_work work.Rest rounds.old.pages (K.stage kind.old) ≡ true →
        is_state K.service K.times K.is_work result rounds.new (K.stage kind.new) ≡ true }
{
    let mut stage = stage;
    match stage.give(rounds.port, reply) {
        None => Phase::Break { which, stage },
        Some(()) => {
            kind.over(which);
            rounds.end();
            Phase::Between
        }
    }
}

/// What a kind tells of the answer to its question.
pub fn answer_told<K: Kind>(rounds: &mut Rounds, kind: &K, told: Option<bool>) -> Phase
    ensures left { (t : Acting K.Own Bool) →
        Works t told (K.own kind.now) (K.hand (K.stage kind.now)).op (K.hand (K.stage kind.now)).answering →
        left_at K.service result (K.hand (K.stage kind.now)) (queued rounds.new (K.own kind.now)) ≡
        during t rounds.old (answered K.service) }
    ensures kept { are_kept K.service K.times rounds.old ≡ true → is_asking rounds.old.due ≡ true →
        K.is_work (work_after told work.Answer) rounds.old.pages (K.stage kind.now) ≡ true →
        is_state K.service K.times K.is_work result rounds.new (K.stage kind.now) ≡ true }
{
    match told {
        None => Phase::Question,
        Some(received) => {
            if received {
                rounds.is_busy = true;
            }
            let due = due_from(rounds, kind, Which::First);
            rounds.next(due);
            Phase::Between
        }
    }
}
