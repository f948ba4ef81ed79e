// A step of a device that leaves what the device is at in its place, since that is large. What ends there is a function of its
// own, which isn't inlined: each call clears the room for all that a function may move.
ghost use Rattle.std.specs.Prelude.{◌≡◌, ℕ, true};
ghost use Rattle.vm_types.specs.Fits.{fits};
ghost use Rattle.vq_split.specs.Inside.{WalkInside};
ghost use Rattle.vq_split.specs.Walking.{Walking};
ghost use Rattle.dev_core.specs.declared.returning.ReturnStage.{ReturnStage};
ghost use Rattle.dev_core.specs.Returning.{return_left};
ghost use Rattle.device_trace.specs.Script.{Ends};
ghost use Rattle.device_trace.specs.States.{stepped, wants};
ghost use Rattle.queue_device.specs.declared.lanes.Rounds.{Rounds};
ghost use Rattle.queue_device.specs.declared.lanes.Which.{Which};
ghost use Rattle.queue_device.specs.declared.phase.InHand.{InHand};
ghost use Rattle.queue_device.specs.declared.phase.Phase.TheVariants as phases;
ghost use Rattle.queue_device.specs.declared.phase.Work.TheVariants as work;
ghost use Rattle.queue_device.specs.Kept.{is_fit, is_holding, is_state, is_told};
ghost use Rattle.queue_device.specs.Left.{left_at, queued, used_chain};
ghost use Rattle.queue_device.specs.Rounds.{given_back, queue_rules, took, walked};

use crate::chain::{SoundQueue, TakenParts};
use crate::going::{due_from, few_pages, show, took, used_chain, walked};
use crate::kind::Kind;
use crate::lanes::{Rounds, Which};
use crate::phase::{InHand, Phase};
use dev_core::ReturnStage;
use vm_types::Reply;
use vq_split::Walk;

// ---- a walk

// It came to this.
#[inline(never)]
fn walk_over<K: Kind>(
    rounds: &mut Rounds,
    kind: &mut K,
    phase: &mut Phase,
    which: Which,
    queue: SoundQueue,
    came: Walk,
)
    ensures left { left_at K.service phase.new (K.hand (K.stage kind.new)) (queued rounds.new (K.own kind.new)) ≡
        walked K.service which queue (queued rounds.old (K.own kind.old)) came }
    ensures kept { (head : ℕ) → is_holding K.service K.times (record { which = which; queue = queue; head = head }) rounds.old ≡ true →
        WalkInside rounds.old.pages came → K.is_work work.Rest rounds.old.pages (K.stage kind.old) ≡ true →
        is_state K.service K.times K.is_work phase.new rounds.new (K.stage kind.new) ≡ true }
{
    *phase = walked(rounds, kind, which, queue, came);
}

/// A reply came to a walk.
pub fn walk_step<K: Kind>(rounds: &mut Rounds, kind: &mut K, phase: &mut Phase, reply: Reply)
    requires walks { (k : Which) × (walk : Walking) × (phase.old ≡ phases.Walk k walk) }
    requires fit { fits (wants (queue_rules K.service K.changing)
        (left_at K.service phase.old (K.hand (K.stage kind.old)) (queued rounds.old (K.own kind.old)))) reply ≡ true }
    ensures left { left_at K.service phase.new (K.hand (K.stage kind.new)) (queued rounds.new (K.own kind.new)) ≡
        stepped (queue_rules K.service K.changing)
        (left_at K.service phase.old (K.hand (K.stage kind.old)) (queued rounds.old (K.own kind.old))) reply }
    ensures kept { is_state K.service K.times K.is_work phase.old rounds.old (K.stage kind.old) ≡ true →
        is_state K.service K.times K.is_work phase.new rounds.new (K.stage kind.new) ≡ true }
{
    let Phase::Walk { which, walk } = phase else {
        unreachable!()
    };
    let which = *which;
    few_pages(rounds);
    walk.wanting();
    let queue = SoundQueue::of(walk);
    show(kind, which, walk, &reply);
    match walk.give(reply) {
        Walk::More => walk.wanting(),
        came => walk_over(rounds, kind, phase, which, queue, came),
    }
}

// ---- a chain that is taken

// It is, with this kept of it, or its queue is broken.
#[inline(never)]
fn take_over<K: Kind>(
    rounds: &mut Rounds,
    kind: &mut K,
    phase: &mut Phase,
    chain: InHand,
    taken: Option<TakenParts>,
)
    ensures left { left_at K.service phase.new (K.hand (K.stage kind.new)) (queued rounds.new (K.own kind.new)) ≡
        took K.service chain.which chain.queue chain.head (queued rounds.old (K.own kind.old)) taken }
    ensures kept { is_holding K.service K.times chain rounds.old ≡ true →
        is_fit K.service rounds.old.pages chain.which taken ≡ true →
        K.is_work work.Rest rounds.old.pages (K.stage kind.old) ≡ true →
        is_state K.service K.times K.is_work phase.new rounds.new (K.stage kind.new) ≡ true }
{
    *phase = took(rounds, kind, chain, taken);
}

/// A reply came while a chain is taken.
pub fn take_step<K: Kind>(
    rounds: &mut Rounds,
    kind: &mut K,
    phase: &mut Phase,
    chain: InHand,
    reply: &Reply,
)
    requires takes { phase.old ≡ phases.Take chain }
    requires fit { fits (wants (queue_rules K.service K.changing)
        (left_at K.service phase.old (K.hand (K.stage kind.old)) (queued rounds.old (K.own kind.old)))) reply.now ≡ true }
    ensures left { left_at K.service phase.new (K.hand (K.stage kind.new)) (queued rounds.new (K.own kind.new)) ≡
        stepped (queue_rules K.service K.changing)
        (left_at K.service phase.old (K.hand (K.stage kind.old)) (queued rounds.old (K.own kind.old))) reply.now }
    ensures kept { is_state K.service K.times K.is_work phase.old rounds.old (K.stage kind.old) ≡ true →
        is_state K.service K.times K.is_work phase.new rounds.new (K.stage kind.new) ≡ true }
{
    few_pages(rounds);
    match kind.take_on(reply) {
        None => {}
        Some(taken) => take_over(rounds, kind, phase, chain, taken),
    }
}

// ---- a chain that is given back

fn clear(chain: &mut InHand, len: &mut u32)
    ensures chain { chain.new ≡ record chain.old { head = 0 } }
    ensures len { len.new ≡ 0 }
{
    chain.head = 0;
    *len = 0;
}

// What is told already of it isn't kept.
fn forget(chain: &mut InHand, len: &mut u32, stage: ReturnStage)
    ensures left { (r : Rounds) → return_left stage (used_chain chain.new len.new r) ≡
        return_left stage (used_chain chain.old len.old r) }
    ensures told { is_told stage len.new chain.new.head ≡ true }
    ensures chain { chain.new ≡ record chain.old { head = chain.new.head } }
{
    match stage {
        ReturnStage::Pair => {}
        ReturnStage::Half => chain.head = 0,
        ReturnStage::Index => clear(chain, len),
        ReturnStage::Event => clear(chain, len),
        ReturnStage::Interrupt => clear(chain, len),
        ReturnStage::Line => clear(chain, len),
    }
}

// It is given back.
#[inline(never)]
fn return_over<K: Kind>(rounds: &mut Rounds, kind: &mut K, phase: &mut Phase, which: Which)
    ensures left { left_at K.service phase.new (K.hand (K.stage kind.new)) (queued rounds.new (K.own kind.new)) ≡
        Ends (given_back K.service which (queued rounds.old (K.own kind.old))) }
    ensures kept { (c : InHand) → c.which ≡ which → is_holding K.service K.times c rounds.old ≡ true →
        K.is_work work.Rest rounds.old.pages (K.stage kind.old) ≡ true →
        is_state K.service K.times K.is_work phase.new rounds.new (K.stage kind.new) ≡ true }
{
    rounds.give(which);
    kind.over(which);
    let due = due_from(rounds, kind, which);
    rounds.next(due);
    *phase = Phase::Between;
}

/// A reply came while a chain is given back.
pub fn return_step<K: Kind>(rounds: &mut Rounds, kind: &mut K, phase: &mut Phase, reply: &Reply)
    requires returns { (c : InHand) × (len : ℕ) × (stage : ReturnStage) × (phase.old ≡ phases.Return c len stage) }
    requires fit { fits (wants (queue_rules K.service K.changing)
        (left_at K.service phase.old (K.hand (K.stage kind.old)) (queued rounds.old (K.own kind.old)))) reply.now ≡ true }
    ensures left { left_at K.service phase.new (K.hand (K.stage kind.new)) (queued rounds.new (K.own kind.new)) ≡
        stepped (queue_rules K.service K.changing)
        (left_at K.service phase.old (K.hand (K.stage kind.old)) (queued rounds.old (K.own kind.old))) reply.now }
    ensures kept { is_state K.service K.times K.is_work phase.old rounds.old (K.stage kind.old) ≡ true →
        is_state K.service K.times K.is_work phase.new rounds.new (K.stage kind.new) ≡ true }
{
    let Phase::Return { chain, len, stage } = phase else {
        unreachable!()
    };
    let which = chain.which;
    let _queue = chain.queue.fields();
    let used = used_chain(rounds, *chain, *len);
    match stage.give(&used, reply) {
        None => forget(chain, len, *stage),
        Some(()) => return_over(rounds, kind, phase, which),
    }
}
