// Between two groups: where the first reply of the next one leads.
ghost use Rattle.std.specs.Prelude.{◌≡◌, true, false, Some, None, is_some, if◌then◌else◌};
ghost use Rattle.vm_types.specs.declared.reply.Reply.{Reply};
ghost use Rattle.vm_types.specs.Fits.{fits};
ghost use Rattle.device_trace.specs.Traces.{root_next, root_op};
ghost use Rattle.vq_split.specs.Chain.{queue_flaw};
ghost use Rattle.queue_device.specs.declared.phase.Phase.TheVariants.{Between};
ghost use Rattle.queue_device.specs.declared.phase.Work.TheVariants as work;
ghost use Rattle.queue_device.specs.Chains.{Chain};
ghost use Rattle.queue_device.specs.Kept.{RestsOn, are_kept, is_at_lane, is_state};
ghost use Rattle.queue_device.specs.Lanes.{in_lane, lane_freed, lane_of};
ghost use Rattle.queue_device.specs.Left.{left_at, queued};
ghost use Rattle.queue_device.specs.Rounds.{begins, goes_on, looked, next_begins, over_begins, serving};
ghost use Rattle.queue_device.specs.Rounds.{time_of, walk_begun};

use crate::going::{answer_told, break_given, due_behind, due_from, serve, walk_given};
use crate::inside::inside_given;
use crate::kind::Kind;
use crate::lanes::{Due, Rounds, Which, is_running};
use crate::phase::Phase;
use dev_core::BreakStage;
use vm_types::Reply;
use vq_split::{ChainWalk, Queue};

// The moment that the board tells.
fn time_of(reply: &Reply) -> u64
    ensures { result ≡ time_of reply.now }
{
    match reply {
        Reply::Word(now) => *now,
        _ => 0,
    }
}

// What a look makes of the data.
fn look<K: Kind>(rounds: &mut Rounds, kind: &mut K, reply: &Reply)
    ensures left { queued rounds.new (K.own kind.new) ≡
        looked K.service reply.now (queued rounds.old (K.own kind.old)) }
    ensures kept { are_kept K.service K.times rounds.old ≡ true → are_kept K.service K.times rounds.new ≡ true }
    ensures pages { rounds.new.pages ≡ rounds.old.pages }
    ensures rests { RestsOn K.is_work (K.stage kind.old) (K.stage kind.new) }
{
    if let Reply::Port(look) = reply {
        if look.was_reset {
            kind.reset();
        }
        rounds.begin(kind.last(), look);
        if is_running(look.status) && kind.may_ask() && kind.asks() {
            rounds.due = Due::Question;
        } else {
            let due = due_from(rounds, kind, Which::First);
            rounds.next(due);
        }
    }
}

// The chain that waited is served.
fn serve_freed<K: Kind>(rounds: &mut Rounds, kind: &mut K, which: Which) -> Phase
    ensures left { (c : Chain) → (lane_of which rounds.old).waiting ≡ Some c →
        left_at K.service result (K.hand (K.stage kind.new)) (queued rounds.new (K.own kind.new)) ≡
        serving K.service which c (queued (in_lane which lane_freed rounds.old) (K.own kind.old)) }
    ensures kept { are_kept K.service K.times rounds.old ≡ true → is_at_lane rounds.old.due ≡ true →
        is_some (lane_of which rounds.old).queue ≡ true → K.is_work work.Rest rounds.old.pages (K.stage kind.old) ≡ true →
        is_state K.service K.times K.is_work result rounds.new (K.stage kind.new) ≡ true }
{
    match rounds.free(which) {
        Some(chain) => serve(rounds, kind, which, &chain),
        None => Phase::Between,
    }
}

// Whether guest time is asked for the chain that waits.
fn is_timed<K: Kind>(rounds: &Rounds, kind: &K, which: Which) -> bool
    ensures { (c : Chain) → (lane_of which rounds.now).waiting ≡ Some c →
        result ≡ K.service.is_timed which c (K.own kind.now) }
{
    match &rounds.lane(which).waiting {
        Some(chain) => kind.is_timed(which, chain),
        None => false,
    }
}

// Whether it passes at this guest time.
fn passes<K: Kind>(rounds: &Rounds, kind: &mut K, which: Which, now: u64) -> bool
    ensures passes { (c : Chain) → (lane_of which rounds.now).waiting ≡ Some c →
        K.service.passes which c now (K.own kind.old) ≡ (if result then Some (K.own kind.new) else None) }
    ensures waits { result ≡ false → K.own kind.new ≡ K.own kind.old }
    ensures rests { RestsOn K.is_work (K.stage kind.old) (K.stage kind.new) }
{
    match &rounds.lane(which).waiting {
        Some(chain) => kind.passes(which, chain, now),
        None => false,
    }
}

// A chain that waits goes on.
fn goes_on<K: Kind>(rounds: &mut Rounds, kind: &mut K, which: Which, reply: Reply) -> Phase
    requires fit { (c : Chain) → (lane_of which rounds.old).waiting ≡ Some c →
        fits (root_op (goes_on K.service which c (queued rounds.old (K.own kind.old)))) reply ≡ true }
    requires some { (c : Chain) × ((lane_of which rounds.old).waiting ≡ Some c) }
    ensures left { (c : Chain) → (lane_of which rounds.old).waiting ≡ Some c →
        left_at K.service result (K.hand (K.stage kind.new)) (queued rounds.new (K.own kind.new)) ≡
        root_next (goes_on K.service which c (queued rounds.old (K.own kind.old))) reply }
    ensures kept { are_kept K.service K.times rounds.old ≡ true → is_at_lane rounds.old.due ≡ true →
        is_some (lane_of which rounds.old).queue ≡ true → K.is_work work.Rest rounds.old.pages (K.stage kind.old) ≡ true →
        is_state K.service K.times K.is_work result rounds.new (K.stage kind.new) ≡ true }
{
    if is_timed(rounds, kind, which) {
        if passes(rounds, kind, which, time_of(&reply)) {
            serve_freed(rounds, kind, which)
        } else {
            let due = due_behind(rounds, kind, which);
            rounds.next(due);
            Phase::Between
        }
    } else {
        let phase = serve_freed(rounds, kind, which);
        inside_given(rounds, kind, phase, reply)
    }
}

// The first reply to the walk of a queue's next chain, or to what is told of a queue that has a flaw.
fn walk_begun<K: Kind>(
    rounds: &mut Rounds,
    kind: &mut K,
    which: Which,
    queue: Queue,
    reply: Reply,
) -> Phase
    requires { fits (root_op (walk_begun K.service which queue (queue_flaw queue)
        (queued rounds.old (K.own kind.old)))) reply ≡ true }
    ensures left { left_at K.service result (K.hand (K.stage kind.new)) (queued rounds.new (K.own kind.new)) ≡
        root_next (walk_begun K.service which queue (queue_flaw queue) (queued rounds.old (K.own kind.old))) reply }
    ensures kept { are_kept K.service K.times rounds.old ≡ true → is_at_lane rounds.old.due ≡ true →
        (lane_of which rounds.old).queue ≡ Some queue → K.is_work work.Rest rounds.old.pages (K.stage kind.old) ≡ true →
        is_state K.service K.times K.is_work result rounds.new (K.stage kind.new) ≡ true }
{
    let next = rounds.lane(which).next;
    match ChainWalk::new(queue, next) {
        Ok(walk) => {
            walk.wanting();
            walk_given(rounds, kind, which, walk, reply)
        }
        Err(_) => break_given(rounds, kind, which, BreakStage::Port, &reply),
    }
}

fn lane_begun<K: Kind>(rounds: &mut Rounds, kind: &mut K, which: Which, reply: Reply) -> Phase
    requires { fits (root_op (next_begins K.service (Some which) (queued rounds.old (K.own kind.old)))) reply ≡ true }
    ensures left { left_at K.service result (K.hand (K.stage kind.new)) (queued rounds.new (K.own kind.new)) ≡
        root_next (next_begins K.service (Some which) (queued rounds.old (K.own kind.old))) reply }
    ensures kept { are_kept K.service K.times rounds.old ≡ true → is_at_lane rounds.old.due ≡ true →
        K.is_work work.Rest rounds.old.pages (K.stage kind.old) ≡ true →
        is_state K.service K.times K.is_work result rounds.new (K.stage kind.new) ≡ true }
{
    let lane = rounds.lane(which);
    match lane.queue {
        None => Phase::Between,
        Some(queue) => {
            if lane.waiting.is_some() {
                goes_on(rounds, kind, which, reply)
            } else {
                walk_begun(rounds, kind, which, queue, reply)
            }
        }
    }
}

// The first reply where no queue has anything to do.
fn over_begun<K: Kind>(rounds: &mut Rounds, kind: &mut K, reply: &Reply) -> Phase
    ensures left { left_at K.service result (K.hand (K.stage kind.new)) (queued rounds.new (K.own kind.new)) ≡
        root_next (next_begins K.service None (queued rounds.old (K.own kind.old))) reply.now }
    ensures kept { are_kept K.service K.times rounds.old ≡ true → is_at_lane rounds.old.due ≡ true →
        K.is_work work.Rest rounds.old.pages (K.stage kind.old) ≡ true →
        is_state K.service K.times K.is_work result rounds.new (K.stage kind.new) ≡ true }
{
    let is_busy = rounds.is_busy;
    rounds.end();
    if is_busy {
        look(rounds, kind, reply);
        return Phase::Between;
    }
    rounds.due = Due::Look;
    Phase::Between
}

/// The first reply of a group.
#[inline(never)]
pub fn begun<K: Kind>(rounds: &mut Rounds, kind: &mut K, reply: Reply) -> Phase
    requires { fits (root_op (begins K.service (queued rounds.old (K.own kind.old)))) reply ≡ true }
    ensures left { left_at K.service result (K.hand (K.stage kind.new)) (queued rounds.new (K.own kind.new)) ≡
        root_next (begins K.service (queued rounds.old (K.own kind.old))) reply }
    ensures kept { are_kept K.service K.times rounds.old ≡ true →
        K.is_work work.Rest rounds.old.pages (K.stage kind.old) ≡ true →
        is_state K.service K.times K.is_work result rounds.new (K.stage kind.new) ≡ true }
{
    match rounds.due {
        Due::Look => {
            look(rounds, kind, &reply);
            Phase::Between
        }
        Due::Question => {
            let told = kind.answer(&reply);
            answer_told(rounds, kind, told)
        }
        Due::Wait => {
            rounds.due = Due::Look;
            Phase::Between
        }
        Due::Lane(which) => match due_from(rounds, kind, which) {
            Some(which) => lane_begun(rounds, kind, which, reply),
            None => over_begun(rounds, kind, &reply),
        },
    }
}

// The same, where the group goes on. A function of its own, since each call clears the room for all that a function may move.
#[inline(never)]
fn begun_moved<K: Kind>(rounds: &mut Rounds, kind: &mut K, phase: &mut Phase, reply: Reply)
    requires { fits (root_op (begins K.service (queued rounds.old (K.own kind.old)))) reply ≡ true }
    ensures left { left_at K.service phase.new (K.hand (K.stage kind.new)) (queued rounds.new (K.own kind.new)) ≡
        root_next (begins K.service (queued rounds.old (K.own kind.old))) reply }
    ensures kept { are_kept K.service K.times rounds.old ≡ true →
        K.is_work work.Rest rounds.old.pages (K.stage kind.old) ≡ true →
        is_state K.service K.times K.is_work phase.new rounds.new (K.stage kind.new) ≡ true }
{
    *phase = begun(rounds, kind, reply);
}

/// The first reply of a group. What the device is at stays in its place behind a look, since it is large.
pub fn begin_step<K: Kind>(rounds: &mut Rounds, kind: &mut K, phase: &mut Phase, reply: Reply)
    requires between { phase.old ≡ Between }
    requires fit { fits (root_op (begins K.service (queued rounds.old (K.own kind.old)))) reply ≡ true }
    ensures left { left_at K.service phase.new (K.hand (K.stage kind.new)) (queued rounds.new (K.own kind.new)) ≡
        root_next (begins K.service (queued rounds.old (K.own kind.old))) reply }
    ensures kept { are_kept K.service K.times rounds.old ≡ true →
        K.is_work work.Rest rounds.old.pages (K.stage kind.old) ≡ true →
        is_state K.service K.times K.is_work phase.new rounds.new (K.stage kind.new) ≡ true }
{
    if let Due::Look = rounds.due {
        look(rounds, kind, &reply);
        return;
    }
    begun_moved(rounds, kind, phase, reply);
}
