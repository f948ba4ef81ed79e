// Inside a group: the act that is wanted, and where a reply leads.
ghost use Rattle.std.specs.Prelude.{◌≡◌, true, false};
ghost use Rattle.vm_types.specs.Fits.{fits};
ghost use Rattle.device_trace.specs.Traces.{root_next, root_op};
ghost use Rattle.queue_device.specs.declared.lanes.Rounds.{Rounds};
ghost use Rattle.queue_device.specs.declared.phase.Phase.TheVariants.{Serve};
ghost use Rattle.queue_device.specs.declared.phase.Work.TheVariants as work;
ghost use Rattle.queue_device.specs.Kept.{is_holding, is_state};
ghost use Rattle.queue_device.specs.Left.{Hand, Holds, is_between, left_at, queued};
ghost use Rattle.queue_device.specs.Rounds.{served};
ghost use Rattle.queue_device.specs.Service.{Queued};

use crate::going::{
    answer_told, break_given, few_pages, return_given, serve_told, served, take_told, used_chain,
    walk_given,
};
use crate::kind::Kind;
use crate::lanes::Rounds;
use crate::phase::{InHand, Phase};
use vm_types::{Op, Reply};

/// The act that is wanted; a wait where no group is begun.
pub fn inside_op<K: Kind>(rounds: &Rounds, kind: &K, phase: &Phase) -> Op
    ensures root { result ≡ root_op
        (left_at K.service phase.now (K.hand (K.stage kind.now)) (queued rounds.now (K.own kind.now))) }
    ensures holds { is_between phase.now ≡ false →
        Holds K.service phase.now (K.hand (K.stage kind.now)) rounds.now result }
{
    match phase {
        Phase::Between => Op::Idle,
        Phase::Question => kind.want(),
        Phase::Take { .. } => kind.want(),
        Phase::Serve { .. } => kind.want(),
        Phase::Walk { which: _, walk } => walk.want(),
        Phase::Return { chain, len, stage } => {
            let _queue = chain.queue.fields();
            stage.want(&used_chain(rounds, *chain, *len))
        }
        Phase::Break { which: _, stage } => stage.want(rounds.port),
    }
}

/// A reply came to it.
#[inline(never)]
pub fn inside_given<K: Kind>(rounds: &mut Rounds, kind: &mut K, phase: Phase, reply: Reply) -> Phase
    requires { fits (root_op
        (left_at K.service phase (K.hand (K.stage kind.old)) (queued rounds.old (K.own kind.old)))) reply ≡ true }
    ensures left { left_at K.service result (K.hand (K.stage kind.new)) (queued rounds.new (K.own kind.new)) ≡
        root_next (left_at K.service phase (K.hand (K.stage kind.old)) (queued rounds.old (K.own kind.old))) reply }
    ensures kept { is_state K.service K.times K.is_work phase rounds.old (K.stage kind.old) ≡ true →
        is_state K.service K.times K.is_work result rounds.new (K.stage kind.new) ≡ true }
{
    few_pages(rounds);
    match phase {
        Phase::Between => Phase::Between,
        Phase::Question => {
            let told = kind.answer_on(&reply);
            answer_told(rounds, kind, told)
        }
        Phase::Walk { which, walk } => {
            walk.wanting();
            walk_given(rounds, kind, which, walk, reply)
        }
        Phase::Take { chain } => {
            let told = kind.take_on(&reply);
            take_told(rounds, kind, chain, told)
        }
        Phase::Serve { chain } => {
            let told = kind.serve_on(&reply);
            serve_told(rounds, kind, chain, told)
        }
        Phase::Return { chain, len, stage } => {
            let _queue = chain.queue.fields();
            let _op = stage.want(&used_chain(rounds, chain, len));
            return_given(rounds, kind, chain, len, stage, &reply)
        }
        Phase::Break { which, stage } => {
            let _op = stage.want(rounds.port);
            break_given(rounds, kind, which, stage, &reply)
        }
    }
}

// The service of a chain is over, with so many bytes written, or its queue is broken. A function of its own, since each call
// clears the room for all that a function may move.
#[inline(never)]
fn serve_over<K: Kind>(phase: &mut Phase, chain: InHand, len: Option<u32>)
    ensures left { (h : Hand K.Own) (d : Queued K.Own) →
        left_at K.service phase.new h d ≡ served K.service chain.which chain.queue chain.head d len }
    ensures kept { (r : Rounds) (g : K.Stage) → is_holding K.service K.times chain r ≡ true →
        K.is_work work.Rest r.pages g ≡ true → is_state K.service K.times K.is_work phase.new r g ≡ true }
{
    *phase = served::<K>(chain, len);
}

/// A reply came to the service of a chain. What the device is at stays in its place until the service is over, since it is large.
pub fn serve_given<K: Kind>(
    rounds: &Rounds,
    kind: &mut K,
    phase: &mut Phase,
    chain: InHand,
    reply: &Reply,
)
    requires serves { phase.old ≡ Serve chain }
    requires fits { fits (root_op
        (left_at K.service phase.old (K.hand (K.stage kind.old)) (queued rounds.now (K.own kind.old)))) reply.now ≡ true }
    ensures left { left_at K.service phase.new (K.hand (K.stage kind.new)) (queued rounds.now (K.own kind.new)) ≡
        root_next (left_at K.service phase.old (K.hand (K.stage kind.old)) (queued rounds.now (K.own kind.old))) reply.now }
    ensures kept { is_state K.service K.times K.is_work phase.old rounds.now (K.stage kind.old) ≡ true →
        is_state K.service K.times K.is_work phase.new rounds.now (K.stage kind.new) ≡ true }
{
    few_pages(rounds);
    match kind.serve_on(reply) {
        None => {}
        Some(len) => serve_over::<K>(phase, chain, len),
    }
}
