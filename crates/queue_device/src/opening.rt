// Between two groups: the act that begins the next one.
ghost use Rattle.std.specs.Prelude.{◌≡◌, Some};
ghost use Rattle.vm_types.specs.declared.op.Op.TheVariants.{Port};
ghost use Rattle.vm_types.specs.declared.op.PortOp.TheVariants.{Break, Look};
ghost use Rattle.device_trace.specs.Traces.{root_op};
ghost use Rattle.queue_device.specs.Chains.{Chain};
ghost use Rattle.queue_device.specs.Left.{queued};
ghost use Rattle.queue_device.specs.Lanes.{in_lane, lane_freed};
ghost use Rattle.queue_device.specs.Rounds.{begins, goes_on, next_begins, serving};

use crate::chain::TakenChain;
use crate::going::{due_from, used_chain};
use crate::kind::{Begin, Kind};
use crate::lanes::{Due, Rounds, Which};
use crate::phase::InHand;
use dev_core::ReturnStage;
use vm_types::{BoardOp, Op, PortOp};
use vq_split::queue_flaw;

fn look_op(rounds: &Rounds) -> Op
    ensures { result ≡ Port rounds.now.port Look }
{
    Op::Port {
        port: rounds.port,
        act: PortOp::Look,
    }
}

fn break_op(rounds: &Rounds) -> Op
    ensures { result ≡ Port rounds.now.port Break }
{
    Op::Port {
        port: rounds.port,
        act: PortOp::Break,
    }
}

// The act with which a chain that waited is served.
fn serving_op<K: Kind>(rounds: &Rounds, kind: &K, which: Which, chain: &TakenChain) -> Op
    ensures { result ≡ root_op (serving K.service which chain.now
        (queued (in_lane which lane_freed rounds.now) (K.own kind.now))) }
{
    match kind.serves(which, chain) {
        Begin::Wants(op) => op,
        Begin::Comes(None) => break_op(rounds),
        Begin::Comes(Some(len)) => {
            let queue = chain.queue();
            let _queue = queue.fields();
            let chain = InHand {
                which,
                queue,
                head: chain.head(),
            };
            ReturnStage::Pair.want(&used_chain(rounds, chain, len))
        }
    }
}

// The act with which it goes on.
fn goes_on_op<K: Kind>(rounds: &Rounds, kind: &K, which: Which, chain: &TakenChain) -> Op
    ensures { result ≡ root_op (goes_on K.service which chain.now (queued rounds.now (K.own kind.now))) }
{
    if kind.is_timed(which, chain) {
        Op::Board(BoardOp::Time)
    } else {
        serving_op(rounds, kind, which, chain)
    }
}

fn lane_op<K: Kind>(rounds: &Rounds, kind: &K, which: Which) -> Op
    ensures { result ≡ root_op (next_begins K.service (Some which) (queued rounds.now (K.own kind.now))) }
{
    let lane = rounds.lane(which);
    match lane.queue {
        None => Op::Idle,
        Some(queue) => match &lane.waiting {
            Some(chain) => goes_on_op(rounds, kind, which, chain),
            None => match queue_flaw(&queue) {
                Some(_) => break_op(rounds),
                None => Op::Read {
                    at: queue.available + 2,
                    len: 2,
                },
            },
        },
    }
}

/// The act that begins a group.
#[inline(never)]
pub fn opening<K: Kind>(rounds: &Rounds, kind: &K) -> Op
    ensures { result ≡ root_op (begins K.service (queued rounds.now (K.own kind.now))) }
{
    match rounds.due {
        Due::Look => look_op(rounds),
        Due::Question => kind.question(),
        Due::Wait => Op::Idle,
        Due::Lane(which) => match due_from(rounds, kind, which) {
            Some(which) => lane_op(rounds, kind, which),
            None => {
                if rounds.is_busy {
                    look_op(rounds)
                } else {
                    Op::Idle
                }
            }
        },
    }
}
