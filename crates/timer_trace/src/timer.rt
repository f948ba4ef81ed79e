// The timer as an actor.
ghost use Rattle.std.specs.Prelude.{◌≡◌, None};
ghost use Rattle.timer_trace.specs.Traces.{difference};
ghost use Rattle.timer_trace.specs.States.{new_timer, timer_stepped};
ghost use Rattle.vm_types.specs.Fits.{Fits};
ghost use Rattle.timer_trace.specs.States.{timer_wants};

use vm_types::{Actor, BoardOp, Op, OutOp, Reply, is_fit};

/// The clock's last answer since the timer's start, and by how much guest time is still to advance for it, both in
/// nanoseconds.
#[derive(Clone, Copy, Drop)]
pub struct Timer {
    pub last: Option<u64>,
    pub due: Option<u64>,
}

/// How much later an answer of the clock is than its last one: 0 where there was none, or where the clock fell.
fn difference(last: Option<u64>, answer: u64) -> u64
    ensures { result ≡ difference last answer }
{
    match last {
        None => 0,
        Some(last) => answer.saturating_sub(last),
    }
}

impl Timer {
    /// A timer at its start.
    pub fn new() -> Timer
        ensures { result ≡ new_timer }
    {
        Timer {
            last: None,
            due: None,
        }
    }

    fn stepped(&mut self, reply: Reply)
        requires { Fits (timer_wants self.old) reply }
        ensures { self.new ≡ timer_stepped self.old reply }
    {
        match (self.due, reply) {
            (None, Reply::Word(answer)) => {
                self.due = Some(difference(self.last, answer));
                self.last = Some(answer);
            }
            _ => self.due = None,
        }
    }
}

impl Actor for Timer {
    ghost use Rattle.timer_trace.specs.declared.timer.Timer.{Timer};
    ghost use Rattle.timer_trace.specs.States.{timer_leaves, timer_next, timer_wants};

    ghost State = { Timer };

    ghost state = { λ t. t };

    ghost wants = { timer_wants };

    ghost next = { timer_next };

    ghost leaves = { timer_leaves };

    fn want(&self) -> Op {
        match self.due {
            None => Op::Out(OutOp::Clock),
            Some(nanoseconds) => Op::Board(BoardOp::Advance { nanoseconds }),
        }
    }

    fn give(&mut self, reply: Reply) {
        let op = self.want();
        if is_fit(&op, &reply) {
            self.stepped(reply);
        }
    }
}
