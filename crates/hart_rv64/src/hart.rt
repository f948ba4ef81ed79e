// The monitor's hart.
ghost use Rattle.std.specs.Prelude.{◌≡◌, ◌≤◌, ◌%◌, true, false, MatchOption};
ghost use Rattle.vm_types.specs.declared.op.Op.TheVariants.{Read};
ghost use Rattle.vm_types.specs.Fits.{fits};
ghost use Rattle.rv_doing.specs.Doing.{asked, ended};
ghost use Rattle.rv_doing.specs.HartOps.{op_of, reply_of};
ghost use Rattle.guest_memory.specs.Ram.{ram_start};
ghost use Rattle.hart_trace.specs.Traces.{executes};

mod fetching;
mod parts;

use crate::begun::Begun;
use guest_memory::RAM_START;
use hart_trace::look;
use rv_doing::{HartOp, HartReply, effect_of_word, perform, run_plain, wanted};
use rv_rows::numbers::low_word;
use rv_rows::{Exception, Register};
use rv_supervisor::{Regs, Turn, start_regs, trap};
use std::marker::Model;
use vm_types::{Actor, BoardOp, Op, Reply};

/// A hart: its registers before an instruction, and the instruction's word from its fetch to the reply
/// that ends it. Contracts see it as the hart of the definition, `Hart` of `hart_trace/specs/States.antt`.
///
/// What it wants and becomes are the definition's too. So by `hart_trace::hart_follows` its wants, each
/// with a reply that fits, are the first steps of a trace of the registers that it began with, and no
/// other op would continue them.
#[derive(Drop)]
pub struct Hart {
    regs: Regs,
    begun: Option<Begun>,
}

impl Model for Hart {
    ghost use Rattle.hart_trace.specs.States.{Hart as HartState};
    ghost use Rattle.hart_rv64.specs.Begun.{IsKept, word_in};

    ghost Value = { HartState };

    ghost view = { λ h. record { regs = h.regs; begun = word_in h.begun } };

    ghost invariant = { λ h. IsKept h.begun h.regs };
}

/// The reply in few bytes, where it fits the op.
fn fitting(op: HartOp, reply: &Reply) -> Option<HartReply>
    ensures { MatchOption result
        (fits (op_of op) reply.now ≡ false)
        (λ small. (reply_of small ≡ reply.now) × (fits (op_of op) (reply_of small) ≡ true)) }
{
    let small = HartReply::of(reply)?;
    if op.is_fit(&small) { Some(small) } else { None }
}

impl Hart {
    ghost use Rattle.hart_trace.specs.States.{fresh, hart_wants, hart_next, hart_stepped, hart_fetched, begins_by};
    ghost use Rattle.hart_trace.specs.Shown.{register_of};
    ghost use Rattle.hart_trace.specs.Stopped.{stopped_regs};
    ghost use Rattle.hart_rv64.specs.Start.{start_of};

    /// A hart that begins at `pc`, a multiple of 4, with these arguments in a0 and a1 and 0 in every other
    /// register.
    pub fn new(pc: u64, a0: u64, a1: u64) -> Hart
        requires { pc % 4 ≡ 0 }
        ensures { result ≡ start_of pc a0 a1 }
    {
        Hart::with_regs(start_regs(pc, a0, a1))
    }

    /// A hart between two instructions, with these registers.
    pub fn with_regs(regs: Regs) -> Hart
        ensures { result ≡ fresh regs }
    {
        Hart { regs, begun: None }
    }

    /// A hart that is stopped as the machine starts: every register and the pc are 0, and it looks at the board first.
    pub fn stopped() -> Hart
        ensures { result ≡ fresh stopped_regs }
    {
        let mut regs = start_regs(0, 0, 0);
        regs.turn = Turn::Look;
        Hart::with_regs(regs)
    }

    /// Register x0 to x31 by its number, or pc by the number 32.
    pub fn reg(&self, n: usize) -> u64
        requires { n ≤ 32 }
        ensures { result ≡ register_of self.now n }
    {
        if n == 32 {
            self.regs.pc
        } else {
            self.regs.get(Register::from_number(n as u32))
        }
    }

    /// What the hart wants, in few bytes.
    #[inline(always)]
    pub fn asks(&self) -> HartOp
        ensures { op_of result ≡ hart_wants self.now }
    {
        match self.begun {
            None => match self.regs.turn {
                Turn::Fetch => HartOp::Fetch { pc: self.regs.pc },
                Turn::Look | Turn::WakeLook => HartOp::Board(BoardOp::Look),
                Turn::Idle | Turn::WakeIdle => HartOp::Idle,
            },
            Some(begun) => match wanted(begun.effect, begun.word, &self.regs) {
                Some(op) => op,
                None => HartOp::Idle,
            },
        }
    }

    // Does what the fetched word says, or begins it where it asks for an access.
    #[inline]
    fn execute(&mut self, word: u32)
        requires between { self.old.begun ≡ None }
        requires ram { ram_start ≤ self.old.regs.pc }
        ensures { (reply : Reply) →
            self.new ≡ begins_by (asked (executes word self.old.regs)) word self.old.regs reply }
    {
        if !run_plain(word, &mut self.regs) {
            self.execute_any(word);
        }
    }

    // The same of any word, which is decoded here alone. It is out of line so that there is one copy of it.
    #[inline(never)]
    #[tactic(auto, using(crate::proofs::Ends::ends_alike))]
    fn execute_any(&mut self, word: u32)
        requires between { self.old.begun ≡ None }
        requires ram { ram_start ≤ self.old.regs.pc }
        ensures { (reply : Reply) →
            self.new ≡ begins_by (asked (executes word self.old.regs)) word self.old.regs reply }
    {
        let effect = effect_of_word(word, &self.regs);
        match wanted(effect, word, &self.regs) {
            Some(_) => self.begun = Some(Begun { effect, word }),
            None => perform(effect, word, &mut self.regs, HartReply::Done),
        }
    }

    // Begins the next instruction by the reply to its fetch, which fits.
    #[inline]
    #[tactic(auto, using(crate::proofs::Ends::fetched_word))]
    fn fetched(&mut self, reply: HartReply)
        requires between { self.old.begun ≡ None }
        requires fit { fits (Read self.old.regs.pc 4) (reply_of reply) ≡ true }
        ensures { self.new ≡ hart_fetched self.old.regs (reply_of reply) }
    {
        match reply {
            HartReply::Bytes { word, .. } if self.regs.pc >= RAM_START => {
                self.execute(low_word(word));
            }
            _ => {
                let pc = self.regs.pc;
                trap(&mut self.regs, Exception::InstructionFault, pc);
            }
        }
    }

    // Goes on by a reply that fits.
    #[inline(always)]
    fn step(&mut self, reply: HartReply)
        requires { fits (hart_wants self.old) (reply_of reply) ≡ true }
        ensures { self.new ≡ hart_stepped self.old (reply_of reply) }
    {
        match self.begun {
            None => match self.regs.turn {
                Turn::Fetch => self.fetched(reply),
                Turn::Look | Turn::WakeLook => {
                    if let HartReply::Shown(shown) = reply {
                        look(&mut self.regs, shown);
                    }
                }
                Turn::Idle => self.regs.turn = Turn::Look,
                Turn::WakeIdle => self.regs.turn = Turn::WakeLook,
            },
            Some(begun) => {
                if !matches!(reply, HartReply::Full) {
                    self.begun = None;
                    perform(begun.effect, begun.word, &mut self.regs, reply);
                }
            }
        }
    }

    /// The hart goes on by a reply in few bytes, which fits what it wants.
    #[inline(always)]
    pub fn goes_on(&mut self, reply: HartReply)
        requires { fits (hart_wants self.old) (reply_of reply) ≡ true }
        ensures { self.new ≡ hart_next self.old (reply_of reply) }
    {
        self.step(reply);
    }
}

impl Actor for Hart {
    ghost use Rattle.hart_trace.specs.States.{Hart as HartState, hart_wants, hart_leaves, hart_next};

    ghost State = { HartState };

    ghost state = { λ h. h };

    ghost wants = { hart_wants };

    ghost next = { hart_next };

    ghost leaves = { hart_leaves };

    fn want(&self) -> Op {
        self.asks().op()
    }

    fn give(&mut self, reply: Reply) {
        let op = self.asks();
        if let Some(small) = fitting(op, &reply) {
            self.step(small);
        }
    }
}
