// What harts ask of the board: their looks, sip, and the calls that start, stop and interrupt harts.
ghost use Rattle.std.specs.Prelude.{◌≡◌, ◌<◌, ◌+◌, ◌^◌, ◌||◌, IfSome, length, if◌then◌else◌};
ghost use Rattle.vm_types.specs.declared.reply.Reply.{Reply};
ghost use Rattle.board_table.specs.Board.{hart_of, state_of};
ghost use Rattle.board_table.specs.Calls as calls;
ghost use Rattle.board_table.specs.Pending as pending;

use crate::Board;
use crate::board::console::INVALID_PARAMETER;
use board_table::HartState;
use vm_types::{ActorId, Reply, Shown};

/// SBI_ERR_ALREADY_AVAILABLE, -6 (SBI, "Binary Encoding").
const ALREADY_AVAILABLE: u64 = 0xffff_ffff_ffff_fffa;

/// A base of all ones names every hart.
const EVERY_HART: u64 = 0xffff_ffff_ffff_ffff;

/// A call that is refused.
pub fn refused(error: u64) -> Reply
    ensures { result ≡ Reply.Returned error 0 }
{
    Reply::Returned { error, value: 0 }
}

fn value_if(is: bool, value: u64) -> u64
    requires { value < 2 ^ 16 }
    ensures value { result ≡ (if is then value else 0) }
    ensures small { result < 2 ^ 16 }
{
    if is { value } else { 0 }
}

fn software_after(clear: u64, set: u64, old: bool) -> bool
    ensures { result ≡ pending.software_after clear set old }
{
    set / 2 % 2 == 1 || (old && clear / 2 % 2 != 1)
}

fn is_named(mask: u64, base: u64, k: usize) -> bool
    requires { k < 64 }
    ensures { result ≡ calls.is_named mask base k }
{
    base == EVERY_HART || (base <= k as u64 && mask >> (k as u64 - base) & 1 == 1)
}

fn names_harts_alone(mask: u64, base: u64, harts: usize) -> bool
    requires { harts < 64 }
    ensures { result ≡ calls.names_harts_alone mask base harts }
{
    base == EVERY_HART || mask >> (harts as u64).saturating_sub(base) == 0
}

fn either(a: bool, b: bool) -> bool
    ensures { result ≡ (a || b) }
{
    a || b
}

fn send_from(software: &mut [bool], mask: u64, base: u64)
    requires { length software.old < 64 }
    ensures { software.new ≡ calls.sent_from mask base 0 software.old }
{
    for k in 0..software.len() {
        software[k] = either(software[k], is_named(mask, base, k));
    }
}

fn status_number(state: HartState) -> u64
    ensures { result ≡ calls.status_number state }
{
    match state {
        HartState::Started => 0,
        HartState::Stopped => 1,
        HartState::StartPending { .. } => 2,
    }
}

impl Board {
    /// The number of an actor that is a hart of this board.
    pub fn hart_of(&self, actor: ActorId) -> Option<usize>
        ensures number { result ≡ hart_of self.now actor }
        ensures there { IfSome result (λ k. k < length self.now.states) }
    {
        match actor {
            ActorId::Hart(k) if (k as usize) < self.states.len() => Some(k as usize),
            _ => None,
        }
    }

    fn pending_bits(&self, k: usize) -> u64
        requires { k < length self.now.states }
        ensures { result ≡ pending.pending_bits self.now k }
    {
        value_if(self.software[k], 0x2)
            + value_if(self.deadlines[k] <= self.moment, 0x20)
            + value_if(self.pending & self.enables[k] != 0, 0x200)
    }

    fn look_as(&mut self, k: usize) -> Shown
        requires { k < length self.old.states }
        ensures reply { Reply.Shown result ≡ (pending.look_as (state_of self.old k) self.old k).0 }
        ensures value { self.new ≡ (pending.look_as (state_of self.old k) self.old k).1 }
    {
        match self.states[k] {
            HartState::Started => Shown::Pending(self.pending_bits(k)),
            HartState::Stopped => Shown::Stopped,
            HartState::StartPending { pc, word } => {
                self.states[k] = HartState::Started;
                Shown::Start {
                    pc,
                    number: k as u64,
                    word,
                }
            }
        }
    }

    /// A look of this hart, or of what is no hart of this board.
    pub fn look(&mut self, hart: Option<usize>) -> Shown
        requires { IfSome hart (λ k. k < length self.old.states) }
        ensures reply { Reply.Shown result ≡ (pending.look self.old hart).0 }
        ensures value { self.new ≡ (pending.look self.old hart).1 }
    {
        match hart {
            None => Shown::Stopped,
            Some(k) => self.look_as(k),
        }
    }

    /// An access to sip: it reads what is pending, and then clears and sets the software interrupt.
    pub fn access_sip(&mut self, hart: Option<usize>, clear: u64, set: u64) -> Reply
        requires { IfSome hart (λ k. k < length self.old.states) }
        ensures reply { result ≡ (pending.access_sip self.old hart clear set).0 }
        ensures value { self.new ≡ (pending.access_sip self.old hart clear set).1 }
    {
        let Some(k) = hart else {
            return Reply::Word(0);
        };
        let bits = self.pending_bits(k);
        self.software[k] = software_after(clear, set, self.software[k]);
        Reply::Word(bits)
    }

    /// The deadline of the hart that calls.
    pub fn set_timer(&mut self, hart: Option<usize>, deadline: u64) -> Reply
        requires { IfSome hart (λ k. k < length self.old.states) }
        ensures reply { result ≡ (calls.set_timer self.old hart deadline).0 }
        ensures value { self.new ≡ (calls.set_timer self.old hart deadline).1 }
    {
        if let Some(k) = hart {
            self.deadlines[k] = deadline;
        }
        Reply::Done
    }

    /// Makes the software interrupts of the named harts pending, or of none where one that is named isn't there.
    pub fn send_ipi(&mut self, mask: u64, base: u64) -> Reply
        ensures reply { result ≡ (calls.send_ipi self.old mask base).0 }
        ensures value { self.new ≡ (calls.send_ipi self.old mask base).1 }
    {
        if names_harts_alone(mask, base, self.states.len()) {
            send_from(&mut self.software, mask, base);
            Reply::Returned { error: 0, value: 0 }
        } else {
            refused(INVALID_PARAMETER)
        }
    }

    /// A stopped hart is to start.
    pub fn start_hart(&mut self, hart: u64, pc: u64, word: u64) -> Reply
        ensures reply { result ≡ (calls.start_hart self.old hart pc word).0 }
        ensures value { self.new ≡ (calls.start_hart self.old hart pc word).1 }
    {
        if hart >= self.states.len() as u64 {
            return refused(INVALID_PARAMETER);
        }
        let hart = hart as usize;
        match self.states[hart] {
            HartState::Stopped => {
                self.states[hart] = HartState::StartPending { pc, word };
                Reply::Returned { error: 0, value: 0 }
            }
            _ => refused(ALREADY_AVAILABLE),
        }
    }

    /// The hart that calls stops.
    pub fn stop_hart(&mut self, hart: Option<usize>) -> Reply
        requires { IfSome hart (λ k. k < length self.old.states) }
        ensures reply { result ≡ (calls.stop_hart self.old hart).0 }
        ensures value { self.new ≡ (calls.stop_hart self.old hart).1 }
    {
        if let Some(k) = hart {
            self.states[k] = HartState::Stopped;
        }
        Reply::Done
    }

    /// What a hart's state is.
    pub fn hart_status(&self, hart: u64) -> Reply
        ensures { result ≡ (calls.hart_status self.now hart).0 }
    {
        if hart < self.states.len() as u64 {
            Reply::Returned {
                error: 0,
                value: status_number(self.states[hart as usize]),
            }
        } else {
            refused(INVALID_PARAMETER)
        }
    }
}
