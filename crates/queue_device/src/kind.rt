// What a kind of device with queues does, beside its rounds.
use crate::chain::{TakenChain, TakenParts};
use crate::lanes::Which;
use crate::phase::Work;
use vm_types::{Op, Reply};
use vq_split::PartList;

/// How the service of a chain begins.
#[derive(Clone, Copy, Drop)]
pub enum Begin {
    /// With this act.
    Wants(Op),
    /// With none: so many bytes were written, or the queue is broken.
    Comes(Option<u32>),
}

/// What a kind of device does. It keeps its own data, and where it is in the work that was begun: a question to the host
/// object, what is read of a chain before it may be served, or a chain's service. `None` says that the work goes on with
/// the act that `want` gives, and `Some` what it came to.
///
/// `service` is its definition, and `changing` what changes from outside make of its data. It may ask guest time where `times`
/// says so, and its host object for the calls of `calls` alone. `own` are its data, `stage` is where it is, and `hand` the
/// work that was begun. `is_work` says where it may be in a guest of so many pages, by what its device is at,
/// and `IsFine` which data it may have. Each call leaves it where it may be, if it was so before.
pub trait Kind: Drop {
    ghost use Rattle.std.specs.Prelude.{ℕ, ◌≡◌, ◌<◌, ◌^◌, Bool, true, false, Option, Some, None, if◌then◌else◌, IfSome};
    ghost use Rattle.vm_types.specs.declared.op.OutOp.{OutOp};
    ghost use Rattle.vm_types.specs.Fits.{fits};
    ghost use Rattle.device_trace.specs.Traces.{Changing};
    ghost use Rattle.queue_device.specs.Acting.{Works};
    ghost use Rattle.queue_device.specs.Left.{Hand, begin_of};
    ghost use Rattle.queue_device.specs.Service.{Service};
    ghost use Rattle.queue_device.specs.declared.phase.Work.{Work};
    ghost use Rattle.queue_device.specs.declared.phase.Work.TheVariants as work;
    ghost use Rattle.queue_device.specs.Confined.{is_chain};
    ghost use Rattle.queue_device.specs.Kept.{RestsOn, is_fit_told, work_after};
    ghost use Rattle.vq_split.specs.Kept.{are_inside};

    /// What may be changed from outside.
    type Change: Drop;

    ghost Own: { Type 0 };

    ghost Stage: { Type 0 };

    ghost service: { Service Self.Own };

    ghost changing: { Changing Self.Own Self.Change };

    ghost times: { Bool };

    ghost calls: { OutOp → Bool };

    ghost own: { Self → Self.Own };

    ghost stage: { Self → Self.Stage };

    ghost hand: { Self.Stage → Hand Self.Own };

    ghost is_work: { Work → ℕ → Self.Stage → Bool };

    ghost IsFine: { Self.Own → Type 0 };

    /// The last of its queues.
    fn last(&self) -> Which
        ensures { result ≡ service.last };

    /// Whether it may ask its host object at all.
    fn may_ask(&self) -> bool
        ensures { result ≡ service.may_ask };

    /// Whether it may ask guest time at all, so that a chain may wait.
    fn may_wait(&self) -> bool
        ensures { result ≡ times };

    /// Whether a chain may be served of which this is kept.
    fn is_taken(&self, which: Which, chain: &TakenChain) -> bool
        ensures { result ≡ service.is_taken which chain.now.parts chain.now.got };

    /// Whether it may be where it is, by this work of its device in a guest of so many pages.
    fn is_work(&self, work: Work, pages: u32) -> bool
        ensures { result ≡ is_work work pages (stage self.now) };

    /// The act that is wanted by the work that was begun.
    fn want(&self) -> Op
        ensures { result ≡ (hand (stage self.now)).op };

    /// Whether there is something to ask the host object.
    fn asks(&self) -> bool
        ensures { result ≡ service.asks (own self.now) };

    /// By which act it is asked.
    fn question(&self) -> Op
        ensures { result ≡ service.question (own self.now) };

    /// The host object answered. Whether something was received.
    fn answer(&mut self, reply: &Reply) -> Option<bool>
        requires { fits (service.question (own self.old)) reply.now ≡ true }
        ensures works { Works (service.answer (own self.old) reply.now) result
            (own self.new) (hand (stage self.new)).op (hand (stage self.new)).answering }
        ensures work { (pages : ℕ) → is_work work.Rest pages (stage self.old) ≡ true →
            is_work (work_after result work.Answer) pages (stage self.new) ≡ true };

    /// A reply came to the work that follows the answer.
    fn answer_on(&mut self, reply: &Reply) -> Option<bool>
        requires { fits (hand (stage self.old)).op reply.now ≡ true }
        ensures works { Works ((hand (stage self.old)).answering (own self.old) reply.now) result
            (own self.new) (hand (stage self.new)).op (hand (stage self.new)).answering }
        ensures work { (pages : ℕ) → is_work work.Answer pages (stage self.old) ≡ true →
            is_work (work_after result work.Answer) pages (stage self.new) ≡ true };

    /// Whether the next chain of a queue is wanted, which was kicked or wasn't.
    fn wants_chain(&self, which: Which, is_kicked: bool) -> bool
        ensures { result ≡ service.wants_chain which is_kicked (own self.now) };

    /// The available ring of a queue shows a chain, which is so begun.
    fn begun(&mut self, which: Which)
        ensures own { own self.new ≡ service.begun which (own self.old) }
        ensures rests { RestsOn is_work (stage self.old) (stage self.new) };

    /// A chain of these parts is taken. What is kept of it, or nothing where it breaks the queue.
    fn take(&mut self, which: Which, parts: PartList) -> Option<Option<TakenParts>>
        ensures works { Works (service.take which parts (own self.old)) result
            (own self.new) (hand (stage self.new)).op (hand (stage self.new)).taking }
        ensures work { (pages : ℕ) → pages < 2 ^ 32 → is_work work.Rest pages (stage self.old) ≡ true →
            are_inside pages parts ≡ true →
            (is_work (work_after result (work.Take which)) pages (stage self.new) ≡ true)
            × (is_fit_told service pages which result ≡ true) };

    /// A reply came to that.
    fn take_on(&mut self, reply: &Reply) -> Option<Option<TakenParts>>
        requires { fits (hand (stage self.old)).op reply.now ≡ true }
        ensures works { Works ((hand (stage self.old)).taking (own self.old) reply.now) result
            (own self.new) (hand (stage self.new)).op (hand (stage self.new)).taking }
        ensures work { (pages : ℕ) (which : Which) → pages < 2 ^ 32 →
            is_work (work.Take which) pages (stage self.old) ≡ true →
            (is_work (work_after result (work.Take which)) pages (stage self.new) ≡ true)
            × (is_fit_told service pages which result ≡ true) };

    /// Whether guest time is asked for a chain.
    fn is_timed(&self, which: Which, chain: &TakenChain) -> bool
        ensures timed { result ≡ service.is_timed which chain.now (own self.now) }
        ensures may { result ≡ true → times ≡ true };

    /// Whether a chain passes at this guest time, in nanoseconds. Where it doesn't, nothing changes.
    fn passes(&mut self, which: Which, chain: &TakenChain, now: u64) -> bool
        ensures passes { service.passes which chain.now now (own self.old) ≡
            (if result then Some (own self.new) else None) }
        ensures waits { result ≡ false → own self.new ≡ own self.old }
        ensures rests { RestsOn is_work (stage self.old) (stage self.new) };

    /// How the service of a chain would begin now.
    fn serves(&self, which: Which, chain: &TakenChain) -> Begin
        ensures { result ≡ begin_of (service.serve which chain.now (own self.now)) };

    /// A chain is served. How many bytes were written, or nothing where the queue is broken.
    fn serve(&mut self, which: Which, chain: &TakenChain) -> Option<Option<u32>>
        ensures works { Works (service.serve which chain.now (own self.old)) result
            (own self.new) (hand (stage self.new)).op (hand (stage self.new)).serving }
        ensures work { (pages : ℕ) → pages < 2 ^ 32 → is_work work.Rest pages (stage self.old) ≡ true →
            is_chain service pages which chain.now ≡ true →
            is_work (work_after result (work.Serve which)) pages (stage self.new) ≡ true };

    /// A reply came to that.
    fn serve_on(&mut self, reply: &Reply) -> Option<Option<u32>>
        requires { fits (hand (stage self.old)).op reply.now ≡ true }
        ensures works { Works ((hand (stage self.old)).serving (own self.old) reply.now) result
            (own self.new) (hand (stage self.new)).op (hand (stage self.new)).serving }
        ensures work { (pages : ℕ) (which : Which) → pages < 2 ^ 32 →
            is_work (work.Serve which) pages (stage self.old) ≡ true →
            is_work (work_after result (work.Serve which)) pages (stage self.new) ≡ true };

    /// The chain in hand was given back, or its queue was found broken.
    fn over(&mut self, which: Which)
        ensures own { own self.new ≡ service.over which (own self.old) }
        ensures rests { RestsOn is_work (stage self.old) (stage self.new) };

    /// The driver reset the device.
    fn reset(&mut self)
        ensures own { own self.new ≡ service.reset (own self.old) }
        ensures rests { RestsOn is_work (stage self.old) (stage self.new) };

    /// A change from outside between two groups.
    fn change(&mut self, change: Self::Change)
        ensures own { own self.new ≡ changing.between change (own self.old) }
        ensures rests { RestsOn is_work (stage self.old) (stage self.new) };

    /// A change from outside while `op` is wanted. The reply by which that act is left out, if it is.
    fn change_inside(&mut self, change: Self::Change, op: &Op) -> Option<Reply>
        ensures own { own self.new ≡ changing.inside change (own self.old) }
        ensures stage { stage self.new ≡ stage self.old }
        ensures cut { result ≡ changing.cut change (own self.old) op.now }
        ensures fits { IfSome result (λ reply. fits op.now reply ≡ true) };

    /// A kind that keeps the same.
    fn again(&self) -> Self
        ensures { result ≡ self.now };
}
