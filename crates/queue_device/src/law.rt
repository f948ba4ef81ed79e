// What holds of every kind of device with queues.
ghost use Rattle.std.specs.Prelude.{◌≡◌, ◌<◌, ◌≤◌, ◌^◌, ℕ, Bool, true, List};
ghost use Rattle.vm_types.specs.declared.reply.Reply.{Reply};
ghost use Rattle.device_trace.specs.Script.{Ends, Script};
ghost use Rattle.device_trace.specs.States.{Leads, changed_at, stepped, wants};
ghost use Rattle.device_trace.specs.Traces.{Item};
ghost use Rattle.queue_device.specs.Confined.{AreItsRounds, Confines, IsConfined, IsDeviceAct};
ghost use Rattle.queue_device.specs.declared.lanes.Rounds.{Rounds};
ghost use Rattle.queue_device.specs.declared.phase.Phase.{Phase};
ghost use Rattle.queue_device.specs.declared.phase.Work.{Work};
ghost use Rattle.queue_device.specs.Kept.{is_state};
ghost use Rattle.queue_device.specs.Lanes.{new_rounds};
ghost use Rattle.queue_device.specs.Left.{left_at, queued};
ghost use Rattle.queue_device.specs.Resuming.{HasKept, Resumes};
ghost use Rattle.queue_device.specs.Rounds.{queue_rules};
ghost use Rattle.queue_device.specs.Timing.{is_timed_left};
ghost use Rattle.queue_device.specs.Service.{Queued};
ghost use Rattle.queue_device.specs.Sizes.{IsReplyTo, IsSmallWrite};

use crate::device::QueueRounds;
use crate::kind::Kind;
use device_trace::Device;

impl<K: Kind> Device for QueueRounds<K> {
    ghost use Rattle.queue_device.specs.Rounds.{queue_rules};
    ghost use Rattle.queue_device.specs.Service.{Queued};

    ghost Data = { Queued K.Own };

    ghost Change = { K.Change };

    ghost rules = { queue_rules K.service K.changing };
}

/// Where the kind keeps to its own, so does the device at this port: whatever is replied and changed, each act that it wants is
/// its own, or asks for guest time where a chain waits that is due and that the kind times by its data of that moment; it asks its
/// host object for the kind's calls alone, and in a guest of fewer than 2^32 pages it touches no byte outside RAM. That holds from
/// new rounds on, with a chain that waits, and wherever its items lead.
pub fn queue_stays<T: Kind>()
    ensures begins { (port pages : ℕ) → AreItsRounds T.service port pages (new_rounds port pages) }
    ensures leads { (port pages : ℕ) (start left : Script (Queued T.Own)) (items : List (Item T.Change)) →
        Confines T.service T.changing T.times T.calls →
        IsConfined T.service T.calls port pages start →
        Leads (queue_rules T.service T.changing) start items left →
        IsConfined T.service T.calls port pages left }
    ensures acts { (port pages : ℕ) (left : Script (Queued T.Own)) →
        Confines T.service T.changing T.times T.calls → IsConfined T.service T.calls port pages left →
        IsDeviceAct (is_timed_left T.service left) T.calls port pages (wants (queue_rules T.service T.changing) left) }
{}

/// What is left of a device in a state that it may be in is confined, where the kind keeps to its own: it asks for no act but
/// its own inside RAM of so many pages, whatever is replied and changed, and no guest time inside a group.
pub fn queue_kept<T: Kind>()
    ensures { (sized : Bool) (p : Phase) (r : Rounds) (e : T.Own) (g : T.Stage) →
        Confines T.service T.changing T.times T.calls →
        Resumes T.service T.hand T.is_work T.IsFine sized T.changing T.times T.calls →
        is_state T.service T.times T.is_work p r g ≡ true →
        IsConfined T.service T.calls r.port r.pages (left_at T.service p (T.hand g) (queued r e)) }
{}

/// Of two devices in states that they may be in of which as much is left to do the data are one.
pub fn queue_one<T: Kind>()
    ensures { (p q : Phase) (r t : Rounds) (e f : T.Own) (g h : T.Stage) →
        is_state T.service T.times T.is_work p r g ≡ true → is_state T.service T.times T.is_work q t h ≡ true →
        left_at T.service p (T.hand g) (queued r e) ≡ left_at T.service q (T.hand h) (queued t f) →
        queued r e ≡ queued t f }
{}

/// What is kept of a device leads to what is kept of it, in a guest of at most 2^20 pages: behind each fitting reply, and behind
/// each change that leaves the kind's data fine; and there is something for a device that has done nothing. Where each reply is
/// small, `sized`, each number of what is kept has its width.
pub fn queue_goes_on<T: Kind>()
    ensures begins { (sized : Bool) (port pages : ℕ) (e : T.Own) → pages ≤ 2 ^ 20 →
        Confines T.service T.changing T.times T.calls →
        Resumes T.service T.hand T.is_work T.IsFine sized T.changing T.times T.calls → T.IsFine e →
        HasKept T.service T.hand T.is_work T.IsFine sized T.times port pages (Ends (queued (new_rounds port pages) e)) }
    ensures reply { (sized : Bool) (port pages : ℕ) (t : Script (Queued T.Own)) (reply : Reply) →
        pages ≤ 2 ^ 20 → Confines T.service T.changing T.times T.calls →
        Resumes T.service T.hand T.is_work T.IsFine sized T.changing T.times T.calls →
        HasKept T.service T.hand T.is_work T.IsFine sized T.times port pages t →
        IsReplyTo sized (wants (queue_rules T.service T.changing) t) reply →
        HasKept T.service T.hand T.is_work T.IsFine sized T.times port pages
        (stepped (queue_rules T.service T.changing) t reply) }
    ensures change { (sized : Bool) (port pages : ℕ) (t : Script (Queued T.Own)) (c : T.Change) →
        pages ≤ 2 ^ 20 → Confines T.service T.changing T.times T.calls →
        Resumes T.service T.hand T.is_work T.IsFine sized T.changing T.times T.calls →
        HasKept T.service T.hand T.is_work T.IsFine sized T.times port pages t →
        ((e : T.Own) → T.IsFine e → T.IsFine (T.changing.between c e) × T.IsFine (T.changing.inside c e)) →
        HasKept T.service T.hand T.is_work T.IsFine sized T.times port pages
        (changed_at (queue_rules T.service T.changing) c t) }
{}

/// What a device writes are bytes, in a guest of at most 2^20 pages, where the kind's own acts and its question write bytes.
pub fn queue_writes<T: Kind>()
    ensures { (sized : Bool) (port pages : ℕ) (t : Script (Queued T.Own)) →
        pages ≤ 2 ^ 20 → Confines T.service T.changing T.times T.calls →
        Resumes T.service T.hand T.is_work T.IsFine sized T.changing T.times T.calls →
        ((e : T.Own) → IsSmallWrite (T.service.question e)) →
        ((w : Work) (g : T.Stage) → T.is_work w pages g ≡ true → IsSmallWrite (T.hand g).op) →
        HasKept T.service T.hand T.is_work T.IsFine sized T.times port pages t →
        IsSmallWrite (wants (queue_rules T.service T.changing) t) }
{}
