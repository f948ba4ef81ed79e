// What holds of the filler, by what holds of every kind of device with queues.
ghost use Rattle.std.specs.Prelude.{◌≡◌, ◌≤◌, ◌^◌, ℕ, true, List};
ghost use Rattle.vm_types.specs.declared.reply.Reply.{Reply};
ghost use Rattle.vm_types.specs.Fits.{Fits};
ghost use Rattle.device_trace.specs.States.{LeadsTo, changed_at, stepped, wants};
ghost use Rattle.device_trace.specs.Traces.{Item};
ghost use Rattle.rate_gate.specs.Gate.{Buckets};
ghost use Rattle.device_trace.specs.Script.{Ends, Script};
ghost use Rattle.queue_device.specs.declared.lanes.Rounds.{Rounds};
ghost use Rattle.queue_device.specs.declared.phase.Phase.{Phase};
ghost use Rattle.queue_device.specs.Confined.{IsConfined, IsDeviceAct};
ghost use Rattle.queue_device.specs.Kept.{is_state};
ghost use Rattle.queue_device.specs.Lanes.{new_lane};
ghost use Rattle.queue_device.specs.Left.{left_at, queued};
ghost use Rattle.queue_device.specs.Service.{Queued};
ghost use Rattle.queue_device.specs.Timing.{is_timed_left};
ghost use Rattle.filler_device.specs.declared.kind.FillerChange.{FillerChange};
ghost use Rattle.filler_device.specs.declared.kind.Stage.{Stage};
ghost use Rattle.filler_device.specs.Filler.{Filler, filler, filler_rules, new_filler, no_call};
ghost use Rattle.filler_device.specs.Work.{FillerKept, hand_of, is_work};
ghost use Rattle.filler_device.specs.Sequences.{finish, limits_at, no_limits, start, until_its_time, until_limited, until_reset};
ghost use Rattle.filler_device.specs.Sequences.{until_unlimited, used_lane, waiting_lane, with_second};

use crate::kind::FillerKind;
use queue_device::{queue_goes_on, queue_kept, queue_one, queue_stays};

/// Wherever the items of a filler lead, it wants an act of its own, or guest time, and in a guest of fewer than 2^32 pages no
/// byte outside RAM.
pub fn filler_stays()
    ensures { (port pages : ℕ) (limits : Buckets) (items : List (Item FillerChange)) (left : Script (Queued Filler)) →
        LeadsTo filler_rules (new_filler port pages limits) items left →
        IsDeviceAct (is_timed_left filler left) no_call port pages (wants filler_rules left) }
{
    queue_stays::<FillerKind>();
}

/// What is left of a filler in a state that it may be in is confined, and tells its data.
pub fn filler_kept()
    ensures stays { (p : Phase) (r : Rounds) (e : Filler) (g : Stage) →
        is_state filler true is_work p r g ≡ true →
        IsConfined filler no_call r.port r.pages (left_at filler p (hand_of g) (queued r e)) }
    ensures one { (p q : Phase) (r t : Rounds) (e f : Filler) (g h : Stage) →
        is_state filler true is_work p r g ≡ true → is_state filler true is_work q t h ≡ true →
        left_at filler p (hand_of g) (queued r e) ≡ left_at filler q (hand_of h) (queued t f) → queued r e ≡ queued t f }
{
    queue_kept::<FillerKind>();
    queue_one::<FillerKind>();
}

/// What is kept of a filler leads to what is kept of it, in a guest of at most 2^20 pages: at its start, behind each fitting
/// reply, and behind each change.
pub fn filler_goes_on()
    ensures begins { (port pages : ℕ) (limits : Buckets) → pages ≤ 2 ^ 20 →
        FillerKept port pages (Ends (new_filler port pages limits)) }
    ensures reply { (port pages : ℕ) (t : Script (Queued Filler)) (reply : Reply) → pages ≤ 2 ^ 20 →
        FillerKept port pages t → Fits (wants filler_rules t) reply → FillerKept port pages (stepped filler_rules t reply) }
    ensures change { (port pages : ℕ) (t : Script (Queued Filler)) (c : FillerChange) → pages ≤ 2 ^ 20 →
        FillerKept port pages t → FillerKept port pages (changed_at filler_rules c t) }
{
    queue_goes_on::<FillerKind>();
}

/// A chain of a filler waits until its bytes have flowed in. It goes on at once where the API takes the limit away, and waits
/// again where that is given back before. A reset drops it and leaves a new filler. Chains of the other queue don't wait for it.
pub fn filler_waits()
    ensures time { LeadsTo filler_rules start until_its_time (Ends (finish used_lane new_lane 0 (limits_at 1000))) }
    ensures unlimited { LeadsTo filler_rules start until_unlimited (Ends (finish used_lane new_lane 0 no_limits)) }
    ensures limited { LeadsTo filler_rules start until_limited (Ends (finish used_lane new_lane 0 (limits_at 1000))) }
    ensures reset { LeadsTo filler_rules start until_reset (Ends start) }
    ensures second { LeadsTo filler_rules start with_second (Ends (finish waiting_lane used_lane 7 (limits_at 0))) }
{}
