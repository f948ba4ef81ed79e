// What holds of a balloon, by what holds of every kind of device with queues.
ghost use Rattle.std.specs.Prelude.{◌≡◌, ◌<◌, ◌≤◌, ◌^◌, ℕ, true, List};
ghost use Rattle.vm_types.specs.declared.reply.Reply.{Reply};
ghost use Rattle.vm_types.specs.Fits.{Fits};
ghost use Rattle.device_trace.specs.States.{LeadsTo, changed_at, stepped, wants};
ghost use Rattle.device_trace.specs.Traces.{Item};
ghost use Rattle.device_trace.specs.Script.{Ends, Script};
ghost use Rattle.queue_device.specs.declared.lanes.Rounds.{Rounds};
ghost use Rattle.queue_device.specs.declared.phase.Phase.{Phase};
ghost use Rattle.queue_device.specs.Confined.{IsConfined, IsDeviceAct};
ghost use Rattle.queue_device.specs.Kept.{is_state};
ghost use Rattle.queue_device.specs.Lanes.{new_lane};
ghost use Rattle.queue_device.specs.Left.{left_at, queued};
ghost use Rattle.queue_device.specs.Service.{Queued};
ghost use Rattle.queue_device.specs.Timing.{is_timed_left};
ghost use Rattle.balloon_device.specs.declared.kind.BalloonChange.{BalloonChange};
ghost use Rattle.balloon_device.specs.declared.kind.Stage.{Stage};
ghost use Rattle.balloon_device.specs.Balloon.{Balloon, balloon, balloon_rules, new_balloon, no_call};
ghost use Rattle.balloon_device.specs.Work.{BalloonKept, hand_of, is_work};
ghost use Rattle.balloon_device.specs.Statistics.{no_statistics};
ghost use Rattle.balloon_device.specs.Sequences.{broken_lane, broken_list, finish, none_inflated, one_deflated, one_inflated};
ghost use Rattle.balloon_device.specs.Sequences.{own_of, split_inflated, start, total_memory, until_its_time, until_sooner};
ghost use Rattle.balloon_device.specs.Sequences.{used_lane};

use crate::kind::BalloonKind;
use queue_device::{queue_goes_on, queue_kept, queue_one, queue_stays};

/// Wherever the items of a balloon lead, it wants an act of its own, or guest time, and in a guest of fewer than 2^32 pages no byte
/// outside RAM: the pages that it zeroes lie in RAM too, whatever numbers a driver lists.
pub fn balloon_stays()
    ensures { (port pages interval : ℕ) (items : List (Item BalloonChange)) (left : Script (Queued Balloon)) →
        LeadsTo balloon_rules (new_balloon port pages interval) items left →
        IsDeviceAct (is_timed_left balloon left) no_call port pages (wants balloon_rules left) }
{
    queue_stays::<BalloonKind>();
}

/// What is left of a balloon in a state that it may be in is confined, and tells its data.
pub fn balloon_kept()
    ensures stays { (p : Phase) (r : Rounds) (e : Balloon) (g : Stage) →
        is_state balloon true is_work p r g ≡ true →
        IsConfined balloon no_call r.port r.pages (left_at balloon p (hand_of g) (queued r e)) }
    ensures one { (p q : Phase) (r t : Rounds) (e f : Balloon) (g h : Stage) →
        is_state balloon true is_work p r g ≡ true → is_state balloon true is_work q t h ≡ true →
        left_at balloon p (hand_of g) (queued r e) ≡ left_at balloon q (hand_of h) (queued t f) → queued r e ≡ queued t f }
{
    queue_kept::<BalloonKind>();
    queue_one::<BalloonKind>();
}

/// What is kept of a balloon leads to what is kept of it, in a guest of at most 2^20 pages: at its start, behind each fitting
/// reply, and behind each change.
pub fn balloon_goes_on()
    ensures begins { (port pages interval : ℕ) → pages ≤ 2 ^ 20 →
        BalloonKept port pages (Ends (new_balloon port pages interval)) }
    ensures reply { (port pages : ℕ) (t : Script (Queued Balloon)) (reply : Reply) → pages ≤ 2 ^ 20 →
        BalloonKept port pages t → Fits (wants balloon_rules t) reply → BalloonKept port pages (stepped balloon_rules t reply) }
    ensures change { (port pages : ℕ) (t : Script (Queued Balloon)) (c : BalloonChange) → pages ≤ 2 ^ 20 →
        BalloonKept port pages t → BalloonKept port pages (changed_at balloon_rules c t) }
{
    queue_goes_on::<BalloonKind>();
}

/// A page that is listed is zeroed, by 64 writes; one whose number ends in a later piece is zeroed behind that piece; one outside
/// RAM is skipped; and a list that ends inside a number is broken, and not read. Deflating gives the chain back. A chain of
/// statistics is kept until its interval is over, or one that the API sets meanwhile, and then it is read and given back.
pub fn balloon_does()
    ensures one { LeadsTo balloon_rules start one_inflated
        (Ends (finish used_lane new_lane new_lane (own_of 2 0 no_statistics))) }
    ensures split { LeadsTo balloon_rules start split_inflated
        (Ends (finish used_lane new_lane new_lane (own_of 2 0 no_statistics))) }
    ensures outside { LeadsTo balloon_rules start none_inflated
        (Ends (finish used_lane new_lane new_lane (own_of 2 0 no_statistics))) }
    ensures broken { LeadsTo balloon_rules start broken_list
        (Ends (finish broken_lane new_lane new_lane (own_of 2 0 no_statistics))) }
    ensures deflated { LeadsTo balloon_rules start one_deflated
        (Ends (finish new_lane used_lane new_lane (own_of 2 0 no_statistics))) }
    ensures time { LeadsTo balloon_rules start until_its_time
        (Ends (finish new_lane new_lane used_lane (own_of 2 2000000000 total_memory))) }
    ensures sooner { LeadsTo balloon_rules start until_sooner
        (Ends (finish new_lane new_lane used_lane (own_of 1 1000000000 total_memory))) }
{}
