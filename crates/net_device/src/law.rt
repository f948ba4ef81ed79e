// What holds of a network device, by what holds of every kind of device with queues.
ghost use Rattle.std.specs.Prelude.{◌≡◌, ◌≤◌, ◌^◌, ℕ, true, List};
ghost use Rattle.vm_types.specs.declared.reply.Reply.{Reply};
ghost use Rattle.vm_types.specs.Fits.{Fits};
ghost use Rattle.device_trace.specs.Script.{Ends, Script};
ghost use Rattle.device_trace.specs.States.{LeadsTo, changed_at, stepped, wants};
ghost use Rattle.device_trace.specs.Traces.{Item};
ghost use Rattle.rate_gate.specs.Gate.{Buckets};
ghost use Rattle.queue_device.specs.declared.lanes.Rounds.{Rounds};
ghost use Rattle.queue_device.specs.declared.phase.Phase.{Phase};
ghost use Rattle.queue_device.specs.Confined.{IsConfined, IsDeviceAct};
ghost use Rattle.queue_device.specs.Kept.{is_state};
ghost use Rattle.queue_device.specs.Lanes.{new_lane};
ghost use Rattle.queue_device.specs.Left.{left_at, queued};
ghost use Rattle.queue_device.specs.Service.{Queued};
ghost use Rattle.queue_device.specs.Timing.{is_timed_left};
ghost use Rattle.net_device.specs.declared.kind.NetChange.{NetChange};
ghost use Rattle.net_device.specs.Net.{Net, is_link_call, net, net_rules, new_net};
ghost use Rattle.net_device.specs.Work.{AtWork, NetKept, hand_of, is_work};
ghost use Rattle.net_device.specs.Sequences.{dropped, finish, limits_at, lost, no_limits, received, start, too_short, transmitted};
ghost use Rattle.net_device.specs.Sequences.{used_lane};

use crate::kind::NetKind;
use queue_device::{queue_goes_on, queue_kept, queue_one, queue_stays};

/// Wherever the items of a network device lead, it wants an act of its own, on the link alone of host objects, or guest time, and
/// in a guest of fewer than 2^32 pages no byte outside RAM.
pub fn net_stays()
    ensures { (port pages : ℕ) (rx tx : Buckets) (items : List (Item NetChange)) (left : Script (Queued Net)) →
        LeadsTo net_rules (new_net port pages rx tx) items left →
        IsDeviceAct (is_timed_left net left) is_link_call port pages (wants net_rules left) }
{
    queue_stays::<NetKind>();
}

/// What is left of a network device in a state that it may be in is confined, and tells its data.
pub fn net_kept()
    ensures stays { (p : Phase) (r : Rounds) (e : Net) (g : AtWork) →
        is_state net true is_work p r g ≡ true →
        IsConfined net is_link_call r.port r.pages (left_at net p (hand_of g) (queued r e)) }
    ensures one { (p q : Phase) (r t : Rounds) (e f : Net) (g h : AtWork) →
        is_state net true is_work p r g ≡ true → is_state net true is_work q t h ≡ true →
        left_at net p (hand_of g) (queued r e) ≡ left_at net q (hand_of h) (queued t f) → queued r e ≡ queued t f }
{
    queue_kept::<NetKind>();
    queue_one::<NetKind>();
}

/// What is kept of a network device leads to what is kept of it, in a guest of at most 2^20 pages: at its start, behind each
/// fitting reply, and behind each change.
pub fn net_goes_on()
    ensures begins { (port pages : ℕ) (rx tx : Buckets) → pages ≤ 2 ^ 20 →
        NetKept port pages (Ends (new_net port pages rx tx)) }
    ensures reply { (port pages : ℕ) (t : Script (Queued Net)) (reply : Reply) → pages ≤ 2 ^ 20 →
        NetKept port pages t → Fits (wants net_rules t) reply → NetKept port pages (stepped net_rules t reply) }
    ensures change { (port pages : ℕ) (t : Script (Queued Net)) (c : NetChange) → pages ≤ 2 ^ 20 →
        NetKept port pages t → NetKept port pages (changed_at net_rules c t) }
{
    queue_goes_on::<NetKind>();
}

/// A frame of the link goes into the next chain behind its header. One for which the chain is too short is dropped, and one of
/// which a piece fails is gone: neither waits for its limit. A frame that the driver sends waits until its bytes have flowed in,
/// and goes out in pieces; one of another length is dropped at once.
pub fn net_sequences()
    ensures received { LeadsTo net_rules (start no_limits no_limits) received
        (Ends (finish used_lane new_lane no_limits no_limits)) }
    ensures too_short { LeadsTo net_rules (start (limits_at 0) no_limits) too_short
        (Ends (finish used_lane new_lane (limits_at 0) no_limits)) }
    ensures lost { LeadsTo net_rules (start (limits_at 0) no_limits) lost
        (Ends (finish new_lane new_lane (limits_at 0) no_limits)) }
    ensures transmitted { LeadsTo net_rules (start no_limits (limits_at 0)) transmitted
        (Ends (finish new_lane used_lane no_limits (limits_at 1000))) }
    ensures dropped { LeadsTo net_rules (start no_limits (limits_at 0)) dropped
        (Ends (finish new_lane used_lane no_limits (limits_at 0))) }
{}
