// What holds of a vsock device, by what holds of every kind of device with queues.
ghost use Rattle.std.specs.Prelude.{◌≡◌, ◌≤◌, ◌^◌, ℕ, true, false, List};
ghost use Rattle.vm_types.specs.declared.reply.Reply.{Reply};
ghost use Rattle.vm_types.specs.Fits.{Fits};
ghost use Rattle.device_trace.specs.States.{LeadsTo, changed_at, stepped, wants};
ghost use Rattle.device_trace.specs.Traces.{Item};
ghost use Rattle.device_trace.specs.Script.{Ends, Script};
ghost use Rattle.queue_device.specs.declared.lanes.Rounds.{Rounds};
ghost use Rattle.queue_device.specs.declared.phase.Phase.{Phase};
ghost use Rattle.queue_device.specs.Confined.{IsConfined, IsDeviceAct};
ghost use Rattle.queue_device.specs.Kept.{is_state};
ghost use Rattle.queue_device.specs.Lanes.{new_lane};
ghost use Rattle.queue_device.specs.Left.{left_at, queued};
ghost use Rattle.queue_device.specs.Service.{Queued};
ghost use Rattle.vsock_device.specs.declared.data.Vsock.{Vsock};
ghost use Rattle.vsock_device.specs.declared.data.VsockChange.{VsockChange};
ghost use Rattle.vsock_device.specs.declared.kind.Stage.{Stage};
ghost use Rattle.vsock_device.specs.Data.{new_data};
ghost use Rattle.vsock_device.specs.Vsock.{is_host_call, new_vsock, vsock, vsock_rules};
ghost use Rattle.vsock_device.specs.Work.{VsockKept, hand_of, is_work};
ghost use Rattle.vsock_device.specs.Sequences.{after_reset, connection, enough_credit, event_told, finish, guest_connects};
ghost use Rattle.vsock_device.specs.Sequences.{holding, host_connected, host_connects, reset_inside, start, too_little_credit};
ghost use Rattle.vsock_device.specs.Sequences.{used_lane, with_one};

use crate::kind::VsockKind;
use queue_device::{queue_goes_on, queue_kept, queue_one, queue_stays};

/// Wherever the items of a vsock device lead, it wants an act of its own, asks of host objects the vsock host alone and never for
/// guest time, and touches in a guest of fewer than 2^32 pages no byte outside RAM.
pub fn vsock_stays()
    ensures { (port pages guest_cid : ℕ) (items : List (Item VsockChange)) (left : Script (Queued Vsock)) →
        LeadsTo vsock_rules (new_vsock port pages guest_cid) items left →
        IsDeviceAct false is_host_call port pages (wants vsock_rules left) }
{
    queue_stays::<VsockKind>();
}

/// What is left of a vsock device in a state that it may be in is confined, and tells its data.
pub fn vsock_kept()
    ensures stays { (p : Phase) (r : Rounds) (e : Vsock) (g : Stage) →
        is_state vsock false is_work p r g ≡ true →
        IsConfined vsock is_host_call r.port r.pages (left_at vsock p (hand_of g) (queued r e)) }
    ensures one { (p q : Phase) (r t : Rounds) (e f : Vsock) (g h : Stage) →
        is_state vsock false is_work p r g ≡ true → is_state vsock false is_work q t h ≡ true →
        left_at vsock p (hand_of g) (queued r e) ≡ left_at vsock q (hand_of h) (queued t f) → queued r e ≡ queued t f }
{
    queue_kept::<VsockKind>();
    queue_one::<VsockKind>();
}

/// What is kept of a vsock device leads to what is kept of it, in a guest of at most 2^20 pages: at its start, behind each fitting
/// reply, and behind each reset of its connections.
pub fn vsock_goes_on()
    ensures begins { (port pages guest_cid : ℕ) → pages ≤ 2 ^ 20 →
        VsockKept port pages (Ends (new_vsock port pages guest_cid)) }
    ensures reply { (port pages : ℕ) (t : Script (Queued Vsock)) (reply : Reply) → pages ≤ 2 ^ 20 →
        VsockKept port pages t → Fits (wants vsock_rules t) reply → VsockKept port pages (stepped vsock_rules t reply) }
    ensures change { (port pages : ℕ) (t : Script (Queued Vsock)) (c : VsockChange) → pages ≤ 2 ^ 20 →
        VsockKept port pages t → VsockKept port pages (changed_at vsock_rules c t) }
{
    queue_goes_on::<VsockKind>();
}

/// A guest that asks for a connection has it once the host's port was dialled; a connection of the host asks the guest by a line,
/// and is told its port. Bytes of the host wait for credit: of 100 bytes that the guest has room for 37 are under way, and 64 go
/// on waiting; where 36 are, they are written. A reset of the connections is told by one event, in the first chain that is long
/// enough; and where it comes while a packet is sent on, that packet is answered by an RST.
pub fn vsock_does()
    ensures guest { LeadsTo vsock_rules (start (new_data 3)) guest_connects
        (Ends (finish (used_lane 1) (used_lane 1) new_lane (with_one (connection 99 0 65536 0)))) }
    ensures host { LeadsTo vsock_rules (start (new_data 3)) host_connects
        (Ends (finish (used_lane 1) (used_lane 1) new_lane host_connected)) }
    ensures waits { LeadsTo vsock_rules (start (holding 0)) too_little_credit
        (Ends (finish new_lane (used_lane 1) new_lane (holding 53))) }
    ensures goes { LeadsTo vsock_rules (start (holding 0)) enough_credit
        (Ends (finish (used_lane 1) (used_lane 1) new_lane (with_one (connection 99 154 100 54)))) }
    ensures event { LeadsTo vsock_rules (start (with_one (connection 99 0 65536 0))) event_told
        (Ends (finish new_lane new_lane (used_lane 2) (after_reset false))) }
    ensures inside { LeadsTo vsock_rules (start (with_one (connection 99 0 65536 0))) reset_inside
        (Ends (finish (used_lane 1) (used_lane 1) new_lane (after_reset true))) }
{}
