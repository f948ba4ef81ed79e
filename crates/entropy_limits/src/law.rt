// What holds of the limits of an entropy device, by what holds of every gate.
ghost use Rattle.std.specs.Prelude.{◌≡◌, List, []};
ghost use Rattle.device_trace.specs.Script.{Script, Ends};
ghost use Rattle.device_trace.specs.States.{LeadsTo};
ghost use Rattle.device_trace.specs.Traces.{Item};
ghost use Rattle.token_bucket.specs.Allowance.{Need, Start};
ghost use Rattle.token_bucket.specs.Window.{with_needs};
ghost use Rattle.rate_gate.specs.Lives.{HasBound, HasLife, MayCome, Which, bucket_of, bucket_put, gate_after, needs_since};
ghost use Rattle.queue_device.specs.Service.{Queued};
ghost use Rattle.entropy_device.specs.declared.kind.EntropyChange.{EntropyChange};
ghost use Rattle.entropy_device.specs.Entropy.{Entropy, entropy_rules};
ghost use Rattle.entropy_limits.specs.Limits.{gate_events, limits_of};

use rate_gate::lives_are_bounded;

/// What comes to the gate of an entropy device by its trace, chains that pass (VIRTIO 1.2, 5.4.6), is a life of its buckets: each
/// chain was one that the gate takes, by the bytes that it is filled with and as one operation, and what the device keeps is what
/// they leave. So what passes of either bucket in any window is bounded, whatever comes.
pub fn entropy_is_limited()
    ensures life { (start : Queued Entropy) (items : List (Item EntropyChange)) (left : Script (Queued Entropy)) →
        LeadsTo entropy_rules start items left →
        MayCome start.own.limits (gate_events (Ends start) items [])
        × (gate_after start.own.limits (gate_events (Ends start) items []) ≡ limits_of left) }
    ensures bound { (which : Which) (start : Queued Entropy) (items : List (Item EntropyChange))
        (left : Script (Queued Entropy)) (first : Start) (needs : List Need) → LeadsTo entropy_rules start items left →
        HasLife (bucket_put which start.own.limits (gate_events (Ends start) items [])) first needs →
        HasBound (bucket_of which (limits_of left)) first
        (with_needs first needs (needs_since which (gate_events (Ends start) items []))) }
{
    lives_are_bounded();
}
