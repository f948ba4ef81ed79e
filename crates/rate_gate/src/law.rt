// What holds of every gate.
ghost use Rattle.std.specs.Prelude.{◌≡◌, List, Option};
ghost use Rattle.token_bucket.specs.Allowance.{Start, Need};
ghost use Rattle.token_bucket.specs.Kept.{Kept};
ghost use Rattle.token_bucket.specs.Window.{with_needs};
ghost use Rattle.rate_gate.specs.Gate.{Buckets};
ghost use Rattle.rate_gate.specs.Saved.{HaveSameRates, gate_at, gate_saved};
ghost use Rattle.rate_gate.specs.Lives.{HasLife, HasBound, Which, GateEvent, MayCome};
ghost use Rattle.rate_gate.specs.Lives.{bucket_of, bucket_put, gate_after, needs_since};

/// Requests that a gate takes, and among them buckets that are replaced and gates that go on from what was saved: what passed
/// since a bucket came to the gate goes on with each life that it had. What passes in any window of a life is bounded.
pub fn lives_are_bounded()
    ensures life { (which : Which) (gate : Buckets) (events : List GateEvent) (start : Start) (needs : List Need) →
        MayCome gate events → HasLife (bucket_put which gate events) start needs →
        HasLife (bucket_of which (gate_after gate events)) start (with_needs start needs (needs_since which events)) }
    ensures bound { (bucket : Option Kept) (start : Start) (needs : List Need) → HasLife bucket start needs →
        HasBound bucket start needs }
{}

/// A gate of the same buckets, as new or at any moment, goes on from the saved form as the gate that made it.
pub fn loads_as_it_was()
    ensures { (gate other : Buckets) → HaveSameRates other gate → gate_at other (gate_saved gate) ≡ gate }
{}
