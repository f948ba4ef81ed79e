// No act on a page outside RAM.
ghost use Rattle.std.specs.Prelude.{ℕ, ◌≡◌, ◌<◌, ◌^◌, List, None, true};
ghost use Rattle.device_trace.specs.Keeps.{Keeps};
ghost use Rattle.vq_split.specs.declared.queue.Part.{Part};
ghost use Rattle.vq_split.specs.declared.queue.Queue.{Queue};
ghost use Rattle.vq_split.specs.Chain.{chain_walk, queue_flaw};
ghost use Rattle.vq_split.specs.Inside.{AreInside, IsInside, WalkInside};
ghost use Rattle.vq_split.specs.Kept.{IsWalking, are_inside, is_sound, is_walking};
ghost use Rattle.vq_split.specs.Walking.{IsSound, Walking, walk_left};

/// A queue whose own fields have no flaw is sound, and the walk of a sound queue's chain reads inside RAM alone, where
/// the parts of the chain lie too.
pub fn walk_stays()
    ensures sound { (q : Queue) → q.pages < 2 ^ 32 → queue_flaw q ≡ None → IsSound q }
    ensures walk { (q : Queue) (next : ℕ) → IsSound q →
        Keeps (IsInside q.pages) (WalkInside q.pages) (chain_walk q next) }
{}

/// The test of a walk is true exactly of those that there are, in a guest of less than 2^32 pages, and what is left of such
/// a one reads inside RAM alone too.
pub fn walk_kept()
    ensures walk { (w : Walking) → w.queue.pages < 2 ^ 32 → is_walking w ≡ true → IsWalking w }
    ensures test { (w : Walking) → IsWalking w → is_walking w ≡ true }
    ensures sound { (q : Queue) → q.pages < 2 ^ 32 → is_sound q ≡ true → IsSound q }
    ensures is_sound { (q : Queue) → IsSound q → is_sound q ≡ true }
    ensures inside { (pages : ℕ) (parts : List Part) → are_inside pages parts ≡ true → AreInside pages parts }
    ensures are_inside { (pages : ℕ) (parts : List Part) → AreInside pages parts → are_inside pages parts ≡ true }
    ensures left { (w : Walking) → IsWalking w → Keeps (IsInside w.queue.pages) (WalkInside w.queue.pages) (walk_left w) }
{}
