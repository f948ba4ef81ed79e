// What holds of pieces: which bytes they are, and that none is outside RAM.
ghost use Rattle.std.specs.Prelude.{ℕ, ◌≡◌, ◌<◌, ◌≤◌, ◌+◌, ◌%◌, ◌^◌, ◌++◌, List, []};
ghost use Rattle.device_trace.specs.Keeps.{Keeps};
ghost use Rattle.vq_split.specs.declared.queue.Part.{Part};
ghost use Rattle.vq_split.specs.declared.queue.Queue.{Queue};
ghost use Rattle.vq_split.specs.Inside.{AreInside, IsInside};
ghost use Rattle.vq_split.specs.Walking.{IsSound};
ghost use Rattle.dev_core.specs.Bytes.{addresses, addresses_from, AreParts};
ghost use Rattle.dev_core.specs.Inside.{Any};
ghost use Rattle.dev_core.specs.Pieces.{Got, collect_all, past, place, put_all, room};
ghost use Rattle.dev_core.specs.Returns.{broken, returned};

/// A piece is the next bytes of the parts, and what is left are the others, in their order and each once. It has at
/// most 64 bytes, of one page, and there is one where a part is left.
pub fn pieces_follow()
    ensures piece { (parts : List Part) (n : ℕ) → AreParts parts → n ≤ room parts →
        addresses parts ≡ addresses_from (place parts) n ++ addresses (past n parts) }
    ensures rest { (parts : List Part) (n : ℕ) → AreParts parts → n ≤ room parts → AreParts (past n parts) }
    ensures end { (parts : List Part) → AreParts parts → room parts ≡ 0 → parts ≡ [] }
    ensures most { (parts : List Part) → room parts ≤ 64 }
    ensures page { (parts : List Part) → place parts % 4096 + room parts ≤ 4096 }
{}

/// What is read of parts inside RAM, and written to them, is inside RAM, and so is what is left of them; and giving a
/// chain of a sound queue back.
pub fn pieces_stay()
    ensures past { (pages n : ℕ) (parts : List Part) → pages < 2 ^ 32 → AreInside pages parts → n ≤ room parts →
        AreInside pages (past n parts) }
    ensures collect { (pages missing : ℕ) (bytes : List ℕ) (parts : List Part) → pages < 2 ^ 32 →
        AreInside pages parts →
        Keeps (IsInside pages) (λ (got : Got). AreInside pages got.parts) (collect_all missing bytes parts) }
    ensures put { (pages : ℕ) (bytes : List ℕ) (parts : List Part) → pages < 2 ^ 32 → AreInside pages parts →
        Keeps (IsInside pages) (λ (left : List Part). AreInside pages left) (put_all bytes parts) }
    ensures returned { (port : ℕ) (q : Queue) (used head len : ℕ) → IsSound q →
        Keeps (IsInside q.pages) (Any {A = Unit {0}}) (returned port q used head len) }
    ensures broken { (pages port : ℕ) → Keeps (IsInside pages) (Any {A = Unit {0}}) (broken port) }
{}
