// What a crash leaves of a file behind a gate.
ghost use Rattle.std.specs.Prelude.{◌≡◌, ◌≢◌, ◌≤◌, ◌⊎◌, ◌++◌, ◌∷◌, [], ℕ, List, Some, length};
ghost use Rattle.gate_file.specs.Pairs.{PairLeaves, Target, pair_calls, text_of};
ghost use Rattle.gate_file.specs.Stages.{AllInside, IsLeft, IsSettled, Moment, calls_of, text_after};
ghost use Rattle.vm_outside.specs.Calls.{FileCall};
ghost use Rattle.vm_outside.specs.Crashes.{Disk, Images};
ghost use Rattle.gate_file.specs.Gate.{fill_calls, open_calls};
ghost use Rattle.gate_file.specs.Moments.{AreBehind, AsBefore, IsShut, LeftInside};

/// At any moment of the calls that fill a file it is as it might have been before, or absent, or shut. At any moment
/// of all calls it may also be whole, and after them it is.
pub fn any_moment()
    ensures filling { (before : List FileCall) (name rest : List ℕ) (writes : List (ℕ × List ℕ)) (header : ℕ)
        (disk : Disk) → 2 ≤ header → AreBehind writes → LeftInside before (fill_calls name writes rest) disk →
        AsBefore before name disk ⊎ IsShut header (disk name) }
    ensures opening { (before : List FileCall) (name rest : List ℕ) (writes : List (ℕ × List ℕ)) (header : ℕ)
        (disk : Disk) → 2 ≤ header → AreBehind writes → LeftInside before (fill_calls name writes rest ++ open_calls name rest) disk →
        AsBefore before name disk ⊎ IsShut header (disk name) ⊎ (disk name ≡ Some (1 ∷ rest)) }
    ensures after { (before : List FileCall) (name rest : List ℕ) (writes : List (ℕ × List ℕ)) (disk : Disk) →
        Images (before ++ (fill_calls name writes rest ++ open_calls name rest)) disk → disk name ≡ Some (1 ∷ rest) }
{}

/// A file whose text is settled is written in stages, each of which ends with a sync. At any moment it is the text of a stage's
/// beginning with anything in the places that the stage writes; after all of them it is the last text, and is settled again.
/// No other file changes.
pub fn any_stage()
    ensures inside { (before : List FileCall) (name text : List ℕ) (stages : List (List (ℕ × List ℕ))) (disk : Disk) →
        IsSettled before name text → AllInside (length text) stages → Moment before (calls_of name stages text) disk →
        (left : List ℕ) × (disk name ≡ Some left) × IsLeft stages text left }
    ensures others { (before : List FileCall) (name text other : List ℕ) (stages : List (List (ℕ × List ℕ))) (disk : Disk) →
        other ≢ name → Moment before (calls_of name stages text) disk →
        (old : Disk) × Images before old × (disk other ≡ old other) }
    ensures after { (before : List FileCall) (name text : List ℕ) (stages : List (List (ℕ × List ℕ))) →
        IsSettled before name text → IsSettled (before ++ calls_of name stages text) name (text_after stages text) }
{}

/// At any moment of the calls that make two files whole behind their gates each is as it might have been before, absent, shut
/// or whole; whole only where both have had their second sync, and the second only where the first is. After the last call
/// both are.
pub fn any_pair()
    ensures inside { (before : List FileCall) (memory state : Target) (disk : Disk) → memory.name ≢ state.name →
        AreBehind memory.writes → AreBehind state.writes → (moment : Moment before (pair_calls memory state) disk) →
        PairLeaves before memory state moment.done disk }
    ensures after { (before : List FileCall) (memory state : Target) (disk : Disk) → memory.name ≢ state.name →
        Images (before ++ pair_calls memory state) disk →
        (disk memory.name ≡ Some (text_of memory)) × (disk state.name ≡ Some (text_of state)) }
{}
