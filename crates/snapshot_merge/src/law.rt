// What a merge makes of its base.
ghost use Rattle.std.specs.Prelude.{◌≡◌, ◌≢◌, ◌<◌, ◌≤◌, ◌+◌, ◌++◌, List, ℕ, Some, Ok, Err, length, slice_get};
ghost use Rattle.refusals.specs.declared.refusal.Refusal.TheVariants as refusal;
ghost use Rattle.snap_memory.specs.declared.header.MemHeader.{MemHeader};
ghost use Rattle.snap_memory.specs.declared.slot.Slot.{Slot};
ghost use Rattle.snap_diff.specs.Copies.{DiffCopy, JoinAll, Joins, MemoryCopy, overlaid, overlaid_all};
ghost use Rattle.snap_diff.specs.Diffs.{IsDiffFile};
ghost use Rattle.vm_outside.specs.Calls.{FileCall};
ghost use Rattle.vm_outside.specs.Crashes.{Disk, Images};
ghost use Rattle.vm_outside.specs.Known.{FilesKnown};
ghost use Rattle.gate_file.specs.Stages.{IsSettled, Moment, text_after};
ghost use Rattle.snapshot_merge.specs.Calls.{stages};
ghost use Rattle.snapshot_merge.specs.InOrder.{AreDiffFiles, MergeAll};
ghost use Rattle.snapshot_merge.specs.Memories.{Holds, IsMemoryFile};
ghost use Rattle.snapshot_merge.specs.Merges.{open_slots};
ghost use Rattle.snapshot_merge.specs.Plans.{planned};
ghost use Rattle.snapshot_merge.specs.Stops.{Begins, IsMerged, Restarts};
ghost use Rattle.snapshot_merge.specs.declared.merge.Merge.{Merge};

/// A diff that is of the base's copy is merged where a slot is left, and what its stages leave is a file of the copy
/// that it makes. Merges that were cut off leave the same from where they are gone on with.
pub fn merged()
    ensures begun { (given file : List ℕ) (m : MemoryCopy) (d : DiffCopy) (is : IsMemoryFile given m) →
        IsDiffFile file d → Joins m d → open_slots is.head.slots < 100 →
        planned (Some given) (Some file) ≡ Ok (record { diff = d; merge = Merge.Begin (open_slots is.head.slots) }) }
    ensures whole { (given file : List ℕ) (m : MemoryCopy) (d : DiffCopy) (is : IsMemoryFile given m) →
        IsDiffFile file d → Joins m d → open_slots is.head.slots < 100 →
        IsMemoryFile (text_after (stages (Merge.Begin (open_slots is.head.slots)) d) given) (overlaid m d) }
    ensures gone_on { (given file : List ℕ) (head : MemHeader) (m : MemoryCopy) (d : DiffCopy) (slot : Slot) →
        Holds given head m → IsDiffFile file d → d.pages ≡ m.pages → slice_get head.slots (open_slots head.slots) ≡ Some slot →
        slot.identity ≡ d.identity →
        IsMemoryFile (text_after (stages (Merge.GoOn (open_slots head.slots)) d) given) (overlaid m d) }
    ensures again { (given file : List ℕ) (m : MemoryCopy) (d : DiffCopy) → IsMemoryFile given m → IsDiffFile file d →
        d.pages ≡ m.pages → d.parent ≢ m.identity → planned (Some given) (Some file) ≡ Err refusal.ParentDiffers }
{}

/// Diffs that are merged in order, each of the copy that the ones before it make, leave a file of the copy that all make.
/// None of them is refused, where a slot is left for each.
pub fn merged_in_order()
    ensures some { (files : List (List ℕ)) (diffs : List DiffCopy) (given : List ℕ) (m : MemoryCopy)
        (is : IsMemoryFile given m) → AreDiffFiles files diffs → JoinAll m diffs →
        open_slots is.head.slots + length diffs ≤ 100 → (last : List ℕ) × MergeAll given files last }
    ensures last { (files : List (List ℕ)) (diffs : List DiffCopy) (given last : List ℕ) (m : MemoryCopy)
        (is : IsMemoryFile given m) → AreDiffFiles files diffs → JoinAll m diffs →
        open_slots is.head.slots + length diffs ≤ 100 → MergeAll given files last →
        IsMemoryFile last (overlaid_all m diffs) }
{}

/// What merges that are stopped, and merges one after another, begin with.
///
/// A stopped merge is begun again on what a power cut at some moment left, or on what a killed process or a failed call left: files
/// that tell a front of its calls. A merge that is done leaves what the merge of the next diff begins with, where a slot is left.
pub fn stops()
    ensures cut { (base diff : List ℕ) (before calls next : List FileCall) (left : Disk) → Moment before calls left →
        ((disk : Disk) → Images next disk → (disk base ≡ left base) × (disk diff ≡ left diff)) →
        Restarts base diff before calls next }
    ensures failed { (base diff : List ℕ) (before calls done rest : List FileCall) → done ++ rest ≡ calls →
        Restarts base diff before calls (before ++ done) }
    ensures next { (base diff other : List ℕ) (m : MemoryCopy) (d : DiffCopy) (file text : List ℕ) (now : FilesKnown)
        (is : IsMerged base diff m d file now) → open_slots is.merged.head.slots < 100 → IsSettled now.calls other text →
        Begins base other (overlaid m d) text now.calls }
{}
