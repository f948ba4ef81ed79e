// What the merges of a run leave, and what machines show that are alike.
ghost use Rattle.std.specs.Prelude.{◌≡◌, ◌≤◌, ◌+◌, ◌*◌, [], List, ℕ, Some, false, length, map};
ghost use Rattle.std.specs.FinMap.{get};
ghost use Rattle.std.specs.Int.{to_le_bytes, w64};
ghost use Rattle.script_words.specs.Numbers.{word_text};
ghost use Rattle.script_text.specs.Output.{memory_line, register_line};
ghost use Rattle.vm_types.specs.Saved.{Saved};
ghost use Rattle.vm_types.specs.declared.ids.ActorId.TheVariants.{Timer};
ghost use Rattle.api_calls.specs.declared.call.SnapshotLoad.{SnapshotLoad};
ghost use Rattle.api_calls.specs.declared.call.SnapshotType.TheVariants as snapshot;
ghost use Rattle.api_calls.specs.declared.call.ApiCall.TheVariants as call;
ghost use Rattle.guest_memory.specs.Reserved.{hart_limit};
ghost use Rattle.snap_diff.specs.Copies.{DiffCopy, JoinAll, MemoryCopy, overlaid_all};
ghost use Rattle.snapshot_merge.specs.InOrder.{AreDiffFiles, MergeAll};
ghost use Rattle.snapshot_merge.specs.Memories.{IsMemoryFile};
ghost use Rattle.snapshot_merge.specs.Merges.{open_slots};
ghost use Rattle.flat_guest.specs.Guest.{Guest, unwritten};
ghost use Rattle.flat_guest.specs.Same.{AreAlike};
ghost use Rattle.flat_guest.specs.Sound.{IsSound};
ghost use Rattle.flat_machine.specs.Machine.{Machine};
ghost use Rattle.flat_machine.specs.Requests.{Leaves};
ghost use Rattle.snapshot_chain.specs.Chains.{DiffsLead, IsSaving, Saving, memory_text, state_text};
ghost use Rattle.load_run.specs.Line.{Shows, number_said, said};
ghost use Rattle.load_run.specs.Merging.{diffs_in, memory_name, merged};

use flat_snapshot::goes_on_alike;
use hart_trace::hart_follows;
use snapshot_chain::merged_then_load;
use snapshot_merge::merged_in_order;

/// Where the memory file is that of a copy, and the diffs of the rounds are each of what the ones before it make of that, the
/// merged file is that of the copy overlaid with all of them, in order. A slot is to be left for each.
pub fn merged_is_overlaid()
    ensures { (rounds : ℕ) (saved : Saved) (memory : List ℕ) (files : List (List ℕ)) (m : MemoryCopy)
        (diffs : List DiffCopy) (is : IsMemoryFile memory m) →
        get saved memory_name ≡ Some memory → diffs_in rounds saved ≡ map (λ file. Some file) files →
        AreDiffFiles files diffs → JoinAll m diffs → open_slots is.head.slots + length diffs ≤ 100 →
        (last : List ℕ) × (get (merged rounds saved) memory_name ≡ Some last) × IsMemoryFile last (overlaid_all m diffs) }
{
    merged_in_order();
}

/// Machines whose guests are alike show the same words. So does the guest that goes on from a snapshot with the one that was
/// saved (`flat_snapshot::goes_on_alike`).
pub fn alike_show_alike()
    ensures { (g h : Guest) (m n : Machine) (first second : List ℕ) → AreAlike g h → m.guest ≡ Some g → n.guest ≡ Some h →
        Shows m first → Shows n second → first ≡ second }
{
    hart_follows();
}

/// Where the diffs of a run are those of creates, each since the one before, the machine that loads what their merges leave
/// shows what the machine of the last create shows: one whose guest is still as that create left it.
pub fn restored_shows_alike()
    ensures { (first last : Saving) (savings : List Saving) (base merged : List ℕ) (files : List (List ℕ))
        (k p m : Machine) (load : SnapshotLoad) (own other : List ℕ) →
        IsSaving snapshot.Full first → DiffsLead first savings last → IsSaving snapshot.Diff last → length savings ≤ 100 →
        memory_text first ≡ Some base → map (λ s. memory_text s) savings ≡ map (λ file. Some file) files →
        MergeAll base files merged →
        get k.saved load.files.mem_file_path ≡ Some merged → get k.saved load.files.snapshot_path ≡ state_text last →
        Leaves k (call.LoadSnapshot load) p →
        IsSound last.guest → last.guest.board.off ≡ false → last.guest.steps Timer ≡ [] →
        length last.guest.memory.reserved ≡ hart_limit * last.copy.pages →
        m.guest ≡ Some (unwritten last.guest) → Shows m own → Shows p other → own ≡ other }
{
    merged_then_load();
    goes_on_alike();
    hart_follows();
}

/// A register is said by its sixteen digits, and a word of 8 bytes, lowest byte first in memory, by the sixteen of the number.
pub fn numbers_said()
    ensures register { (word : ℕ) → said (register_line word) ≡ word_text word }
    ensures memory { (word : ℕ) → number_said (memory_line (to_le_bytes w64 word)) ≡ word_text word }
{}
