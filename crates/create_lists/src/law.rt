// What holds of files that agree with a list of creates.
ghost use Rattle.std.specs.Prelude.{◌≡◌, ◌⊎◌, ◌∷◌, List, Some, Ok, Err, Result, ℕ};
ghost use Rattle.std.specs.FinMap.{get};
ghost use Rattle.vm_types.specs.Saved.{Saved};
ghost use Rattle.vm_types.specs.declared.identity.Identity.{Identity};
ghost use Rattle.refusals.specs.declared.refusal.Refusal.TheVariants as refusal;
ghost use Rattle.vm_outside.specs.Calls.{FileCall};
ghost use Rattle.vm_outside.specs.Crashes.{Disk, Images};
ghost use Rattle.vm_outside.specs.Known.{FilesKnown};
ghost use Rattle.gate_file.specs.Pairs.{IsCompleted, PairLeaves, Target};
ghost use Rattle.gate_file.specs.Stages.{LeftMeanwhile};
ghost use Rattle.api_calls.specs.declared.call.SnapshotFiles.{SnapshotFiles};
ghost use Rattle.snapshot_merge.specs.declared.error.RebaseError.{RebaseError};
ghost use Rattle.snapshot_merge.specs.Rebasing.{Rebases};
ghost use Rattle.snapshot_merge.specs.Stops.{IsUnfinished};
ghost use Rattle.snap_state.specs.declared.copy.StateCopy.{StateCopy};
ghost use Rattle.flat_snapshot.specs.Found.{Snapshot, found, state_found};
ghost use Rattle.create_lists.specs.Listed.{AgreeAll, Agrees, AreCreates, AreFilesOf, Create, HoldBytes, HoldsBytes, IsAmong, snapshot_of};

/// Files that agree with a list of creates agree with it at any moment of a merge, and of a create, whose own joins the list
/// once it is completed. What loads of such files is what one create of the list made. A memory file into which a merge is
/// unfinished isn't loaded: behind a state file that is one, the load is refused with 26.
///
/// `merges` takes what `snapshot_merge::rebase` ensures, and `creates` what `snap_writer::create` ensures of a stop, over
/// any files. A load changes no file (`snap_restore::find`), so it has no other moment.
pub fn any_files()
    ensures merges { (creates : List Create) (base diff : List ℕ) (result : Result (Unit {0}) RebaseError) (old new : FilesKnown)
        (disk : Disk) → AreCreates creates → HoldBytes old.calls → AgreeAll creates old.calls →
        Images old.calls (λ name. get old.saved name) → Rebases base diff result old new →
        LeftMeanwhile old.calls new.calls disk → Agrees creates disk × HoldsBytes disk }
    ensures creates { (creates : List Create) (c : Create) (before done : List FileCall) (memory state : Target) (disk : Disk) →
        AreFilesOf c memory state → AgreeAll creates before → PairLeaves before memory state done disk →
        Agrees creates disk ⊎ IsCompleted memory state done × Agrees (c ∷ creates) disk }
    ensures loads { (creates : List Create) (calls : List FileCall) (saved : Saved) (files : SnapshotFiles) (it : Snapshot) →
        AreCreates creates → HoldBytes calls → AgreeAll creates calls → Images calls (λ name. get saved name) →
        found saved files ≡ Ok it → (c : Create) × (IsAmong c creates × (it ≡ snapshot_of c)) }
    ensures unfinished { (saved : Saved) (files : SnapshotFiles) (text : List ℕ) (state : Identity × StateCopy) →
        state_found (get saved files.snapshot_path) ≡ Ok state → get saved files.mem_file_path ≡ Some text →
        IsUnfinished text → found saved files ≡ Err refusal.MergeUnfinished }
{}
