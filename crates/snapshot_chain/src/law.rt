// What holds of every chain of creates.
ghost use Rattle.std.specs.Prelude.{false, ◌≡◌, ◌≢◌, ◌≤◌, List, ℕ, IsTrue, Ok, Some, length, map};
ghost use Rattle.std.specs.FinMap.{get};
ghost use Rattle.vm_types.specs.Saved.{Saved};
ghost use Rattle.vm_types.specs.declared.identity.Identity.{Identity};
ghost use Rattle.http_stream.specs.declared.request.Next.{Next};
ghost use Rattle.api_calls.specs.declared.call.SnapshotCreate.{SnapshotCreate};
ghost use Rattle.api_calls.specs.declared.call.SnapshotFiles.{SnapshotFiles};
ghost use Rattle.api_calls.specs.declared.call.SnapshotLoad.{SnapshotLoad};
ghost use Rattle.api_calls.specs.declared.call.SnapshotType.TheVariants as snapshot;
ghost use Rattle.api_calls.specs.declared.call.SnapshotType.{SnapshotType};
ghost use Rattle.api_calls.specs.declared.call.ApiCall.TheVariants as call;
ghost use Rattle.file_format.specs.Identities.{identity, is_numbered};
ghost use Rattle.snap_diff.specs.Copies.{LeadBy};
ghost use Rattle.snap_diff.specs.Diffs.{IsDiffFile};
ghost use Rattle.snap_state.specs.declared.copy.StateCopy.{StateCopy};
ghost use Rattle.guest_devices.specs.declared.device.Device.{Device};
ghost use Rattle.responses.specs.Responses.{Response};
ghost use Rattle.snapshot_merge.specs.InOrder.{MergeAll};
ghost use Rattle.snapshot_merge.specs.Memories.{IsMemoryFile};
ghost use Rattle.flat_snapshot.specs.Files.{state_file};
ghost use Rattle.flat_snapshot.specs.Found.{found};
ghost use Rattle.flat_guest.specs.Changes.{reset_guest};
ghost use Rattle.flat_guest.specs.Guest.{Guest, unwritten};
ghost use Rattle.flat_guest.specs.Same.{AreAlike};
ghost use Rattle.flat_snapshot.specs.Carried.{carried_guest};
ghost use Rattle.flat_machine.specs.Machine.{Machine, is_off};
ghost use Rattle.flat_machine.specs.Items.{Talks};
ghost use Rattle.flat_machine.specs.Outcome.{Outcome};
ghost use Rattle.flat_machine.specs.Outcome.Outcome.{Answered};
ghost use Rattle.flat_machine.specs.Ready.{Ready};
ghost use Rattle.flat_machine.specs.Requests.{Leaves, RequestStep, allowed, carried, decided};
ghost use Rattle.snapshot_chain.specs.Chains.{
  DiffsLead,
  IsInside,
  IsSaving,
  Saving,
  diff_since,
  identity_of,
  memory_of,
  memory_text,
  snapshot_of,
  state_text,
  steps_of,
};

/// What a full create wrote under the name of its memory is a file of the memory that it found; what a create of a diff
/// wrote there is the file of its diff since the base, if that is a snapshot that files can name, and another. Under the
/// other name stands the state file of the guest's copy.
pub fn created_files()
    ensures full { (s : Saving) → IsSaving snapshot.Full s →
        (text : List ℕ) × (memory_text s ≡ Some text) × IsMemoryFile text (memory_of s) }
    ensures diff { (s : Saving) (parent : Identity) → IsSaving snapshot.Diff s → s.before.ids.base ≡ Some parent →
        identity.Fits parent → IsTrue (is_numbered parent) → parent ≢ identity_of s →
        (text : List ℕ) × (memory_text s ≡ Some text) × IsDiffFile text (diff_since parent s) }
    ensures state { (type : SnapshotType) (s : Saving) → IsSaving type s →
        state_text s ≡ Some (state_file (identity_of s) s.copy) }
{}

/// A create that a ready machine answers is one of a chain: the copy, with the devices as they were kept, is one that a state file
/// can have, its memory is all of its pages, and its two names differ. The guest is reset first, and so it is saved. If it is on, the
/// guest that goes on from the snapshot is alike with the one that was saved, as it went on.
pub fn answered_creates()
    ensures { (m n : Machine) (g : Guest) (given : Next) (it : SnapshotCreate) (kept : List Device) (said : List Response) →
        Ready m → m.guest ≡ Some g → allowed m given ≡ Ok (call.CreateSnapshot it) →
        RequestStep (Answered kept) given m said n →
        (copy : StateCopy) × (copy.devices ≡ kept)
        × IsSaving it.snapshot_type (record { asked = it; before = m; after = n; guest = reset_guest g; copy = copy })
        × (g.board.off ≡ false → AreAlike (unwritten (reset_guest g)) (carried_guest copy g.memory.bytes)) }
{}

/// A machine that is ready before an item is ready inside it, and so at each create of it. No request turns a guest off: where
/// it is on before an item, it is on inside the item too, and behind all that its bytes ask for.
pub fn on_inside()
    ensures ready { (m n : Machine) → IsInside m n → Ready m → Ready n }
    ensures on { (m n : Machine) → IsInside m n → is_off m ≡ false → is_off n ≡ false }
    ensures behind { (bytes : List ℕ) (outcomes : List Outcome) (m : Machine) (said : List Response) (n : Machine) →
        Talks bytes outcomes m said n → is_off m ≡ false → is_off n ≡ false }
{}

/// Creates of diffs, each since the one before, find memories of which each is the one before overlaid with its diff. Each
/// is of the machine that made the one before and went on, or of one that loaded that.
pub fn diffs_of_creates()
    ensures { (type : SnapshotType) (first last : Saving) (savings : List Saving) → IsSaving type first →
        DiffsLead first savings last → LeadBy (memory_of first) (steps_of first savings) (memory_of last) }
{}

/// The files of diffs, each since the one before, are merged in order into that of the full snapshot before them, as many
/// as it has slots for. What is left, wherever it lies, and the last create's state file are loaded as the machine of that
/// create: its guest, its configuration and its identity, and the bytes of all its pages. The load finds the snapshot, and so
/// where the machine allows it, it is answered, and not refused by its files. Each diff is of the machine that
/// made the snapshot before it and went on, or of one in any process that loaded that, merged so far. Of each create it is
/// asked that its memory is all of its pages, and that its names differ.
pub fn merged_then_load()
    ensures merges { (first last : Saving) (savings : List Saving) (base : List ℕ) (files : List (List ℕ)) →
        IsSaving snapshot.Full first → DiffsLead first savings last → length savings ≤ 100 →
        memory_text first ≡ Some base → map (λ s. memory_text s) savings ≡ map (λ file. Some file) files →
        (merged : List ℕ) × MergeAll base files merged }
    ensures loads { (first last : Saving) (savings : List Saving) (base merged : List ℕ) (files : List (List ℕ))
        (k p : Machine) (load : SnapshotLoad) →
        IsSaving snapshot.Full first → DiffsLead first savings last → length savings ≤ 100 →
        memory_text first ≡ Some base → map (λ s. memory_text s) savings ≡ map (λ file. Some file) files →
        MergeAll base files merged →
        get k.saved load.files.mem_file_path ≡ Some merged → get k.saved load.files.snapshot_path ≡ state_text last →
        Leaves k (call.LoadSnapshot load) p →
        p ≡ carried k load (snapshot_of last) }
    ensures finds { (first last : Saving) (savings : List Saving) (base merged : List ℕ) (files : List (List ℕ))
        (saved : Saved) (names : SnapshotFiles) →
        IsSaving snapshot.Full first → DiffsLead first savings last → length savings ≤ 100 →
        memory_text first ≡ Some base → map (λ s. memory_text s) savings ≡ map (λ file. Some file) files →
        MergeAll base files merged →
        get saved names.mem_file_path ≡ Some merged → get saved names.snapshot_path ≡ state_text last →
        found saved names ≡ Ok (snapshot_of last) }
    ensures answered { (first last : Saving) (savings : List Saving) (base merged : List ℕ) (files : List (List ℕ))
        (k : Machine) (given : Next) (load : SnapshotLoad) →
        IsSaving snapshot.Full first → DiffsLead first savings last → length savings ≤ 100 →
        memory_text first ≡ Some base → map (λ s. memory_text s) savings ≡ map (λ file. Some file) files →
        MergeAll base files merged →
        get k.saved load.files.mem_file_path ≡ Some merged → get k.saved load.files.snapshot_path ≡ state_text last →
        decided k given ≡ Ok (call.LoadSnapshot load) → allowed k given ≡ Ok (call.LoadSnapshot load) }
{}
