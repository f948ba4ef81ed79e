// What holds of every guest, and of every snapshot.
ghost use Rattle.std.specs.Prelude.{false, true, ◌≡◌, ◌≢◌, ◌≤◌, ◌*◌, ◌^◌, ◌⊎◌, ◌++◌, [], ℕ, Bool, List, IsTrue, IsErr, Ok, Err, Some, length};
ghost use Rattle.std.specs.FinMap.{get, insert};
ghost use Rattle.vm_types.specs.Saved.{Saved};
ghost use Rattle.vm_types.specs.declared.entry.Entry.{Entry};
ghost use Rattle.vm_types.specs.declared.identity.Identity.{Identity};
ghost use Rattle.vm_types.specs.declared.ids.ActorId.{ActorId};
ghost use Rattle.vm_types.specs.declared.ids.ActorId.TheVariants.{Timer};
ghost use Rattle.refusals.specs.declared.refusal.Refusal.TheVariants as refusal;
ghost use Rattle.api_calls.specs.declared.call.SnapshotFiles.{SnapshotFiles};
ghost use Rattle.file_format.specs.Identities.{is_numbered};
ghost use Rattle.file_format.specs.Versions.{current_version};
ghost use Rattle.file_format.specs.declared.version.Version.{Version};
ghost use Rattle.gate_file.specs.Moments.{IsShut};
ghost use Rattle.guest_memory.specs.Ram.{page_size};
ghost use Rattle.guest_memory.specs.Reserved.{hart_limit};
ghost use Rattle.snap_memory.specs.declared.header.MemHeader.{MemHeader};
ghost use Rattle.snap_memory.specs.Headers.{header, identity_of, is_valid, new_header};
ghost use Rattle.snap_diff.specs.Copies.{IsDiffOf};
ghost use Rattle.snap_diff.specs.Diffs.{IsDiffFile};
ghost use Rattle.snap_diff.specs.Headers.{are_names, names, names_of};
ghost use Rattle.snap_state.specs.Files.{Encodes, IsSaved};
ghost use Rattle.snap_state.specs.Sections.{entropy_in};
ghost use Rattle.snap_state.specs.Valid.{is_valid as is_valid_copy};
ghost use Rattle.flat_snapshot.specs.Files.{diff_file, diff_in, memory_file, memory_in, state_file};
ghost use Rattle.flat_snapshot.specs.Found.{Snapshot, found};
ghost use Rattle.vm_config.specs.declared.config.Config.{Config};
ghost use Rattle.flat_guest.specs.Given.{Event};
ghost use Rattle.flat_guest.specs.Guest.{Guest, unwritten, whole_pages};
ghost use Rattle.flat_guest.specs.Same.{AreAlike};
ghost use Rattle.flat_guest.specs.Sound.{IsSound};
ghost use Rattle.flat_guest.specs.Steps.{FlatStep, StepsBy};
ghost use Rattle.snap_state.specs.declared.copy.StateCopy.{StateCopy};
ghost use Rattle.flat_snapshot.specs.Carried.{carried_config, carried_guest, with_tracking};
ghost use Rattle.flat_snapshot.specs.Copies.{IsCopyOf};
ghost use Rattle.flat_snapshot.specs.Ready.{IsReady};
ghost use Rattle.flat_snapshot.specs.Unwritten.{KeepsUnwritten};

/// A guest has one copy at most with the same kept of its devices, and so one at most where it has none. Which of the
/// data that may be kept of its devices a copy has makes no difference to the guest that goes on from it. A guest that is
/// never stuck has a copy, if it has at most 2^20 pages.
pub fn one_copy_of()
    ensures one { (config : Config) (g : Guest) (first second : StateCopy) → first.devices ≡ second.devices →
        IsCopyOf config g first → IsCopyOf config g second → first ≡ second }
    ensures plain { (config : Config) (g : Guest) (first second : StateCopy) → g.devices ≡ [] →
        IsCopyOf config g first → IsCopyOf config g second → first ≡ second }
    ensures same_guest { (config : Config) (g : Guest) (first second : StateCopy) (bytes : List ℕ) →
        IsCopyOf config g first → IsCopyOf config g second →
        carried_guest first bytes ≡ carried_guest second bytes }
    ensures some { (config : Config) (g : Guest) → IsSound g → whole_pages g.memory ≤ 2 ^ 20 →
        (copy : StateCopy) × IsCopyOf config g copy }
{}

/// Each copy of a guest that is never stuck, keeps its shape, and is configured as the API takes it, passes each test of a state
/// file; its pages are all of the guest's memory. A guest that goes on from such a copy is one again.
pub fn valid_copies()
    ensures valid { (config : Config) (g : Guest) (copy : StateCopy) → IsSound g → IsReady config g →
        config.machine.mem_size_mib ≤ 4096 → IsCopyOf config g copy → is_valid_copy copy ≡ true }
    ensures whole { (config : Config) (g : Guest) (copy : StateCopy) → IsReady config g → IsCopyOf config g copy →
        length g.memory.bytes ≡ page_size * copy.pages }
    ensures carried { (copy : StateCopy) (bytes : List ℕ) (tracking : Bool) → IsTrue (is_valid_copy copy) →
        length bytes ≡ page_size * copy.pages →
        IsReady (carried_config tracking copy.configuration (entropy_in copy.sections)) (carried_guest copy bytes) }
{}

/// The guest that goes on from a snapshot is never stuck, where a state file can have its copy, and its memory has as
/// many pages as that says. What a load finds is such.
pub fn goes_on()
    ensures sound { (copy : StateCopy) (bytes : List ℕ) → IsTrue (is_valid_copy copy) →
        length bytes ≡ page_size * copy.pages → IsSound (carried_guest copy bytes) }
    ensures found { (saved : Saved) (files : SnapshotFiles) (it : Snapshot) → found saved files ≡ Ok it →
        IsTrue (is_valid_copy it.copy) × (length it.bytes ≡ page_size * it.copy.pages) }
{}

/// The copy of the guest that goes on from a snapshot is the one that it goes on from, but that the load says whether
/// dirty pages are tracked.
pub fn copied_again()
    ensures { (version : Version) (identity : Identity) (copy : StateCopy) (bytes : List ℕ) (tracking : Bool) →
        IsSaved version (record { identity = identity; copy = copy }) → length bytes ≡ page_size * copy.pages →
        IsCopyOf (carried_config tracking copy.configuration (entropy_in copy.sections)) (carried_guest copy bytes) (with_tracking tracking copy) }
{}

/// Where a create put the two files of a copy that a state file can have, of a memory of its pages, a load finds just
/// this snapshot.
pub fn create_then_load()
    ensures { (before : Saved) (files : SnapshotFiles) (identity : Identity) (copy : StateCopy) (bytes : List ℕ) →
        files.mem_file_path ≢ files.snapshot_path →
        IsSaved current_version (record { identity = identity; copy = copy }) →
        header.Fits (new_header copy.pages identity) → length bytes ≡ page_size * copy.pages →
        found (insert (insert before files.mem_file_path (memory_file identity copy.pages bytes)) files.snapshot_path
        (state_file identity copy)) files ≡ Ok (record { identity = identity; copy = copy; bytes = bytes }) }
{}

/// A load finds no snapshot where a file isn't there, is shorter than its header or has its gate closed, and none where
/// the memory file is of another snapshot.
pub fn no_snapshot()
    ensures shut { (saved : Saved) (files : SnapshotFiles) →
        IsShut 32 (get saved files.snapshot_path) ⊎ IsShut 4096 (get saved files.mem_file_path) →
        IsErr (found saved files) }
    ensures other { (before : Saved) (files : SnapshotFiles) (identity other : Identity) (copy : StateCopy)
        (bytes : List ℕ) → files.mem_file_path ≢ files.snapshot_path →
        IsSaved current_version (record { identity = identity; copy = copy }) → header.Fits (new_header copy.pages other) →
        IsTrue (is_numbered other) → length bytes ≡ page_size * copy.pages → other ≢ identity →
        found (insert (insert before files.mem_file_path (memory_file other copy.pages bytes)) files.snapshot_path
        (state_file identity copy)) files ≡ Err refusal.ParentDiffers }
{}

/// A load finds the snapshot whose state file stands under the one name, where under the other stand a memory file's header
/// of its identity, into which no merge is unfinished, and all of its pages: whatever was merged into it, and wherever it
/// lies.
pub fn load_of_files()
    ensures { (saved : Saved) (files : SnapshotFiles) (identity : Identity) (copy : StateCopy) (text bytes : List ℕ)
        (head : MemHeader) → Encodes text (record { identity = identity; copy = copy }) → header.Fits head →
        IsTrue (is_valid head) → head.merging ≡ 0 → head.pages ≡ copy.pages → identity_of head ≡ identity →
        length bytes ≡ page_size * copy.pages →
        get saved files.snapshot_path ≡ Some text →
        get saved files.mem_file_path ≡ Some (header.bytes head ++ bytes) →
        found saved files ≡ Ok (record { identity = identity; copy = copy; bytes = bytes }) }
{}

/// After events a page that is unwritten was so before, and has the bytes that it had.
pub fn unwritten_pages()
    ensures one { (g h : Guest) (event : Event) (e : Entry) → FlatStep g event e h → KeepsUnwritten g h }
    ensures several { (g h : Guest) (actor : ActorId) (count : ℕ) (es : List Entry) →
        StepsBy g actor count es h → KeepsUnwritten g h }
    ensures joined { (g h k : Guest) → KeepsUnwritten g h → KeepsUnwritten h k → KeepsUnwritten g k }
{}

/// What a create of a diff writes under the name of the memory is the file of the diff of the guest's memory since the
/// parent, where a file can have its names. If the guest is that which the parent's create left, after events, the diff is
/// what makes its memory of the parent's.
pub fn diff_since()
    ensures file { (parent identity : Identity) (pages : ℕ) (g : Guest) →
        names.Fits (names_of (diff_in parent identity pages g)) →
        IsTrue (are_names (names_of (diff_in parent identity pages g))) → length g.memory.bytes ≡ page_size * pages →
        IsDiffFile (diff_file (diff_in parent identity pages g)) (diff_in parent identity pages g) }
    ensures made { (old new : Identity) (before pages : ℕ) (g h : Guest) → pages ≡ before →
        KeepsUnwritten (unwritten g) h →
        IsDiffOf (memory_in old before g) (memory_in new pages h) (diff_in old new pages h) }
{}

/// The guest that goes on from a snapshot is alike with the one that was saved, as it went on.
pub fn goes_on_alike()
    ensures { (config : Config) (g : Guest) (copy : StateCopy) (version : Version) (identity : Identity) → IsSound g →
        IsCopyOf config g copy → IsSaved version (record { identity = identity; copy = copy }) →
        length g.memory.bytes ≡ page_size * copy.pages →
        g.board.off ≡ false → g.steps Timer ≡ [] → length g.memory.reserved ≡ hart_limit * copy.pages →
        AreAlike (unwritten g) (carried_guest copy g.memory.bytes) }
{}
