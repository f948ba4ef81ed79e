// The creates of chains, as lists with which files agree.
ghost use Rattle.std.specs.Prelude.{◌≡◌, ◌≢◌, IsTrue, List, None, Some};
ghost use Rattle.vm_types.specs.declared.identity.Identity.{Identity};
ghost use Rattle.gate_file.specs.Pairs.{Target, text_of};
ghost use Rattle.file_format.specs.Identities.{identity, is_numbered};
ghost use Rattle.api_calls.specs.declared.call.SnapshotType.TheVariants as snapshot;
ghost use Rattle.create_lists.specs.Listed.{AreCreates, AreFilesOf};
ghost use Rattle.snapshot_chain.specs.Chains.{DiffsLead, IsSaving, Saving, identity_of, memory_text, state_text};
ghost use Rattle.snapshot_chain.specs.Listed.{create_of, creates_of};

/// The creates of a chain are a list as `create_lists::any_files` asks for: their identities differ, and each diff has what was
/// written since the one before it. The two files that a create fills with what stands under its names after it are that
/// create's.
pub fn listed_creates()
    ensures chain { (first last : Saving) (savings : List Saving) → IsSaving snapshot.Full first →
        DiffsLead first savings last → AreCreates (creates_of first savings) }
    ensures full { (s : Saving) (memory state : Target) → memory_text s ≡ Some (text_of memory) →
        state_text s ≡ Some (text_of state) → IsSaving snapshot.Full s → AreFilesOf (create_of None s) memory state }
    ensures diff { (s : Saving) (memory state : Target) (parent : Identity) → memory_text s ≡ Some (text_of memory) →
        state_text s ≡ Some (text_of state) → IsSaving snapshot.Diff s → s.before.ids.base ≡ Some parent →
        identity.Fits parent → IsTrue (is_numbered parent) → parent ≢ identity_of s →
        AreFilesOf (create_of (Some parent) s) memory state }
{}
