// What holds of every diff.
ghost use Rattle.std.specs.Prelude.{◌≡◌, ◌<◌, ◌≤◌, ◌+◌, ◌*◌, ◌↔◌, IsTrue, List, ℕ, Some, Ok, false, length, map, slice_get};
ghost use Rattle.file_format.specs.Format.{IsBytes};
ghost use Rattle.file_format.specs.Versions.{version_of};
ghost use Rattle.snap_diff.specs.Copies.{
  MemoryCopy,
  DiffCopy,
  DiffStep,
  IsDiff,
  IsDiffOf,
  IsWhole,
  JoinAll,
  LeadBy,
  has_page,
  overlaid,
  overlaid_all,
  page_at,
};
ghost use Rattle.file_format.specs.declared.version.Version.TheVariants.{One, Two};
ghost use Rattle.snap_diff.specs.Diffs.{IsDiffFile, parts, parts_in, runs_in};
ghost use Rattle.snap_diff.specs.Runs.{stored_in};
ghost use Rattle.guest_memory.specs.Ram.{page_size};
ghost use Rattle.snap_diff.specs.Found.{diff_found};
ghost use Rattle.snap_diff.specs.Headers.{are_names, names, names_of};

/// Bytes are the file of one diff at most, and a diff has one file of a version. What is found in a file is the diff whose file it
/// is, and none is found exactly where it is none's.
pub fn one_diff()
    ensures one { (given : List ℕ) (c d : DiffCopy) → IsDiffFile given c → IsDiffFile given d → c ≡ d }
    ensures file { (given other : List ℕ) (d : DiffCopy) → IsDiffFile given d → IsDiffFile other d →
        version_of given ≡ version_of other → given ≡ other }
    ensures found { (given : List ℕ) (d : DiffCopy) → IsBytes given →
        (diff_found (Some given) ≡ Ok d) ↔ IsDiffFile given d }
    ensures whole { (given : List ℕ) (d : DiffCopy) → IsDiffFile given d → IsDiff d }
{}

/// The parts of a diff in version 2, in order, are a file of it. Beside the file of version 1 it lacks the pages of zeros, and has at
/// most eight bytes more for each run.
pub fn written_diff()
    ensures short { (d : DiffCopy) → IsDiff d → length (parts.bytes (parts_in Two d)) + page_size * length d.numbers ≤
        length (parts.bytes (parts_in One d)) + 8 * length (runs_in Two d) + page_size * stored_in (runs_in Two d) }
    ensures file { (d : DiffCopy) → IsDiff d → names.Fits (names_of d) → IsTrue (are_names (names_of d)) →
        IsDiffFile (parts.bytes (parts_in Two d)) d }
{}

/// A copy that is overlaid with a diff of its memory is whole; it has the diff's pages, and is in all others as it was.
pub fn overlay()
    ensures whole { (m : MemoryCopy) (d : DiffCopy) → IsWhole m → IsDiff d → d.pages ≡ m.pages →
        IsWhole (overlaid m d) }
    ensures inside { (m : MemoryCopy) (d : DiffCopy) → IsWhole m → IsDiff d → d.pages ≡ m.pages →
        (k number : ℕ) → k < length d.numbers → number < m.pages → slice_get d.numbers k ≡ Some number →
        page_at number (overlaid m d).bytes ≡ page_at k d.bytes }
    ensures outside { (m : MemoryCopy) (d : DiffCopy) → IsWhole m → IsDiff d → d.pages ≡ m.pages →
        (number : ℕ) → number < m.pages → has_page d number ≡ false →
        page_at number (overlaid m d).bytes ≡ page_at number m.bytes }
{}

/// A whole copy that is overlaid with its later diffs in order is the memory as the last of them found it.
pub fn later_diffs()
    ensures joined { (first : MemoryCopy) (steps : List DiffStep) (last : MemoryCopy) →
        IsWhole first → LeadBy first steps last → JoinAll first (map (λ step. step.diff) steps) }
    ensures last { (first : MemoryCopy) (steps : List DiffStep) (last : MemoryCopy) →
        IsWhole first → LeadBy first steps last → overlaid_all first (map (λ step. step.diff) steps) ≡ last }
{}
