// What the definitions say of each other.
ghost use Rattle.std.specs.Prelude.{◌≡◌, List, ℕ, false};
ghost use Rattle.file_format.specs.Starts.{is_closed, is_other};
ghost use Rattle.snap_memory.specs.declared.header.MemHeader.{MemHeader};
ghost use Rattle.snap_memory.specs.Headers.{magic, Begins};

/// Bytes begin with one header at most, and with none where an earlier refusal fits.
pub fn one_header()
    ensures one { (given : List ℕ) (g h : MemHeader) → Begins given g → Begins given h → g ≡ h }
    ensures opened { (given : List ℕ) (h : MemHeader) → Begins given h → is_closed 4096 given ≡ false }
    ensures known { (given : List ℕ) (h : MemHeader) → Begins given h → is_other magic given ≡ false }
{}
