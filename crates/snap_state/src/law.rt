// What the definitions say of each other.
ghost use Rattle.std.specs.Prelude.{◌≡◌, List, ℕ, true, false};
ghost use Rattle.file_format.specs.Starts.{is_closed, is_other};
ghost use Rattle.file_format.specs.Versions.{version_of};
ghost use Rattle.snap_state.specs.declared.file.Saved.{Saved};
ghost use Rattle.board_table.specs.Board.{Board};
ghost use Rattle.hart_trace.specs.States.{Hart};
ghost use Rattle.snap_harts.specs.declared.hart.SavedHart.{SavedHart};
ghost use Rattle.snap_state.specs.declared.board.SavedBoard.{SavedBoard};
ghost use Rattle.snap_harts.specs.Copy.{hart_of, saved_hart, IsBegunByFetch};
ghost use Rattle.snap_state.specs.Copy.{board_at, saved_board};
ghost use Rattle.snap_state.specs.Files.{magic, Encodes};
ghost use Rattle.snap_state.specs.Valid.{is_hart};

/// Bytes are the file of one copy at most, and of none where an earlier refusal fits; a copy has one file of a version.
pub fn one_copy()
    ensures one { (given : List ℕ) (s t : Saved) → Encodes given s → Encodes given t → s ≡ t }
    ensures file { (first second : List ℕ) (s : Saved) → Encodes first s → Encodes second s →
        version_of first ≡ version_of second → first ≡ second }
    ensures opened { (given : List ℕ) (s : Saved) → Encodes given s → is_closed 32 given ≡ false }
    ensures known { (given : List ℕ) (s : Saved) → Encodes given s →
        is_other (magic (version_of given)) given ≡ false }
{}

/// Harts and boards that are on have one copy, and it is theirs alone.
pub fn one_of_each()
    ensures hart { (h : Hart) → IsBegunByFetch h → hart_of (saved_hart h) ≡ h }
    ensures copied { (pages : ℕ) (s : SavedHart) → is_hart pages s ≡ true → saved_hart (hart_of s) ≡ s }
    ensures board { (b : Board) → b.off ≡ false → board_at b.now (saved_board b) ≡ b }
    ensures kept { (now : ℕ) (s : SavedBoard) → saved_board (board_at now s) ≡ s }
{}
