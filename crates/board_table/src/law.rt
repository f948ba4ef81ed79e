// What each act on the board keeps.
ghost use Rattle.std.specs.Prelude.{ℕ, ◌≤◌, ◌^◌};
ghost use Rattle.vm_types.specs.declared.ids.ActorId.{ActorId};
ghost use Rattle.vm_types.specs.declared.op.Op.{Op};
ghost use Rattle.board_table.specs.Acts.{raise_line, touch};
ghost use Rattle.board_table.specs.Board.{Board, new_board};
ghost use Rattle.board_table.specs.Kept.{IsKept, IsLong, IsSmallOp, IsSmallReply};

/// A board as a start makes it is one that a state file can have, and each act with small numbers leaves such a one, as does
/// a line that is raised. What it replies is small.
pub fn board_kept()
    ensures new { (harts : ℕ) → IsKept harts (new_board harts) }
    ensures touched { (harts : ℕ) (b : Board) → IsKept harts b → (actor : ActorId) (op : Op) → IsSmallOp op →
        IsKept harts (touch b actor op).1 }
    ensures raised { (harts : ℕ) (b : Board) → IsKept harts b → (actor : ActorId) → IsKept harts (raise_line b actor) }
    ensures replies { (harts : ℕ) (b : Board) → IsKept harts b → (actor : ActorId) (op : Op) → harts ≤ 2 ^ 32 →
        IsSmallReply (touch b actor op).0 }
{}

/// A board keeps as many harts, and no more bytes of the console than its ring holds, whatever is given.
pub fn board_long()
    ensures new { (harts : ℕ) → IsLong harts (new_board harts) }
    ensures touched { (harts : ℕ) (b : Board) → IsLong harts b → (actor : ActorId) (op : Op) →
        IsLong harts (touch b actor op).1 }
    ensures raised { (harts : ℕ) (b : Board) → IsLong harts b → (actor : ActorId) → IsLong harts (raise_line b actor) }
{}
