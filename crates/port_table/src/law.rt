// What each act on a port keeps.
ghost use Rattle.std.specs.Prelude.{ℕ, ◌≡◌, ◌<◌, ◌^◌, All, List, length, true};
ghost use Rattle.vm_types.specs.declared.ids.ActorId.{ActorId};
ghost use Rattle.vm_types.specs.declared.op.Op.{Op};
ghost use Rattle.le_fields.specs.Fields.{IsByte};
ghost use Rattle.port_table.specs.declared.kind.DeviceKind.{DeviceKind};
ghost use Rattle.port_table.specs.declared.state.PortState.{PortState};
ghost use Rattle.port_table.specs.Acts.{configured, touch};
ghost use Rattle.port_table.specs.Kept.{is_state};
ghost use Rattle.port_table.specs.Ports.{new_port};
ghost use Rattle.port_table.specs.Sizes.{IsKept, IsSmallOp, IsSmallReply};

/// A port as new is in a state that ports may be in, and each act on it leaves it in one.
pub fn port_kept()
    ensures new { (kind : DeviceKind) (offered : ℕ) (bytes : List ℕ) → is_state (new_port kind offered bytes) ≡ true }
    ensures touched { (p : PortState) (actor : ActorId) (op : Op) → length p.config ≡ 8 → is_state p ≡ true →
        is_state (touch p actor op).1 ≡ true }
    ensures configured { (p : PortState) (bytes : List ℕ) → length p.config ≡ 8 → is_state p ≡ true →
        is_state (configured p bytes) ≡ true }
{}

/// A port as new is one that a state file can have, and each act on it that writes bytes leaves one, as does another
/// configuration. Its kind stays whatever is written. What it replies is small.
pub fn port_stays()
    ensures new { (kind : DeviceKind) (offered : ℕ) (bytes : List ℕ) → offered < 2 ^ 64 → All IsByte bytes →
        IsKept kind (new_port kind offered bytes) }
    ensures touched { (kind : DeviceKind) (p : PortState) (actor : ActorId) (op : Op) → IsSmallOp op → IsKept kind p →
        IsKept kind (touch p actor op).1 }
    ensures configured { (kind : DeviceKind) (p : PortState) (bytes : List ℕ) → All IsByte bytes → IsKept kind p →
        IsKept kind (configured p bytes) }
    ensures kind { (p : PortState) (actor : ActorId) (op : Op) → (touch p actor op).1.kind ≡ p.kind }
    ensures replies { (kind : DeviceKind) (p : PortState) (actor : ActorId) (op : Op) → IsKept kind p →
        IsSmallReply (touch p actor op).0 }
{}
