// What each act on memory keeps.
ghost use Rattle.std.specs.Prelude.{◌≡◌, ◌*◌, ℕ, All, length};
ghost use Rattle.vm_types.specs.declared.ids.ActorId.{ActorId};
ghost use Rattle.vm_types.specs.declared.op.Op.{Op};
ghost use Rattle.guest_memory.specs.Boot.{Loads, boot_memory, bytes_of_mib};
ghost use Rattle.guest_memory.specs.Kept.{AreLoads, IsByte, IsKept, IsOneOf, IsRamReply, IsSmallOp, IsSmallReply, IsWhole};
ghost use Rattle.guest_memory.specs.Memory.{Memory, touch};

/// A memory as a start leaves it is one that a state file can have, where what is loaded fits; and each act of an actor that is
/// there, which writes bytes, leaves such a one. It replies bytes, and words of RAM.
pub fn memory_kept()
    ensures boots { (mib harts : ℕ) (loads : Loads) → AreLoads loads →
        length (boot_memory mib loads).bytes ≡ bytes_of_mib mib → IsKept (256 * mib) harts (boot_memory mib loads) }
    ensures touched { (pages harts : ℕ) (m : Memory) (actor : ActorId) (op : Op) → IsOneOf harts actor → IsSmallOp op →
        IsKept pages harts m → IsKept pages harts (touch m actor op).1 }
    ensures replies { (m : Memory) (actor : ActorId) (op : Op) → All IsByte m.bytes →
        IsSmallReply (length m.bytes) op (touch m actor op).0 }
{}

/// Memory stays in whole pages, and what harts that are there have reserved are granules of them, whatever the bytes are. To a
/// load-reserved it replies no word but of RAM.
pub fn memory_whole()
    ensures boots { (mib harts : ℕ) (loads : Loads) → length (boot_memory mib loads).bytes ≡ bytes_of_mib mib →
        IsWhole (256 * mib) harts (boot_memory mib loads) }
    ensures touched { (pages harts : ℕ) (m : Memory) (actor : ActorId) (op : Op) → IsOneOf harts actor →
        IsWhole pages harts m → IsWhole pages harts (touch m actor op).1 }
    ensures replies { (m : Memory) (actor : ActorId) (op : Op) → IsRamReply (length m.bytes) op (touch m actor op).0 }
{}
