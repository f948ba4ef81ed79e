// What holds of marks.
ghost use Rattle.std.specs.Prelude.{◌≡◌, ◌||◌, List};
ghost use Rattle.vm_types.specs.declared.ids.ActorId.{ActorId};
ghost use Rattle.vm_types.specs.declared.op.Op.{Op};
ghost use Rattle.guest_pages.specs.Marks.{is_written, is_written_by, page_after};
ghost use Rattle.guest_pages.specs.Pages.{PageValue, page_touch, unmarked};

/// A page is marked exactly where an act has written it since its mark was cleared: a write, an atomic memory
/// operation or a store-conditional that succeeded, whatever the bytes.
pub fn marks_follow_acts()
    ensures one { (p : PageValue) (actor : ActorId) (op : Op) →
        (page_touch p actor op).1.marked ≡ (p.marked || is_written op (page_touch p actor op).0) }
    ensures all { (p : PageValue) (acts : List (ActorId × Op)) →
        (page_after (unmarked p) acts).marked ≡ is_written_by (unmarked p) acts }
{}
