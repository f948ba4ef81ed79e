// The end of a create.
ghost use Rattle.std.specs.Prelude.{◌≡◌, IfErr, IfOk};
ghost use Rattle.api_rules.specs.Ids.{based, spent};
ghost use Rattle.create_end.specs.Saved.{IsSavedWorld};

use api_rules::Ids;
use vm_outside::Failed;
use vm_types::Identity;
use vm_world::World;

/// Ends a create of this identity, of whose files this came: both are written, or a call on them failed. `next` is the
/// number behind its own.
pub fn end_create(
    written: Result<(), Failed>,
    identity: Identity,
    next: u64,
    ids: &mut Ids,
    guest: &mut Option<World>,
)
    ensures done { IfOk written (λ _. (ids.new ≡ based identity next ids.old)
        × IsSavedWorld guest.old guest.new) }
    ensures failed { IfErr written (λ _. (ids.new ≡ spent next ids.old) × (guest.new ≡ guest.old)) }
{
    ids.next = next;
    if written.is_ok() {
        ids.base = Some(identity);
        go_on_saved(guest);
    }
}

// The guest goes on as it was saved: it is reset, as its copy was, and no page of it is marked any more.
fn go_on_saved(guest: &mut Option<World>)
    ensures { IsSavedWorld guest.old guest.new }
{
    match guest {
        None => {}
        Some(guest) => {
            guest.reset();
            guest.clear_marks();
        }
    }
}
