// What a create comes to.
ghost use Rattle.std.specs.Prelude.{◌≡◌, ◌≢◌, IfOk, IfSome, IsTrue, is_some, length};
ghost use Rattle.file_format.specs.Identities.{is_numbered};
ghost use Rattle.flat_snapshot.specs.Files.{state_body};
ghost use Rattle.guest_pages.specs.Pages.{flat_of};
ghost use Rattle.snap_writer.specs.Selected.{can_select, selected};
ghost use Rattle.file_format.specs.Versions.{current_version};
ghost use Rattle.snap_state.specs.Files.{IsSaved};
ghost use Rattle.snap_state.specs.Valid.{is_valid};
ghost use Rattle.monitor_plans.specs.Creating.{CreateGives, IsCreation};
ghost use Rattle.monitor_plans.specs.Headings.{HasParent, numbers_in};
ghost use Rattle.world_copy.specs.Ready.{IsReadyWorld};

use crate::heading::heading_of;
use crate::plan::{Plan, Task};
use api_calls::SnapshotFiles;
use api_rules::Config;
use snap_state::{StateCopy, encode_behind_gate};
use snap_writer::{Room, SavedPages};
use std::alloc::{AllocError, Global};
use vm_types::{ByteList, Identity};
use vm_world::World;
use world_copy::copy_world;

/// A create that is due: all that it writes besides the pages, and the room that this takes.
#[derive(Drop)]
pub struct Creation {
    /// The two files.
    pub names: SnapshotFiles,
    /// What they are made under, and then the base of the machine.
    pub identity: Identity,
    /// The number of the snapshot after it.
    pub next: u64,
    /// What stands between the gate of the memory file and the pages.
    pub head: ByteList,
    /// Which pages are written; `None` is all.
    pub numbers: Option<Vec<u32>>,
    /// What stands behind the gate of the state file.
    pub body: ByteList,
    pub room: Room,
}

/// What comes of a create that the machine allows, of this guest and under this identity: of a diff since the parent, if
/// there is one. The two names differ, the snapshot has a number, and so has the parent, which is another one. The guest has
/// what is configured. The plan is `NoMemory` for want of memory alone.
pub fn create(
    alloc: Global,
    config: &Config,
    parent: Option<Identity>,
    identity: Identity,
    guest: &World,
    names: SnapshotFiles,
) -> Task
    requires names { names.mem_file_path ≢ names.snapshot_path }
    requires numbered { IsTrue (is_numbered identity) }
    requires parent { HasParent parent identity }
    requires ready { IsReadyWorld config.now guest.now }
    ensures { CreateGives result config.now parent identity guest.now names }
{
    match prepare(alloc, config, parent, identity, guest, names) {
        Some(creation) => Task::Create(creation),
        None => Task::Plan(Plan::NoMemory),
    }
}

// All that a create needs, or `None` where there is no memory.
fn prepare(
    alloc: Global,
    config: &Config,
    parent: Option<Identity>,
    identity: Identity,
    guest: &World,
    names: SnapshotFiles,
) -> Option<Creation>
    requires names { names.mem_file_path ≢ names.snapshot_path }
    requires numbered { IsTrue (is_numbered identity) }
    requires parent { HasParent parent identity }
    requires ready { IsReadyWorld config.now guest.now }
    ensures { IfSome result (λ creation. IsCreation creation config.now parent identity guest.now names) }
{
    let Ok(copy) = copy_world(alloc, config, guest) else {
        return None;
    };
    let Some(heading) = heading_of(alloc, parent, identity, copy.pages, guest) else {
        return None;
    };
    let Ok(body) = body_of(alloc, identity, &copy) else {
        return None;
    };
    let Ok(room) = Room::new(alloc) else {
        return None;
    };
    Some(Creation {
        names,
        identity,
        next: identity.number + 1,
        head: heading.head,
        numbers: heading.numbers,
        body,
        room,
    })
}

fn body_of(alloc: Global, identity: Identity, copy: &StateCopy) -> Result<ByteList, AllocError>
    requires numbered { IsTrue (is_numbered identity) }
    requires valid { IsTrue (is_valid copy.now) }
    ensures body { IfOk result (λ body. body ≡ state_body identity copy.now) }
    ensures saved { IfOk result (λ body. IsSaved current_version (record { identity = identity; copy = copy.now })) }
{
    let body = encode_behind_gate(alloc, identity, copy)?;
    Ok(ByteList::from_vec(body))
}

/// The pages of these numbers, or all. `None` where a number is no page's, or there are more of them than pages.
pub fn pages_of<'a>(guest: &'a World, numbers: &'a Option<Vec<u32>>) -> Option<SavedPages<'a>>
    ensures pages { IfSome result (λ pages.
        pages ≡ selected (numbers_in numbers.now) (flat_of guest.now.pages).bytes) }
    ensures there { is_some result ≡ can_select (numbers_in numbers.now) (length guest.now.pages) }
{
    match numbers {
        None => Some(SavedPages::all(guest.pages())),
        Some(numbers) => SavedPages::some(guest.pages(), numbers),
    }
}
