// What stands before the pages of a memory file, and which pages follow.
ghost use Rattle.std.specs.Prelude.{◌≡◌, ◌<◌, ◌^◌, length, true, IfOk, IfSome, IsTrue, Some};
ghost use Rattle.file_format.specs.Identities.{is_numbered};
ghost use Rattle.flat_snapshot.specs.Files.{memory_head};
ghost use Rattle.snap_diff.specs.Runs.{chosen, runs_of};
ghost use Rattle.snap_writer.specs.Selected.{are_there};
ghost use Rattle.monitor_plans.specs.Headings.{HasParent, IsHeading, kinds_in};

use file_format::{Items, Version};
use guest_pages::PageSet;
use snap_diff::{DiffHeader, DiffNames, Run, runs_of};
use snap_memory::MemHeader;
use snap_writer::{SavedPages, chosen};
use std::alloc::{AllocError, Global};
use vm_types::{ByteList, Identity};
use vm_world::World;

/// What stands between the gate of a memory file and its pages, and the numbers of these pages; `None` is all.
#[derive(Drop)]
pub(crate) struct Heading {
    pub head: ByteList,
    pub numbers: Option<Vec<u32>>,
}

/// That of a snapshot of this guest, whose memory has so many pages: of a diff since the parent, if there is one. `None`
/// where there is no memory.
pub(crate) fn heading_of(
    alloc: Global,
    parent: Option<Identity>,
    identity: Identity,
    pages: u32,
    guest: &World,
) -> Option<Heading>
    requires numbered { IsTrue (is_numbered identity) }
    requires parent { HasParent parent identity }
    requires pages { pages ≡ length guest.now.pages }
    ensures { IfSome result (λ it. IsHeading it parent identity pages guest.now) }
{
    match parent {
        None => full_heading(alloc, identity, pages, guest),
        Some(parent) => diff_heading(alloc, parent, identity, pages, guest),
    }
}

fn full_heading(alloc: Global, identity: Identity, pages: u32, guest: &World) -> Option<Heading>
    requires { IsTrue (is_numbered identity) }
    ensures { IfSome result (λ it. IsHeading it None identity pages guest.now) }
{
    let _pages = guest.pages();
    let Ok(head) = head_of(alloc, pages, identity) else {
        return None;
    };
    Some(Heading {
        head,
        numbers: None,
    })
}

fn diff_heading(
    alloc: Global,
    parent: Identity,
    identity: Identity,
    pages: u32,
    guest: &World,
) -> Option<Heading>
    requires numbered { IsTrue (is_numbered identity) }
    requires parent { HasParent (Some parent) identity }
    requires pages { pages ≡ length guest.now.pages }
    ensures { IfSome result (λ it. IsHeading it (Some parent) identity pages guest.now) }
{
    let memory = guest.pages();
    let _size = memory.len();
    let Ok(numbers) = memory.marked(alloc) else {
        return None;
    };
    let Ok((runs, stored)) = runs_in(alloc, memory, &numbers) else {
        return None;
    };
    let table = runs.as_slice();
    let count = table.len() as u32;
    let filled = stored.len() as u32;
    let header = DiffHeader {
        version: Version::Two,
        names: DiffNames {
            pages,
            parent,
            identity,
        },
        count,
        stored: filled,
    };
    let Ok(start) = header.encode_behind_gate(alloc, table) else {
        return None;
    };
    Some(Heading {
        head: ByteList::from_vec(start),
        numbers: Some(stored),
    })
}

// The runs of the pages of these numbers, and which of the pages are stored.
fn runs_in(
    alloc: Global,
    memory: &PageSet,
    numbers: &[u32],
) -> Result<(Items<Run>, Vec<u32>), AllocError>
    requires few { length memory.now.pages < 2 ^ 32 }
    requires there { are_there numbers.now (length memory.now.pages) ≡ true }
    ensures runs { IfOk result (λ it. it.0 ≡ runs_of numbers.now (kinds_in memory.now.pages numbers.now)) }
    ensures stored { IfOk result (λ it. it.1.items ≡ chosen numbers.now (kinds_in memory.now.pages numbers.now)) }
{
    let _size = memory.len();
    let Some(pages) = SavedPages::some(memory, numbers) else {
        unreachable!();
    };
    let kinds = pages.kinds(alloc)?;
    let runs = runs_of(alloc, numbers, &kinds)?;
    let stored = chosen(alloc, numbers, &kinds)?;
    Ok((runs, stored))
}

fn head_of(alloc: Global, pages: u32, identity: Identity) -> Result<ByteList, AllocError>
    requires { IsTrue (is_numbered identity) }
    ensures { IfOk result (λ head. head ≡ memory_head identity pages) }
{
    let head = MemHeader::new(pages, identity).encode_behind_gate(alloc)?;
    Ok(ByteList::from_vec(head))
}
