// What is found of a snapshot.
ghost use Rattle.std.specs.Prelude.{◌≡◌, IfOk, false, length, replicate};
ghost use Rattle.std.specs.FinMap.{get};
ghost use Rattle.guest_memory.specs.Reserved.{unreserved};
ghost use Rattle.guest_pages.specs.Pages.{flat_of, marks_of};
ghost use Rattle.snap_state.specs.Files.{HasFile};
ghost use Rattle.vm_outside.specs.Filing.{SameFiles};
ghost use Rattle.vm_outside.specs.Known.{Lasts, Tells};
ghost use Rattle.flat_snapshot.specs.Found.{found, state_found};
ghost use Rattle.snap_restore.specs.Finding.{Answers, FindCause, front_found, nothing_of};
ghost use Rattle.snap_restore.specs.Finding.{size_found, size_of, snapshot_of, state_of};

use crate::judging::{judge_memory, judge_start, judge_state};
use crate::loading::load_pages;
use api_calls::SnapshotFiles;
use gate_file::{FileError, read_front, read_start};
use guest_pages::PageSet;
use refusals::Refusal;
use snap_memory::MemHeader;
use snap_state::{STATE_HEADER, Saved, StateCopy};
use std::alloc::Global;
use vm_outside::Files;
use vm_types::Identity;

/// A snapshot that was found.
#[derive(Drop)]
pub struct FoundSnapshot {
    pub identity: Identity,
    pub copy: StateCopy,
    pub pages: PageSet,
}

/// Why none was found.
#[derive(Clone, Copy, Drop)]
pub enum FindError {
    Refused(Refusal),
    /// A call on the files failed.
    Fault,
    OutOfMemory,
}

// The size of the state file of this name, where its first bytes don't refuse it.
fn find_size<F: Files>(alloc: Global, files: &mut F, name: &str) -> Result<u64, FindError>
    ensures finds { Tells (F.known files.old).health →
        Answers size_of result (size_found (get (F.known files.old).saved name.now)) }
    ensures same { Tells (F.known files.old).health → SameFiles (F.known files.old) (F.known files.new) }
    ensures cause { FindCause result (F.known files.old).health.faults (F.known files.new).health.faults }
    ensures lasts { Lasts (F.known files.old).health (F.known files.new).health }
{
    match read_start(alloc, files, name, STATE_HEADER as u64) {
        Ok(Some(start)) => judge_start(start.size, &start.bytes),
        Ok(None) => Err(FindError::Refused(Refusal::NoSuchFile)),
        Err(FileError::Fault) => Err(FindError::Fault),
        Err(FileError::OutOfMemory) => Err(FindError::OutOfMemory),
    }
}

// What the state file of this name holds. It is read whole only where its header says that it has so many bytes.
fn find_state<F: Files>(alloc: Global, files: &mut F, name: &str) -> Result<Saved, FindError>
    ensures finds { Tells (F.known files.old).health →
        Answers state_of result (state_found (get (F.known files.old).saved name.now)) }
    ensures saved { IfOk result (λ saved. HasFile saved) }
    ensures same { Tells (F.known files.old).health → SameFiles (F.known files.old) (F.known files.new) }
    ensures cause { FindCause result (F.known files.old).health.faults (F.known files.new).health.faults }
    ensures lasts { Lasts (F.known files.old).health (F.known files.new).health }
{
    let size = match find_size(alloc, files, name) {
        Ok(size) => size,
        Err(why) => return Err(why),
    };
    match read_front(alloc, files, name, size) {
        Ok(bytes) => judge_state(alloc, &bytes),
        Err(FileError::Fault) => Err(FindError::Fault),
        Err(FileError::OutOfMemory) => Err(FindError::OutOfMemory),
    }
}

// Whether the memory file of this name belongs to such a state.
fn find_memory<F: Files>(
    alloc: Global,
    files: &mut F,
    name: &str,
    identity: Identity,
    pages: u32,
) -> Result<(), FindError>
    ensures finds { Tells (F.known files.old).health →
        Answers nothing_of result (front_found identity pages (get (F.known files.old).saved name.now)) }
    ensures same { Tells (F.known files.old).health → SameFiles (F.known files.old) (F.known files.new) }
    ensures cause { FindCause result (F.known files.old).health.faults (F.known files.new).health.faults }
    ensures lasts { Lasts (F.known files.old).health (F.known files.new).health }
{
    match read_start(alloc, files, name, MemHeader::SIZE as u64) {
        Ok(Some(start)) => judge_memory(alloc, identity, pages, start.size, &start.bytes),
        Ok(None) => Err(FindError::Refused(Refusal::NoSuchFile)),
        Err(FileError::Fault) => Err(FindError::Fault),
        Err(FileError::OutOfMemory) => Err(FindError::OutOfMemory),
    }
}

/// The snapshot under these two names.
///
/// Errors: `Refused` by the first refusal that fits: of the state file no such file, its gate, its magic, a field; then
/// of the memory file the same, an unfinished merge, its size or number of pages, and another identity. `Fault` where a
/// call on the files failed.
pub fn find<F: Files>(
    alloc: Global,
    files: &mut F,
    names: &SnapshotFiles,
) -> Result<FoundSnapshot, FindError>
    ensures finds { Tells (F.known files.old).health →
        Answers snapshot_of result (found (F.known files.old).saved names.now) }
    ensures saved { IfOk result (λ it. HasFile (record { identity = it.identity; copy = it.copy })) }
    ensures reserved { IfOk result (λ it. (flat_of it.pages.pages).reserved ≡ unreserved it.copy.pages) }
    ensures count { IfOk result (λ it. length it.pages.pages ≡ it.copy.pages) }
    ensures marks { IfOk result (λ it. marks_of it.pages.pages ≡ replicate it.copy.pages false) }
    ensures same { Tells (F.known files.old).health → SameFiles (F.known files.old) (F.known files.new) }
    ensures cause { FindCause result (F.known files.old).health.faults (F.known files.new).health.faults }
    ensures lasts { Lasts (F.known files.old).health (F.known files.new).health }
{
    let saved = match find_state(alloc, files, names.snapshot_path.as_str()) {
        Ok(saved) => saved,
        Err(why) => return Err(why),
    };
    let memory = names.mem_file_path.as_str();
    if let Err(why) = find_memory(alloc, files, memory, saved.identity, saved.copy.pages) {
        return Err(why);
    }
    match load_pages(
        alloc,
        files,
        memory,
        MemHeader::SIZE as u64,
        saved.copy.pages,
    ) {
        Ok(pages) => Ok(FoundSnapshot {
            identity: saved.identity,
            copy: saved.copy,
            pages,
        }),
        Err(FileError::Fault) => Err(FindError::Fault),
        Err(FileError::OutOfMemory) => Err(FindError::OutOfMemory),
    }
}
