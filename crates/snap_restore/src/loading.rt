// The pages of a memory file.
ghost use Rattle.std.specs.Prelude.{◌≡◌, ◌≤◌, ◌<◌, ◌*◌, ◌^◌, List, ℕ, Some, false, length};
ghost use Rattle.std.specs.Prelude.{take, drop, replicate, IfOk, OnOk};
ghost use Rattle.std.specs.FinMap.{get};
ghost use Rattle.gate_file.specs.Reading.{FileCause};
ghost use Rattle.guest_memory.specs.Reserved.{unreserved};
ghost use Rattle.guest_pages.specs.Pages.{flat_of, marks_of};
ghost use Rattle.snap_writer.specs.Blocks.{block_size};
ghost use Rattle.vm_outside.specs.Filing.{SameFiles};
ghost use Rattle.vm_outside.specs.Known.{Lasts, Tells};

use gate_file::{FileError, zeros};
use guest_memory::PAGE_SIZE;
use guest_pages::PageSet;
use snap_writer::BLOCK_SIZE;
use std::alloc::{AllocError, Global};
use vm_outside::Files;

/// So many new pages with the bytes that the file of this name has from an offset on. That there are too few, or no
/// file, is a fault. A page is made when its bytes are there, and one of zeros isn't.
pub fn load_pages<F: Files>(
    alloc: Global,
    files: &mut F,
    name: &str,
    at: u64,
    count: u32,
) -> Result<PageSet, FileError>
    requires early { at ≤ 2 ^ 63 }
    ensures bytes { IfOk result (λ pages. Tells (F.known files.old).health → (content : List ℕ) →
        get (F.known files.old).saved name.now ≡ Some content →
        (flat_of pages.pages).bytes ≡ take (4096 * count) (drop at content)) }
    ensures count { IfOk result (λ pages. length pages.pages ≡ count) }
    ensures reserved { IfOk result (λ pages. (flat_of pages.pages).reserved ≡ unreserved count) }
    ensures marks { IfOk result (λ pages. marks_of pages.pages ≡ replicate count false) }
    ensures same { Tells (F.known files.old).health → SameFiles (F.known files.old) (F.known files.new) }
    ensures cause { FileCause result (F.known files.old).health.faults (F.known files.new).health.faults }
    ensures lasts { Lasts (F.known files.old).health (F.known files.new).health }
{
    let Ok(mut block) = room(alloc) else {
        return Err(FileError::OutOfMemory);
    };
    let Ok(mut pages) = PageSet::new(alloc, count) else {
        return Err(FileError::OutOfMemory);
    };
    match read_pages(alloc, files, name, at, &mut pages, &mut block) {
        Ok(()) => Ok(pages),
        Err(why) => Err(why),
    }
}

// Room for the bytes of one read.
fn room(alloc: Global) -> Result<Vec<u8>, AllocError>
    ensures { IfOk result (λ room. length room.items ≡ block_size) }
{
    zeros(alloc, BLOCK_SIZE)
}

// Puts into all pages the bytes that the file has from an offset on, and marks nothing. `block` is where they are read.
fn read_pages<F: Files>(
    alloc: Global,
    files: &mut F,
    name: &str,
    at: u64,
    pages: &mut PageSet,
    block: &mut [u8],
) -> Result<(), FileError>
    requires small { length pages.old.pages < 2 ^ 32 }
    requires early { at ≤ 2 ^ 63 }
    requires room { length block.old ≡ block_size }
    ensures bytes { OnOk result (Tells (F.known files.old).health → (content : List ℕ) →
        get (F.known files.old).saved name.now ≡ Some content →
        (flat_of pages.new.pages).bytes ≡ take (4096 * length pages.old.pages) (drop at content)) }
    ensures reserved { OnOk result ((flat_of pages.new.pages).reserved ≡ (flat_of pages.old.pages).reserved) }
    ensures marks { marks_of pages.new.pages ≡ marks_of pages.old.pages }
    ensures count { length pages.new.pages ≡ length pages.old.pages }
    ensures same { Tells (F.known files.old).health → SameFiles (F.known files.old) (F.known files.new) }
    ensures cause { FileCause result (F.known files.old).health.faults (F.known files.new).health.faults }
    ensures lasts { Lasts (F.known files.old).health (F.known files.new).health }
{
    let size = PAGE_SIZE * pages.len();
    let mut done = 0;
    while done < size {
        let count = BLOCK_SIZE.min(size - done);
        let Ok(()) = files.read_at(name, at + done as u64, &mut block[..count]) else {
            return Err(FileError::Fault);
        };
        let Ok(()) = pages.load(alloc, done, &block[..count]) else {
            return Err(FileError::OutOfMemory);
        };
        done += count;
    }
    Ok(())
}
