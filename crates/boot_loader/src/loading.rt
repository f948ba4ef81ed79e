// Loading into pages.
ghost use Rattle.std.specs.Prelude.{◌≡◌, ◌≤◌, ◌*◌, ◌^◌, IfErr, IfOk, OnOk, false, true, length, option_map, Some, ◌-◌};
ghost use Rattle.guest_memory.specs.Boot as boot;
ghost use Rattle.guest_memory.specs.Ram.{ram_start};
ghost use Rattle.guest_pages.specs.Pages.{flat_of, loaded, marks_of};
ghost use Rattle.boot_loader.specs.declared.booting.BootError as boot_error;
ghost use Rattle.boot_loader.specs.Loading.{have_room, loads_of, memory_with};

use crate::booting::BootError;
use crate::loads::Loads;
use guest_memory::{
    IMAGE_OFFSET, IMAGE_START, RAM_START, TREE_SIZE, do_loads_fit, initrd_start, tree_start,
};
use guest_pages::PageSet;
use std::alloc::{AllocError, Global};
use vm_types::GuestAddr;

/// Where the guest begins, and where it finds its device tree.
#[derive(Clone, Copy, Drop)]
pub struct Start {
    pub pc: GuestAddr,
    pub tree: GuestAddr,
}

fn initrd_len(initrd: &Option<&[u8]>) -> Option<u64>
    ensures { result ≡ option_map (λ t. length t.now) initrd.now }
{
    match initrd {
        Some(initrd) => Some(initrd.len() as u64),
        None => None,
    }
}

fn do_fit(mem_size_mib: u64, loads: &Loads<'_>) -> bool
    ensures { result ≡ have_room mem_size_mib (loads_of loads.now) }
{
    do_loads_fit(
        mem_size_mib,
        loads.image.len() as u64,
        initrd_len(&loads.initrd),
    ) && loads.tree.len() <= TREE_SIZE
}

fn load_initrd(
    alloc: Global,
    pages: &mut PageSet,
    mem_size_mib: u64,
    initrd: &[u8],
) -> Result<(), AllocError>
    requires pages { length pages.old.pages ≡ 256 * mem_size_mib }
    requires small { mem_size_mib ≤ 2 ^ 20 }
    requires low { boot.image_start ≤ boot.initrd_start mem_size_mib (length initrd.now) }
    ensures memory { OnOk result (flat_of pages.new.pages ≡ record (flat_of pages.old.pages) {
      bytes = boot.with_initrd mem_size_mib (Some initrd.now) (flat_of pages.old.pages).bytes;
    }) }
    ensures marks { marks_of pages.new.pages ≡ marks_of pages.old.pages }
    ensures pages { length pages.new.pages ≡ length pages.old.pages }
{
    let start = initrd_start(mem_size_mib, initrd.len() as u64);
    pages.load(alloc, (start - RAM_START as u128) as usize, initrd)
}

fn load_tree(
    alloc: Global,
    pages: &mut PageSet,
    mem_size_mib: u64,
    tree: &[u8],
) -> Result<(), AllocError>
    requires pages { length pages.old.pages ≡ 256 * mem_size_mib }
    requires small { mem_size_mib ≤ 2 ^ 20 }
    requires some { 1 ≤ mem_size_mib }
    requires room { length tree.now ≤ boot.tree_size }
    ensures memory { OnOk result (flat_of pages.new.pages ≡
        loaded (boot.tree_start mem_size_mib - ram_start) tree.now (flat_of pages.old.pages)) }
    ensures marks { marks_of pages.new.pages ≡ marks_of pages.old.pages }
    ensures pages { length pages.new.pages ≡ length pages.old.pages }
{
    let start = tree_start(mem_size_mib);
    pages.load(alloc, (start - RAM_START as u128) as usize, tree)
}

// Puts what is loaded, which fits, into memory.
fn load_all(
    alloc: Global,
    pages: &mut PageSet,
    mem_size_mib: u64,
    loads: &Loads<'_>,
) -> Result<(), AllocError>
    requires pages { length pages.old.pages ≡ 256 * mem_size_mib }
    requires small { mem_size_mib ≤ 2 ^ 20 }
    requires room { have_room mem_size_mib (loads_of loads.now) ≡ true }
    ensures memory { OnOk result (
        flat_of pages.new.pages ≡ memory_with mem_size_mib (loads_of loads.now) (flat_of pages.old.pages)) }
    ensures marks { marks_of pages.new.pages ≡ marks_of pages.old.pages }
    ensures pages { length pages.new.pages ≡ length pages.old.pages }
{
    pages.load(alloc, IMAGE_OFFSET, loads.image)?;
    if let Some(initrd) = loads.initrd {
        load_initrd(alloc, pages, mem_size_mib, initrd)?;
    }
    load_tree(alloc, pages, mem_size_mib, loads.tree)
}

/// Puts what is loaded into memory of so many MiB, at most 2^20, over what is there. A page is made for it where it has a byte that
/// isn't 0.
///
/// Errors: `NoRoom` where the image would reach the tree, the disk would start before the image ends, or the tree is
/// longer than its room of 65,536 bytes; then nothing changes. `OutOfMemory`, and then some of it may be there.
pub fn load(
    alloc: Global,
    pages: &mut PageSet,
    mem_size_mib: u64,
    loads: &Loads<'_>,
) -> Result<Start, BootError>
    requires pages { length pages.old.pages ≡ 256 * mem_size_mib }
    requires small { mem_size_mib ≤ 2 ^ 20 }
    ensures room { OnOk result (have_room mem_size_mib (loads_of loads.now) ≡ true) }
    ensures no_room { IfErr result (λ why. why ≡ boot_error.BootError.NoRoom →
        (have_room mem_size_mib (loads_of loads.now) ≡ false) × (pages.new ≡ pages.old)) }
    ensures memory { OnOk result (
        flat_of pages.new.pages ≡ memory_with mem_size_mib (loads_of loads.now) (flat_of pages.old.pages)) }
    ensures start { IfOk result (λ start.
        start ≡ record { pc = boot.image_start; tree = boot.tree_start mem_size_mib }) }
    ensures marks { marks_of pages.new.pages ≡ marks_of pages.old.pages }
    ensures pages { length pages.new.pages ≡ length pages.old.pages }
{
    if !do_fit(mem_size_mib, loads) {
        return Err(BootError::NoRoom);
    }
    let Ok(()) = load_all(alloc, pages, mem_size_mib, loads) else {
        return Err(BootError::OutOfMemory);
    };
    Ok(Start {
        pc: IMAGE_START,
        tree: tree_start(mem_size_mib) as u64,
    })
}
