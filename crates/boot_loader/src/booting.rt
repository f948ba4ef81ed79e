// Memory as a start makes it.
ghost use Rattle.std.specs.Prelude.{◌≡◌, ◌≤◌, ◌*◌, ◌^◌, IfErr, IfOk, OnOk, false, length, replicate, true};
ghost use Rattle.guest_memory.specs.Boot as boot;
ghost use Rattle.guest_pages.specs.Pages.{flat_of, marks_of};
ghost use Rattle.boot_loader.specs.declared.booting.BootError as boot_error;
ghost use Rattle.boot_loader.specs.Loading.{have_room, loads_of};

use crate::loading::{Start, load};
use crate::loads::Loads;
use guest_pages::PageSet;
use std::alloc::{AllocError, Global};

const PAGES_OF_MIB: u32 = 256;

/// Why there is no memory to start in.
#[derive(Clone, Copy, Drop)]
pub enum BootError {
    /// What is loaded does not fit.
    NoRoom,
    OutOfMemory,
}

/// Memory with what is loaded, and where the guest begins in it.
#[derive(Drop)]
pub struct Booted {
    pub pages: PageSet,
    pub start: Start,
}

/// So many MiB of zeros, at most 2^20, with what is loaded in them and no page marked. Pages are made for that alone.
///
/// Errors: `NoRoom` exactly where `load` has it, unless memory is wanting first, and `OutOfMemory`.
pub fn boot(alloc: Global, mem_size_mib: u64, loads: &Loads<'_>) -> Result<Booted, BootError>
    requires { mem_size_mib ≤ 2 ^ 20 }
    ensures memory { IfOk result (λ booted.
        flat_of booted.pages.pages ≡ boot.boot_memory mem_size_mib (loads_of loads.now)) }
    ensures start { IfOk result (λ booted.
        booted.start ≡ record { pc = boot.image_start; tree = boot.tree_start mem_size_mib }) }
    ensures few { IfOk result (λ booted. length booted.pages.pages ≤ 2 ^ 28) }
    ensures marks { IfOk result (λ booted. marks_of booted.pages.pages ≡ replicate (256 * mem_size_mib) false) }
    ensures room { OnOk result (have_room mem_size_mib (loads_of loads.now) ≡ true) }
    ensures no_room { IfErr result (λ why.
        why ≡ boot_error.BootError.NoRoom → have_room mem_size_mib (loads_of loads.now) ≡ false) }
{
    let Ok(mut pages) = PageSet::new(alloc, PAGES_OF_MIB * mem_size_mib as u32) else {
        return Err(BootError::OutOfMemory);
    };
    match load(alloc, &mut pages, mem_size_mib, loads) {
        Ok(start) => Ok(Booted { pages, start }),
        Err(why) => Err(why),
    }
}
