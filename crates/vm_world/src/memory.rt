// Bytes read out of guest memory.
ghost use Rattle.std.specs.Prelude.{◌≡◌, ◌≤◌, ◌^◌, length};
ghost use Rattle.std.specs.Prelude.{OnErr, OnOk, is_ok};
ghost use Rattle.guest_memory.specs.Memory.{read_from};
ghost use Rattle.guest_memory.specs.Ram.{is_ram};
ghost use Rattle.guest_pages.specs.Pages.{flat_of};

use crate::step_error::NotRam;
use guest_memory::{PAGE_SIZE, RAM_START, is_ram};
use guest_pages::PageSet;
use vm_types::GuestAddr;

/// Reads as many bytes as `out` has, from this address on, over as many pages as they are in.
pub fn read_pages(pages: &PageSet, at: GuestAddr, out: &mut [u8]) -> Result<(), NotRam>
    requires { length pages.now.pages ≤ 2 ^ 28 }
    ensures ram { is_ok result ≡ is_ram (length (flat_of pages.now.pages).bytes) at (length out.old) }
    ensures ok { OnOk result (out.new ≡ read_from (flat_of pages.now.pages) at (length out.old)) }
    ensures err { OnErr result (out.new ≡ out.old) }
{
    if !is_ram(PAGE_SIZE * pages.len(), at, out.len()) {
        return Err(NotRam);
    }
    pages.copy_out((at - RAM_START) as usize, out);
    Ok(())
}
