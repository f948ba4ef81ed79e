// Bytes read out of pages.
ghost use Rattle.std.specs.Prelude.{◌≡◌, ◌≤◌, ◌<◌, ◌+◌, ◌*◌, ◌/◌, ◌%◌, ◌^◌, length, take, drop};
ghost use Rattle.guest_pages.specs.Pages.{flat_of};

use crate::page_set::PageSet;
use guest_memory::PAGE_SIZE;

impl PageSet {
    /// The bytes of memory from an offset on, as many as `out` has, over as many pages as they are in.
    pub fn copy_out(&self, offset: usize, out: &mut [u8])
        requires inside { offset + length out.old ≤ 4096 * length self.now.pages }
        requires small { length self.now.pages < 2 ^ 52 }
        ensures { out.new ≡ take (length out.old) (drop offset (flat_of self.now.pages).bytes) }
    {
        let _pages = self.len();
        copy_pages(self, offset, out);
    }
}

fn copy_pages(pages: &PageSet, offset: usize, out: &mut [u8])
    requires small { length pages.now.pages < 2 ^ 52 }
    requires whole { length (flat_of pages.now.pages).bytes ≡ 4096 * length pages.now.pages }
    requires inside { offset + length out.old ≤ 4096 * length pages.now.pages }
    ensures { out.new ≡ take (length out.old) (drop offset (flat_of pages.now.pages).bytes) }
{
    let mut done = 0;
    while done < out.len() {
        let from = offset + done;
        let count = (PAGE_SIZE - from % PAGE_SIZE).min(out.len() - done);
        out[done..done + count].copy_from_slice(piece(pages, from, count));
        done += count;
    }
}

// These bytes of memory, which are in one page.
fn piece(pages: &PageSet, from: usize, count: usize) -> &[u8]
    requires page { from / 4096 < length pages.now.pages }
    requires inside { from % 4096 + count ≤ 4096 }
    ensures bytes { result.now ≡ take count (drop from (flat_of pages.now.pages).bytes) }
    ensures size { length result.now ≡ count }
{
    let inner = from % PAGE_SIZE;
    &pages.page_bytes(from / PAGE_SIZE)[inner..inner + count]
}
