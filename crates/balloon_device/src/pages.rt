// Lists of pages.
ghost use Rattle.std.specs.Prelude.{◌≡◌, ◌<◌, ◌≤◌, ◌+◌, ◌^◌, IfSome, None, length, true};
ghost use Rattle.vq_split.specs.Chain.{is_inside};
ghost use Rattle.balloon_device.specs.Work.{list_left, zeros_left};

use dev_core::Collect;
use vq_split::{is_inside, value32};

/// The bytes of a page, and of the number of one.
const PAGE: u64 = 4096;

pub(crate) const NUMBER: usize = 4;

/// The first page to zero of those whose numbers are held, by its address, in a guest of so many pages. The numbers up to it are
/// passed; `None` where none is left.
pub(crate) fn next_page(list: &mut Collect, pages: u32) -> Option<u64>
    ensures page { IfSome result (λ at. list_left pages list.old ≡ zeros_left pages list.new 64 at) }
    ensures low { IfSome result (λ at. at + 4096 ≤ 2 ^ 45) }
    ensures inside { IfSome result (λ at. (is_inside pages at 4096 ≡ true) × (length list.new.held + 4 ≤ length list.old.held)) }
    ensures from { list.new.from ≡ list.old.from }
    ensures none { result ≡ None → (list_left pages list.new ≡ list_left pages list.old) × (length list.new.held < 4) }
{
    while NUMBER <= list.held.as_slice().len() {
        let number = value32(list.held.as_slice(), 0);
        list.held.skip(NUMBER);
        let at = number as u64 * PAGE;
        if is_inside(pages, at, PAGE) {
            return Some(at);
        }
    }
    None
}
