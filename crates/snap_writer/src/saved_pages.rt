// The pages of a memory that are written.
ghost use Rattle.std.specs.Prelude.{◌≡◌, ◌≤◌, ◌<◌, ◌+◌, ◌*◌, ◌%◌, ◌^◌, nat_lt, true, length, take, drop, option_map, is_some, IfSome};
ghost use Rattle.std.specs.List.{list_all};
ghost use Rattle.guest_pages.specs.Pages.{flat_of};
ghost use Rattle.snap_diff.specs.Copies.{pages_at};
ghost use Rattle.snap_writer.specs.Selected.{are_there};

use guest_memory::PAGE_SIZE;
use guest_pages::PageSet;
use std::marker::Model;

/// Pages of a memory that are to be written, all of them or some; contracts see their bytes, one page behind the other.
#[derive(Drop)]
pub struct SavedPages<'a> {
    memory: &'a PageSet,
    numbers: Option<&'a [u32]>,
}

impl<'a> Model for SavedPages<'a> {
    ghost use Rattle.std.specs.Prelude.{◌≡◌, ◌<◌, ◌^◌, true, List, ℕ, length, option_map};
    ghost use Rattle.guest_pages.specs.Pages.{flat_of};
    ghost use Rattle.snap_writer.specs.Selected.{can_select, selected};

    ghost Value = { List ℕ };

    ghost view = { λ s. selected (option_map (λ t. t.now) s.numbers) (flat_of s.memory.now.pages).bytes };

    ghost invariant = { λ s. (length s.memory.now.pages < 2 ^ 32)
        × (can_select (option_map (λ t. t.now) s.numbers) (length s.memory.now.pages) ≡ true) };
}

impl<'a> SavedPages<'a> {
    /// All of them.
    pub fn all(memory: &'a PageSet) -> SavedPages<'a>
        requires { length memory.now.pages < 2 ^ 32 }
        ensures { result ≡ (flat_of memory.now.pages).bytes }
    {
        SavedPages {
            memory,
            numbers: None,
        }
    }

    /// Those of these numbers. `None` where one is no page's, or there are more of them than pages.
    pub fn some(memory: &'a PageSet, numbers: &'a [u32]) -> Option<SavedPages<'a>>
        requires { length memory.now.pages < 2 ^ 32 }
        ensures pages { IfSome result (λ pages. pages ≡ pages_at numbers.now (flat_of memory.now.pages).bytes) }
        ensures there { is_some result ≡ are_there numbers.now (length memory.now.pages) }
    {
        if are_there(numbers, memory.len()) {
            Some(SavedPages {
                memory,
                numbers: Some(numbers),
            })
        } else {
            None
        }
    }

    /// How many bytes they are: those of so many whole pages.
    pub fn len(&self) -> usize
        ensures len { result ≡ length self.now }
        ensures whole { result % 4096 ≡ 0 }
        ensures most { result ≤ 4096 * 2 ^ 32 }
    {
        let all = PAGE_SIZE * self.memory.len();
        match self.numbers {
            None => all,
            Some(numbers) => PAGE_SIZE * numbers.len(),
        }
    }

    /// As many of their bytes as `out` has, from an offset on. Both are those of whole pages.
    pub fn copy_out(&self, offset: usize, out: &mut [u8])
        requires from { offset % 4096 ≡ 0 }
        requires whole { length out.old % 4096 ≡ 0 }
        requires inside { offset + length out.old ≤ length self.now }
        ensures { out.new ≡ take (length out.old) (drop offset self.now) }
    {
        let _pages = self.memory.len();
        match self.numbers {
            None => self.memory.copy_out(offset, out),
            Some(numbers) => copy_pages(self.memory, numbers, offset / PAGE_SIZE, out),
        }
    }
}

fn are_there(numbers: &[u32], count: usize) -> bool
    ensures { result ≡ are_there numbers.now count }
{
    numbers.len() <= count && are_below(numbers, count)
}

fn are_below(numbers: &[u32], count: usize) -> bool
    ensures { result ≡ list_all (λ n. nat_lt n count) numbers.now }
{
    numbers.iter().all(|number| (*number as usize) < count)
}

// The pages of these numbers, from one of them on, as many as `out` has.
fn copy_pages(memory: &PageSet, numbers: &[u32], first: usize, out: &mut [u8])
    requires small { length memory.now.pages < 2 ^ 32 }
    requires bytes { length (flat_of memory.now.pages).bytes ≡ 4096 * length memory.now.pages }
    requires there { list_all (λ n. nat_lt n (length memory.now.pages)) numbers.now ≡ true }
    requires whole { length out.old % 4096 ≡ 0 }
    requires inside { 4096 * first + length out.old ≤ 4096 * length numbers.now }
    requires few { length numbers.now ≤ 2 ^ 32 }
    ensures { out.new ≡ take (length out.old) (drop (4096 * first) (pages_at numbers.now (flat_of memory.now.pages).bytes)) }
{
    for page in 0..out.len() / PAGE_SIZE {
        let at = PAGE_SIZE * page;
        let from = PAGE_SIZE * numbers[first + page] as usize;
        memory.copy_out(from, &mut out[at..at + PAGE_SIZE]);
    }
}
