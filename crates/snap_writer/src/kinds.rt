// Which pages have a byte that isn't zero.
ghost use Rattle.std.specs.Prelude.{◌≡◌, ◌/◌, ◌++◌, ◌∷◌, [], if◌then◌else◌, IfOk, OnOk, length};
ghost use Rattle.snap_diff.specs.Runs.{chosen, kinds_of};

use crate::saved_pages::SavedPages;
use gate_file::zeros;
use guest_memory::PAGE_SIZE;
use snap_diff::is_filled;
use std::alloc::{AllocError, Global};

impl<'a> SavedPages<'a> {
    /// Of each whether it has a byte that isn't zero.
    pub fn kinds(&self, alloc: Global) -> Result<Vec<bool>, AllocError>
        ensures { IfOk result (λ kinds. kinds.items ≡ kinds_of (length self.now / 4096) self.now) }
    {
        kinds_of(alloc, self)
    }
}

#[tactic(auto, using(crate::proofs::ByKind::kinds_none, crate::proofs::ByKind::kinds_more, crate::proofs::ByKind::kinds_end))]
fn kinds_of(alloc: Global, pages: &SavedPages<'_>) -> Result<Vec<bool>, AllocError>
    ensures { IfOk result (λ kinds. kinds.items ≡ kinds_of (length pages.now / 4096) pages.now) }
{
    let mut page = zeros(alloc, PAGE_SIZE)?;
    let mut kinds = Vec::new(alloc);
    for i in 0..pages.len() / PAGE_SIZE {
        pages.copy_out(PAGE_SIZE * i, &mut page);
        kinds.push(is_filled(&page))?;
    }
    Ok(kinds)
}

// A number at the end, if it is of this kind.
fn put_chosen(some: &mut Vec<u32>, number: u32, kind: bool) -> Result<(), AllocError>
    ensures { OnOk result (some.new.items ≡ some.old.items ++ (if kind then number ∷ [] else [])) }
{
    if kind {
        some.push(number)?;
    }
    Ok(())
}

/// Those of these numbers that are of this kind.
#[tactic(auto, using(crate::proofs::ByKind::chosen_more, crate::proofs::ByKind::chosen_end))]
pub fn chosen(alloc: Global, numbers: &[u32], kinds: &[bool]) -> Result<Vec<u32>, AllocError>
    requires { length kinds.now ≡ length numbers.now }
    ensures { IfOk result (λ some. some.items ≡ chosen numbers.now kinds.now) }
{
    let mut some = Vec::new(alloc);
    for i in 0..numbers.len() {
        put_chosen(&mut some, numbers[i], kinds[i])?;
    }
    Ok(some)
}
