// Which blocks of 64 pages may have one that is marked, and in which a hart may have something reserved: an act sets the flag of its page's block, so
// that such pages are found without a look at each page.
ghost use Rattle.std.specs.Prelude.{◌≡◌, ◌+◌, ◌*◌, ◌/◌, ◌<◌, ◌≤◌, ◌^◌, ℕ, [], ◌∷◌, true, false, length, slice_index_or, drop, IfOk, IfSome, MatchOption};
ghost use Rattle.guest_pages.specs.Flat.{AreFree, AreSummed, has_reserved, reserved_of};
ghost use Rattle.guest_pages.specs.Marks.{marked_from};
ghost use Rattle.guest_pages.specs.Pages.{cleared, marks_of};

use crate::slot::Slot;
use std::alloc::{AllocError, Global};

/// So many blocks without a flag.
pub fn clear_blocks(alloc: Global, count: usize) -> Result<Vec<bool>, AllocError> {
    let mut blocks = Vec::with_capacity(alloc, count)?;
    for _block in 0..count {
        blocks.push(false)?;
    }
    Ok(blocks)
}

/// Takes every flag away.
pub fn forget(blocks: &mut [bool]) {
    for block in blocks.iter_mut() {
        *block = false;
    }
}

// Whether a page in the block of this one may be such a page.
#[tactic(auto, using(crate::proofs::Blocks::past_all))]
fn may_be(blocks: &[bool], number: usize) -> bool
    ensures { result ≡ slice_index_or blocks.now (number / 64) true }
{
    let block = number / 64;
    if block >= blocks.len() {
        return true;
    }
    blocks[block]
}

/// Sets the flag of the block of this page.
#[tactic(auto, using(crate::proofs::Blocks::noted_own, crate::proofs::Blocks::noted_more, crate::proofs::Blocks::past_all))]
#[inline]
pub fn note(blocks: &mut Vec<bool>, number: usize)
    ensures more { (k : ℕ) → slice_index_or blocks.old.items k true ≡ true → slice_index_or blocks.new.items k true ≡ true }
    ensures own { slice_index_or blocks.new.items (number / 64) true ≡ true }
{
    let block = number / 64;
    if block < blocks.len() {
        blocks[block] = true;
    }
}

/// The same if it is marked.
#[inline]
pub fn note_page(blocks: &mut Vec<bool>, number: usize, page: &Slot)
    ensures more { (k : ℕ) → slice_index_or blocks.old.items k true ≡ true → slice_index_or blocks.new.items k true ≡ true }
    ensures own { page.now.marked ≡ true → slice_index_or blocks.new.items (number / 64) true ≡ true }
{
    if page.is_marked() {
        note(blocks, number);
    }
}

/// The same for all pages. It looks at those alone whose block has no flag yet.
pub fn note_all(blocks: &mut Vec<bool>, pages: &[Slot])
    ensures { AreSummed (marks_of pages.now) blocks.new.items }
{
    for number in 0..pages.len() {
        note_new(blocks, number, &pages[number]);
    }
}

fn note_new(blocks: &mut Vec<bool>, number: usize, page: &Slot)
    ensures more { (k : ℕ) → slice_index_or blocks.old.items k true ≡ true → slice_index_or blocks.new.items k true ≡ true }
    ensures own { page.now.marked ≡ true → slice_index_or blocks.new.items (number / 64) true ≡ true }
{
    if !may_be(blocks, number) {
        note_page(blocks, number, page);
    }
}

/// Sets the flag of the block of this page if a hart has something reserved in it.
#[tactic(auto, using(crate::proofs::Reserved::unreserved_page))]
pub fn note_held(held: &mut Vec<bool>, number: usize, page: &Slot)
    ensures more { (k : ℕ) → slice_index_or held.old.items k true ≡ true → slice_index_or held.new.items k true ≡ true }
    ensures own { has_reserved page.now.reserved ≡ true → slice_index_or held.new.items (number / 64) true ≡ true }
{
    match page.some_reserved() {
        Some(_) => note(held, number),
        None => {}
    }
}

/// The same for all pages, as `note_all`.
pub fn note_all_held(held: &mut Vec<bool>, pages: &[Slot])
    ensures { AreSummed (reserved_of pages.now) held.new.items }
{
    for number in 0..pages.len() {
        note_new_held(held, number, &pages[number]);
    }
}

fn note_new_held(held: &mut Vec<bool>, number: usize, page: &Slot)
    ensures more { (k : ℕ) → slice_index_or held.old.items k true ≡ true → slice_index_or held.new.items k true ≡ true }
    ensures own { has_reserved page.now.reserved ≡ true → slice_index_or held.new.items (number / 64) true ≡ true }
{
    if !may_be(held, number) {
        note_held(held, number, page);
    }
}

/// The first page from this number on in whose block a hart may have something reserved, or how many pages there are.
#[tactic(auto, using(crate::proofs::Reserved::free_on, crate::proofs::Reserved::free_to_end))]
pub fn next_held(pages: &[Slot], held: &[bool], from: usize) -> usize
    requires from { from ≤ length pages.now }
    requires holds { AreSummed (reserved_of pages.now) held.now }
    ensures on { from ≤ result }
    ensures most { result ≤ length pages.now }
    ensures free { AreFree (reserved_of pages.now) from result }
{
    let mut number = from;
    while number < pages.len() {
        if may_be(held, number) {
            return number;
        }
        number = (number / 64 + 1) * 64;
    }
    pages.len()
}

// The first page from this number on that is marked.
#[tactic(auto, using(crate::proofs::Blocks::skipped_on, crate::proofs::Blocks::passed_on, crate::proofs::Blocks::found_on, crate::proofs::Blocks::none_on))]
fn next_marked(pages: &[Slot], blocks: &[bool], from: usize) -> Option<usize>
    requires { AreSummed (marks_of pages.now) blocks.now }
    ensures there { IfSome result (λ number. (from ≤ number) × (number < length pages.now)) }
    ensures next { MatchOption result
        (marked_from from (drop from (marks_of pages.now)) ≡ [])
        (λ number. marked_from from (drop from (marks_of pages.now)) ≡ number ∷ marked_from (number + 1) (drop (number + 1) (marks_of pages.now))) }
{
    let mut number = from;
    while number < pages.len() {
        if !may_be(blocks, number) {
            number = (number / 64 + 1) * 64;
            continue;
        }
        if pages[number].is_marked() {
            return Some(number);
        }
        number += 1;
    }
    None
}

/// The numbers of the pages that are marked, in rising order.
pub fn marked_in(alloc: Global, pages: &[Slot], blocks: &[bool]) -> Result<Vec<u32>, AllocError>
    requires few { length pages.now < 2 ^ 32 }
    requires summed { AreSummed (marks_of pages.now) blocks.now }
    ensures { IfOk result (λ numbers. numbers.items ≡ marked_from 0 (marks_of pages.now)) }
{
    let mut numbers = Vec::new(alloc);
    let mut from = 0;
    while let Some(number) = next_marked(pages, blocks, from) {
        numbers.push(number as u32)?;
        from = number + 1;
    }
    Ok(numbers)
}

/// Takes every mark away.
pub fn clear_all(pages: &mut [Slot], blocks: &[bool])
    requires { AreSummed (marks_of pages.old) blocks.now }
    ensures { pages.new ≡ cleared pages.old }
{
    let mut from = 0;
    while let Some(number) = next_marked(pages, blocks, from) {
        pages[number].clear_mark();
        from = number + 1;
    }
}
