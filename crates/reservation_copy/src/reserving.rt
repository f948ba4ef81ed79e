// What is reserved in memory, as a copy has it, and back.
ghost use Rattle.std.specs.Prelude.{◌≡◌, ◌<◌, ◌≤◌, ◌+◌, ◌*◌, ◌^◌, ◌++◌, true, IfOk, List, OnOk, drop, length};
ghost use Rattle.std.specs.List.{list_all};
ghost use Rattle.guest_pages.specs.Made.{HasRoom};
ghost use Rattle.guest_pages.specs.Pages.{flat_of, marks_of};
ghost use Rattle.snap_state.specs.Valid.{is_reserved};
ghost use Rattle.flat_snapshot.specs.Carried.{slots_with};
ghost use Rattle.flat_snapshot.specs.Copies.{reservations_from};

use file_format::Items;
use guest_pages::PageSet;
use snap_state::Reservation;
use std::alloc::{AllocError, Global};

/// What is reserved in the pages, by page and then by hart: a page has a slot for each hart that there can be. It looks at those pages alone in
/// whose block of 64 a hart may have something.
#[tactic(auto, using(crate::proofs::Listed::all_listed))]
pub fn reservations_of(alloc: Global, pages: &PageSet) -> Result<Items<Reservation>, AllocError>
    requires { length pages.now.pages ≤ 2 ^ 28 }
    ensures { IfOk result (λ items. items ≡ reservations_from 0 (flat_of pages.now.pages).reserved) }
{
    let mut items = Items::new(alloc);
    let mut page = pages.next_reserved(0);
    while page < pages.len() {
        add_reserved(&mut items, pages, page)?;
        page = pages.next_reserved(page + 1);
    }
    Ok(items)
}

// What is reserved in the page of this number, behind the others.
#[tactic(auto, using(crate::proofs::Listed::page_free, crate::proofs::Listed::page_more))]
fn add_reserved(
    items: &mut Items<Reservation>,
    pages: &PageSet,
    page: usize,
) -> Result<(), AllocError>
    requires there { page < length pages.now.pages }
    requires few { length pages.now.pages ≤ 2 ^ 28 }
    ensures { OnOk result ((all : List Reservation) →
        items.old ++ reservations_from (32 * page) (drop (32 * page) (flat_of pages.now.pages).reserved) ≡ all →
        items.new ++ reservations_from (32 * (page + 1)) (drop (32 * (page + 1)) (flat_of pages.now.pages).reserved) ≡ all) }
{
    if let Some(slots) = pages.some_reserved(page) {
        add_page(items, page as u32, slots)?;
    }
    Ok(())
}

// What is reserved in the slots of this page, behind the others.
#[tactic(auto, using(crate::proofs::Listed::slot_free, crate::proofs::Listed::slot_more))]
fn add_page(
    items: &mut Items<Reservation>,
    page: u32,
    slots: &[Option<u16>],
) -> Result<(), AllocError>
    requires { length slots.now ≡ 32 }
    ensures { OnOk result (items.new ≡ items.old ++ reservations_from (32 * page) slots.now) }
{
    for hart in 0..slots.len() {
        if let Some(offset) = slots[hart] {
            items.push(Reservation {
                page,
                hart: hart as u32,
                offset: offset as u32,
            })?;
        }
    }
    Ok(())
}

/// Reserves all of these in the pages, and marks none. They are of pages and harts that are there, of which there are at most 32. For
/// each of them there is room: it takes no memory but spare pages.
#[tactic(auto, using(crate::proofs::Rooms::room_next))]
pub fn reserve(pages: &mut PageSet, harts: u64, reservations: &[Reservation])
    requires few { harts ≤ 32 }
    requires there { list_all (is_reserved (length pages.old.pages) harts) reservations.now ≡ true }
    requires room { HasRoom (length reservations.now) pages.old }
    ensures bytes { (flat_of pages.new.pages).bytes ≡ (flat_of pages.old.pages).bytes }
    ensures reserved { (flat_of pages.new.pages).reserved ≡ slots_with reservations.now (flat_of pages.old.pages).reserved }
    ensures marks { marks_of pages.new.pages ≡ marks_of pages.old.pages }
    ensures count { length pages.new.pages ≡ length pages.old.pages }
{
    let mut left = reservations;
    while let Some((first, others)) = left.split_first() {
        pages.hold(first.page as usize, first.hart as u8, first.offset as u16);
        left = others;
    }
}
