// All pages of guest memory.
ghost use Rattle.std.specs.Prelude.{◌≡◌, ◌≤◌, ◌<◌, ◌+◌, ◌-◌, ◌*◌, ◌%◌, ◌^◌, ◌++◌, ℕ, false, true, length, max, replicate, take, drop};
ghost use Rattle.std.specs.Prelude.{slice_set, slice_index_or, IfOk, IfSome, MatchOption, None, OnErr, OnOk};
ghost use Rattle.vm_types.specs.declared.ids.PlaceId.{PlaceId};
ghost use Rattle.guest_memory.specs.Memory.{touch};
ghost use Rattle.guest_memory.specs.Route.{access_place, page_of};
ghost use Rattle.guest_pages.specs.Pages.{PageValue, cleared, empty_memory, flat_of, held_at, loaded, marks_of};
ghost use Rattle.guest_pages.specs.Pages.{new_pages, page_holding, page_touch};
ghost use Rattle.guest_pages.specs.Made.{Spends, is_made, is_ready};
ghost use Rattle.guest_pages.specs.Marks.{marked_from, marks_after};
ghost use Rattle.guest_pages.specs.Words.{is_marked_unreserved_at, pages_at, place_among, read_of, read_reply, served, write_of, write_reply};

mod blocks;
mod code;
mod parting;
mod room;

use crate::blank::Blank;
use crate::slot::Slot;
use blocks::{clear_all, clear_blocks, forget, marked_in, next_held, note, note_held, note_page};
pub use code::CodePage;
use guest_memory::{PAGE_SIZE, RAM_START};
pub use parting::mark_made;
use rv_rows::Width;
use std::alloc::{AllocError, Global};
use std::marker::Model;
use vm_types::{ActorId, GuestAddr, Op, Reply};

/// The pages in order, which contracts see as the list of their values, and by `flat_of` as the one memory; and how many spare
/// ones there are, from which pages are made. `owned` is how many are made or spare, which acts don't change. `blocks` has a flag for
/// 64 pages, which is set where one of them may be marked, and `held` one that is set where a hart may have something reserved in one.
#[derive(Drop)]
pub struct PageSet {
    pages: Vec<Slot>,
    spare: Vec<Blank>,
    owned: usize,
    blocks: Vec<bool>,
    held: Vec<bool>,
}

impl Model for PageSet {
    ghost use Rattle.std.specs.Prelude.{length};
    ghost use Rattle.guest_pages.specs.Made.{PagesValue};
    ghost use Rattle.guest_pages.specs.Flat.{IsSet};

    ghost Value = { PagesValue };

    ghost view = { λ s. record { pages = s.pages.items; spare = length s.spare.items } };

    ghost invariant = { λ s. IsSet s.pages.items (length s.spare.items) s.owned s.blocks.items s.held.items };
}

impl PageSet {
    /// So many pages of zeros, none of which is made, and none spare.
    pub fn new(alloc: Global, count: u32) -> Result<PageSet, AllocError>
        ensures pages { IfOk result (λ set. set.pages ≡ new_pages 0 count) }
        ensures memory { IfOk result (λ set. flat_of set.pages ≡ empty_memory count) }
        ensures count { IfOk result (λ set. length set.pages ≡ count) }
        ensures marks { IfOk result (λ set. marks_of set.pages ≡ replicate count false) }
        ensures spare { IfOk result (λ set. set.spare ≡ 0) }
    {
        let blocks = clear_blocks(alloc, count as usize / 64 + 1)?;
        let held = clear_blocks(alloc, count as usize / 64 + 1)?;
        let mut pages = Vec::with_capacity(alloc, count as usize)?;
        for number in 0..count {
            pages.push(Slot::new(number))?;
        }
        Ok(PageSet {
            pages,
            spare: Vec::new(alloc),
            owned: 0,
            blocks,
            held,
        })
    }

    /// How many pages there are.
    pub fn len(&self) -> usize
        ensures pages { result ≡ length self.now.pages }
        ensures bytes { length (flat_of self.now.pages).bytes ≡ 4096 * result }
        ensures slots { length (flat_of self.now.pages).reserved ≡ 32 * result }
    {
        self.pages.len()
    }

    /// Whether the page of this number is made; one that there isn't counts as made.
    pub fn is_made(&self, number: usize) -> bool
        ensures { result ≡ is_made self.now.pages number }
    {
        if number >= self.pages.len() {
            return true;
        }
        self.pages[number].is_made()
    }

    /// Whether the page of this number is marked.
    pub fn is_marked(&self, number: usize) -> bool
        requires { number < length self.now.pages }
        ensures { result ≡ slice_index_or (marks_of self.now.pages) number false }
    {
        self.pages[number].is_marked()
    }

    /// The bytes of the page of this number.
    pub fn page_bytes(&self, number: usize) -> &[u8]
        requires { number < length self.now.pages }
        ensures bytes { result.now ≡ take 4096 (drop (4096 * number) (flat_of self.now.pages).bytes) }
        ensures size { length result.now ≡ 4096 }
    {
        self.pages[number].bytes()
    }

    /// The act of this actor, which is on this page. It takes no memory but a spare page.
    pub fn act(&mut self, number: usize, actor: ActorId, op: &Op) -> Reply
        requires place { access_place (length (flat_of self.old.pages).bytes) op.now ≡ PlaceId.Page number }
        requires ready { is_ready self.old (PlaceId.Page number) ≡ true }
        ensures number { number < length self.old.pages }
        ensures reply { result ≡ (touch (flat_of self.old.pages) actor op.now).0 }
        ensures memory { flat_of self.new.pages ≡ (touch (flat_of self.old.pages) actor op.now).1 }
        ensures page { (d : PageValue) → result ≡ (page_touch (slice_index_or self.old.pages number d) actor op.now).0 }
        ensures pages { (d : PageValue) → self.new.pages ≡
            slice_set self.old.pages number (page_touch (slice_index_or self.old.pages number d) actor op.now).1 }
        ensures marks { marks_of self.new.pages ≡ marks_after (PlaceId.Page number) (marks_of self.old.pages) op.now result }
        ensures len { length self.new.pages ≡ length self.old.pages }
        ensures spends { Spends 1 self.old self.new }
    {
        let page = &mut self.pages[number];
        let reply = page.act(&mut self.spare, actor, op);
        note_page(&mut self.blocks, number, page);
        note_held(&mut self.held, number, page);
        reply
    }

    // The number of the page that has these bytes, or `None` where none has all of them.
    #[inline(always)]
    fn find(&self, at: GuestAddr, len: usize) -> Option<usize>
        requires some { 1 ≤ len }
        requires few { len ≤ 4096 }
        ensures { MatchOption result
            (page_of (length (flat_of self.now.pages).bytes) at len ≡ PlaceId.Out)
            (λ number. page_of (length (flat_of self.now.pages).bytes) at len ≡ PlaceId.Page number) }
    {
        if at < RAM_START {
            return None;
        }
        let offset = at - RAM_START;
        let number = offset / 4096;
        if number < self.len() as u64 && offset % 4096 + len as u64 <= 4096 {
            Some(number as usize)
        } else {
            None
        }
    }

    /// The word of this width at an address, the lowest byte first, or `None` where no page has all of its bytes.
    #[inline(always)]
    pub fn read_word(&self, at: GuestAddr, width: Width) -> Option<u64>
        ensures { (actor : ActorId) → read_reply width result ≡ (served self.now.pages actor (read_of width at)).0 }
    {
        let Some(number) = self.find(at, width.bytes()) else {
            return None;
        };
        Some(self.pages[number].read_word(at, width))
    }

    /// Writes the low bytes of a word, the lowest first, where a page has all of them, and answers whether one has. It takes no
    /// memory but a spare page.
    #[inline(always)]
    pub fn write_word(&mut self, writer: ActorId, at: GuestAddr, word: u64, width: Width) -> bool
        requires { is_ready self.old (place_among self.old.pages (write_of width at word)) ≡ true }
        ensures reply { write_reply result ≡ (served self.old.pages writer (write_of width at word)).0 }
        ensures memory { flat_of self.new.pages ≡ (served self.old.pages writer (write_of width at word)).1 }
        ensures pages { (d : PageValue) → self.new.pages ≡
            pages_at (place_among self.old.pages (write_of width at word)) d self.old.pages writer (write_of width at word) }
        ensures marks { marks_of self.new.pages ≡ marks_after (place_among self.old.pages (write_of width at word))
            (marks_of self.old.pages) (write_of width at word) (write_reply result) }
        ensures left { result ≡ false → self.new ≡ self.old }
        ensures count { length self.new.pages ≡ length self.old.pages }
        ensures spends { Spends 1 self.old self.new }
    {
        let Some(number) = self.find(at, width.bytes()) else {
            return false;
        };
        self.pages[number].write_word(&mut self.spare, writer, at, word, width);
        note(&mut self.blocks, number);
        true
    }

    /// The same where the page is marked and no hart has anything reserved in it, as most pages that are written. Answers whether it is
    /// written; else nothing is changed. It takes no memory.
    #[inline(always)]
    pub fn write_marked(&mut self, at: GuestAddr, word: u64, width: Width) -> bool
        ensures answer { result ≡ is_marked_unreserved_at (place_among self.old.pages (write_of width at word)) self.old.pages }
        ensures reply { result ≡ true → (writer : ActorId) → write_reply true ≡ (served self.old.pages writer (write_of width at word)).0 }
        ensures memory { result ≡ true → (writer : ActorId) → flat_of self.new.pages ≡ (served self.old.pages writer (write_of width at word)).1 }
        ensures marks { result ≡ true → marks_of self.new.pages ≡ marks_after (place_among self.old.pages (write_of width at word))
            (marks_of self.old.pages) (write_of width at word) (write_reply true) }
        ensures left { result ≡ false → self.new ≡ self.old }
        ensures count { length self.new.pages ≡ length self.old.pages }
        ensures spends { Spends 0 self.old self.new }
    {
        match self.find(at, width.bytes()) {
            Some(number) => self.pages[number].write_marked(at, word, width),
            None => false,
        }
    }

    /// The numbers of the pages that are marked, in rising order.
    pub fn marked(&self, alloc: Global) -> Result<Vec<u32>, AllocError>
        requires { length self.now.pages < 2 ^ 32 }
        ensures { IfOk result (λ numbers. numbers.items ≡ marked_from 0 (marks_of self.now.pages)) }
    {
        marked_in(alloc, &self.pages, &self.blocks)
    }

    /// Takes every mark away.
    pub fn clear_marks(&mut self)
        ensures pages { self.new ≡ record self.old { pages = cleared self.old.pages } }
        ensures memory { flat_of self.new.pages ≡ flat_of self.old.pages }
        ensures marks { marks_of self.new.pages ≡ replicate (length self.old.pages) false }
    {
        clear_all(&mut self.pages, &self.blocks);
        forget(&mut self.blocks);
    }

    // Puts a piece into one page.
    fn patch(
        &mut self,
        alloc: Global,
        number: usize,
        offset: usize,
        piece: &[u8],
    ) -> Result<(), AllocError>
        requires number { number < length self.old.pages }
        requires inside { offset + length piece.now ≤ 4096 }
        ensures memory { OnOk result (
            flat_of self.new.pages ≡ loaded (4096 * number + offset) piece.now (flat_of self.old.pages)) }
        ensures marks { marks_of self.new.pages ≡ marks_of self.old.pages }
        ensures pages { length self.new.pages ≡ length self.old.pages }
        ensures spare { self.new.spare ≡ self.old.spare }
    {
        match self.pages[number].patch(alloc, offset, piece) {
            Ok(made) => {
                self.owned += made;
                Ok(())
            }
            Err(_) => Err(AllocError),
        }
    }

    /// Puts a block into memory at an offset from its start, over as many pages as it needs, and marks nothing. Of these each one that
    /// isn't made is made where the block has a byte for it that isn't 0.
    ///
    /// Errors: want of memory, and then any of its pieces may be there.
    pub fn load(&mut self, alloc: Global, offset: usize, block: &[u8]) -> Result<(), AllocError>
        requires inside { offset + length block.now ≤ 4096 * length self.old.pages }
        requires small { length self.old.pages < 2 ^ 52 }
        ensures memory { OnOk result (flat_of self.new.pages ≡ loaded offset block.now (flat_of self.old.pages)) }
        ensures marks { marks_of self.new.pages ≡ marks_of self.old.pages }
        ensures pages { length self.new.pages ≡ length self.old.pages }
        ensures spare { self.new.spare ≡ self.old.spare }
    {
        let _pages = &self.pages;
        let mut done = 0;
        while done < block.len() {
            let at = offset + done;
            let inner = at % PAGE_SIZE;
            let count = (PAGE_SIZE - inner).min(block.len() - done);
            let Ok(()) = self.patch(alloc, at / PAGE_SIZE, inner, &block[done..done + count]) else {
                return Err(AllocError);
            };
            done += count;
        }
        Ok(())
    }

    /// The hart has the granule at this offset of a page reserved, and what it had there before is gone. This marks
    /// nothing, and takes no memory but a spare page.
    pub fn hold(&mut self, number: usize, hart: u8, offset: u16)
        requires number { number < length self.old.pages }
        requires hart { hart < 32 }
        requires inside { offset < 4096 }
        requires granule { offset % 8 ≡ 0 }
        requires ready { is_ready self.old (PlaceId.Page number) ≡ true }
        ensures pages { (d : PageValue) → self.new.pages ≡
            slice_set self.old.pages number (page_holding hart offset (slice_index_or self.old.pages number d)) }
        ensures memory { flat_of self.new.pages ≡ held_at (32 * number + hart) offset (flat_of self.old.pages) }
        ensures marks { marks_of self.new.pages ≡ marks_of self.old.pages }
        ensures count { length self.new.pages ≡ length self.old.pages }
        ensures spends { Spends 1 self.old self.new }
    {
        self.pages[number].hold(&mut self.spare, hart, offset);
        note(&mut self.held, number);
    }

    /// The first page from this number on in which a hart may have something reserved, or how many pages there are. It looks at one flag
    /// for 64 pages.
    pub fn next_reserved(&self, from: usize) -> usize
        requires { from ≤ length self.now.pages }
        ensures on { from ≤ result }
        ensures most { result ≤ length self.now.pages }
        ensures none { drop (32 * from) (flat_of self.now.pages).reserved
            ≡ replicate (32 * (result - from)) None ++ drop (32 * result) (flat_of self.now.pages).reserved }
    {
        next_held(&self.pages, &self.held, from)
    }

    /// For each hart that there can be, the offset of the granule that it has reserved in the page of this number. `None` where no hart
    /// has one.
    pub fn some_reserved(&self, number: usize) -> Option<&[Option<u16>]>
        requires { number < length self.now.pages }
        ensures slots { MatchOption result
            (take 32 (drop (32 * number) (flat_of self.now.pages).reserved) ≡ replicate 32 None)
            (λ slots. slots.now ≡ take 32 (drop (32 * number) (flat_of self.now.pages).reserved)) }
        ensures harts { IfSome result (λ slots. length slots.now ≡ 32) }
    {
        self.pages[number].some_reserved()
    }
}
