// A page of a set, which is made when something is first left in it.
ghost use Rattle.std.specs.Prelude.{◌≡◌, ◌≤◌, ◌<◌, ◌+◌, ◌%◌, ◌||◌, ◌&&◌, not, if◌then◌else◌, true, None, IfOk, IfSome, MatchOption, OnErr, OnOk, drop, false, length, replicate, take};
ghost use Rattle.le_fields.specs.Fields.{bytes_of};
ghost use Rattle.rv_rows.specs.Loads.{width_bytes};
ghost use Rattle.guest_pages.specs.Made.{CanMake, Takes, are_zeros};
ghost use Rattle.guest_pages.specs.Marks.{leaves};
ghost use Rattle.guest_pages.specs.Pages.{is_marked_unreserved, is_within, made_page, new_page, page_holding, page_made, page_read, page_touch, page_written, patched, unmarked};

use crate::blank::Blank;
use crate::page::Page;
use crate::zeros::zeros;
use rv_rows::Width;
use std::alloc::{AllocError, Global};
use std::marker::Model;
use vm_types::{ActorId, GuestAddr, Op, Place, Reply};

// A page that has something in it, or the number of one that has only zeros and takes no memory.
#[derive(Drop)]
enum State {
    Unmade(u32),
    Made(Page),
}

/// A page of a set.
#[derive(Drop)]
pub struct Slot {
    state: State,
}

impl Model for Slot {
    ghost use Rattle.guest_pages.specs.Pages.{PageValue};
    ghost use Rattle.guest_pages.specs.Slots.{shown};

    ghost Value = { PageValue };

    ghost view = { λ s. shown s.state };
}

impl Slot {
    /// Zeros, which take no memory.
    pub fn new(number: u32) -> Slot
        ensures { result ≡ new_page number }
    {
        Slot {
            state: State::Unmade(number),
        }
    }

    pub fn is_made(&self) -> bool
        ensures { result ≡ self.now.made }
    {
        match &self.state {
            State::Made(page) => page.is_made(),
            State::Unmade(_) => false,
        }
    }

    pub fn bytes(&self) -> &[u8]
        ensures bytes { result.now ≡ self.now.bytes }
        ensures size { length result.now ≡ 4096 }
    {
        match &self.state {
            State::Made(page) => page.bytes(),
            State::Unmade(_) => zeros(),
        }
    }

    /// Whether an act wrote the page since the mark was cleared.
    pub fn is_marked(&self) -> bool
        ensures { result ≡ self.now.marked }
    {
        match &self.state {
            State::Made(page) => page.is_marked(),
            State::Unmade(_) => false,
        }
    }

    pub fn clear_mark(&mut self)
        ensures { self.new ≡ unmarked self.old }
    {
        match &mut self.state {
            State::Made(page) => page.clear_mark(),
            State::Unmade(_) => {}
        }
    }

    /// For each hart, the offset of the granule that it has reserved here. `None` where no hart has one.
    pub fn some_reserved(&self) -> Option<&[Option<u16>]>
        ensures slots { MatchOption result (self.now.reserved ≡ replicate 32 None) (λ slots. slots.now ≡ self.now.reserved) }
        ensures harts { IfSome result (λ slots. length slots.now ≡ 32) }
    {
        match &self.state {
            State::Made(page) => page.some_reserved(),
            State::Unmade(_) => None,
        }
    }

    /// The word of four bytes at an offset of a page that is made, the lowest byte first.
    #[inline(always)]
    pub fn word_at(&self, offset: usize) -> u32
        requires made { self.now.made ≡ true }
        requires inside { offset ≤ 4092 }
        ensures { bytes_of 4 result ≡ take 4 (drop offset self.now.bytes) }
    {
        match &self.state {
            State::Made(page) => page.word_at(offset),
            State::Unmade(_) => unreachable!(),
        }
    }

    /// The word of this width at an address, the lowest byte first.
    #[inline(always)]
    pub fn read_word(&self, at: GuestAddr, width: Width) -> u64
        requires { is_within self.now.number 4096 at (width_bytes width) ≡ true }
        ensures { bytes_of (width_bytes width) result ≡ page_read self.now at (width_bytes width) }
    {
        match &self.state {
            State::Made(page) => page.read_word(at, width),
            State::Unmade(_) => 0,
        }
    }

    // Makes the page of a blank.
    #[inline(never)]
    fn make_now(&mut self, spare: &mut Vec<Blank>)
        requires unmade { self.old.made ≡ false }
        requires blank { 1 ≤ length spare.old.items }
        ensures page { self.new ≡ page_made self.old }
        ensures spare { length spare.old.items ≡ length spare.new.items + 1 }
    {
        let number = match &self.state {
            State::Unmade(number) => *number,
            State::Made(page) => {
                let _is = page.is_made();
                unreachable!()
            }
        };
        let Some(blank) = spare.pop() else {
            unreachable!()
        };
        self.state = State::Made(blank.into_page(number));
    }

    /// Makes the page, of a blank if it isn't made.
    #[inline(always)]
    pub fn make(&mut self, spare: &mut Vec<Blank>)
        requires { CanMake self.old (length spare.old.items) }
        ensures page { self.new ≡ page_made self.old }
        ensures takes { Takes self.old self.new (length spare.old.items) (length spare.new.items) }
    {
        if !self.is_made() {
            self.make_now(spare);
        }
    }

    /// Writes the low bytes of a word, the lowest first, and marks the page.
    #[inline(always)]
    pub fn write_word(
        &mut self,
        spare: &mut Vec<Blank>,
        writer: ActorId,
        at: GuestAddr,
        word: u64,
        width: Width,
    )
        requires inside { is_within self.old.number 4096 at (width_bytes width) ≡ true }
        requires ready { CanMake self.old (length spare.old.items) }
        ensures page { self.new ≡ page_written self.old writer at (bytes_of (width_bytes width) word) }
        ensures takes { Takes self.old self.new (length spare.old.items) (length spare.new.items) }
    {
        self.make(spare);
        match &mut self.state {
            State::Made(page) => page.write_word(writer, at, word, width),
            State::Unmade(_) => unreachable!(),
        }
    }

    /// The same where the page is made and marked, and no hart has anything reserved in it, so that only bytes change. Answers
    /// whether it is written; else nothing is changed.
    #[inline(always)]
    pub fn write_marked(&mut self, at: GuestAddr, word: u64, width: Width) -> bool
        requires { is_within self.old.number 4096 at (width_bytes width) ≡ true }
        ensures answer { result ≡ is_marked_unreserved self.old }
        ensures written { result ≡ true → (writer : ActorId) →
            self.new ≡ page_written self.old writer at (bytes_of (width_bytes width) word) }
        ensures marked { result ≡ true → self.old.marked ≡ true }
        ensures made { result ≡ true → self.old.made ≡ true }
        ensures left { result ≡ false → self.new ≡ self.old }
    {
        match &mut self.state {
            State::Made(page) => page.write_marked(at, word, width),
            State::Unmade(_) => false,
        }
    }

    /// The act of this actor. A page that isn't made is made where the act leaves something in it.
    pub fn act(&mut self, spare: &mut Vec<Blank>, actor: ActorId, op: &Op) -> Reply
        requires { CanMake self.old (length spare.old.items) }
        ensures reply { result ≡ (page_touch self.old actor op.now).0 }
        ensures page { self.new ≡ (page_touch self.old actor op.now).1 }
        ensures takes { Takes self.old self.new (length spare.old.items) (length spare.new.items) }
    {
        match &mut self.state {
            State::Made(page) => {
                let _was = page.is_made();
                let reply = page.act(actor, op);
                let _is = page.is_made();
                reply
            }
            State::Unmade(number) => {
                let number = *number;
                let Some(blank) = spare.pop() else {
                    unreachable!()
                };
                let mut page = blank.into_page(number);
                let reply = page.act(actor, op);
                if leaves(op, &reply) {
                    self.put(page);
                } else {
                    spare.push_reserved(Blank::of(page));
                }
                reply
            }
        }
    }

    /// The hart has the granule at this offset reserved, and what it had here before is gone. This marks nothing, and makes the page.
    pub fn hold(&mut self, spare: &mut Vec<Blank>, hart: u8, offset: u16)
        requires hart { hart < 32 }
        requires inside { offset < 4096 }
        requires granule { offset % 8 ≡ 0 }
        requires ready { CanMake self.old (length spare.old.items) }
        ensures page { self.new ≡ page_holding hart offset self.old }
        ensures takes { Takes self.old self.new (length spare.old.items) (length spare.new.items) }
    {
        self.make(spare);
        match &mut self.state {
            State::Made(page) => page.hold(hart, offset),
            State::Unmade(_) => unreachable!(),
        }
    }

    /// Puts these bytes in the place of as many from an offset on, and marks nothing. A page that isn't made is made where one of
    /// them isn't 0. How many pages were made for it: none or one.
    ///
    /// Errors: want of memory, and then it is as it was.
    pub fn patch(&mut self, alloc: Global, offset: usize, piece: &[u8]) -> Result<usize, AllocError>
        requires { offset + length piece.now ≤ 4096 }
        ensures ok { OnOk result (self.new ≡ record (patched offset piece.now self.old) { made = self.new.made }) }
        ensures made { OnOk result (self.new.made ≡ (self.old.made || not (are_zeros piece.now))) }
        ensures count { IfOk result (λ count. count ≡ (if not self.old.made && self.new.made then 1 else 0)) }
        ensures err { OnErr result (self.new ≡ self.old) }
    {
        match &mut self.state {
            State::Made(page) => {
                let _was = page.is_made();
                page.patch(offset, piece);
                let _is = page.is_made();
                Ok(0)
            }
            State::Unmade(number) => {
                if are_zeros(piece) {
                    return Ok(0);
                }
                let Ok(mut page) = Page::new(alloc, *number) else {
                    return Err(AllocError);
                };
                page.patch(offset, piece);
                let _is = page.is_made();
                self.state = State::Made(page);
                Ok(1)
            }
        }
    }

    // Puts a page there.
    fn put(&mut self, page: Page)
        ensures page { self.new ≡ page }
        ensures made { self.new.made ≡ true }
    {
        let _is = page.is_made();
        self.state = State::Made(page);
    }
}

// It looks at all of them, since a loop that ends early takes them one by one.
fn are_zeros(piece: &[u8]) -> bool
    ensures { result ≡ are_zeros piece.now }
{
    let mut most = 0;
    for byte in piece {
        most = most.max(*byte);
    }
    most == 0
}

// Whether an act so answered left something in its page.
fn leaves(op: &Op, reply: &Reply) -> bool
    ensures { result ≡ leaves op.now reply.now }
{
    match (op, reply) {
        (Op::Write { .. }, Reply::Done) => true,
        (Op::Amo { .. }, Reply::Word(_)) => true,
        (Op::Lr { .. }, Reply::Word(_)) => true,
        (Op::Sc { .. }, Reply::Word(failed)) => *failed == 0,
        _ => false,
    }
}
