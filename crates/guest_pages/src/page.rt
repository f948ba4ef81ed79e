// One page of guest memory.
ghost use Rattle.std.specs.Prelude.{◌≡◌, ◌≤◌, ◌<◌, ◌+◌, ◌-◌, ◌*◌, ◌%◌, true, false, drop, length, replicate, take, IfOk, IfSome, MatchOption, is_some};
ghost use Rattle.std.specs.List.{count_by};
ghost use Rattle.vm_types.specs.declared.op.Op.{Op};
ghost use Rattle.guest_memory.specs.Reserved.{slots_after};
ghost use Rattle.guest_memory.specs.Words.{width_of};
ghost use Rattle.le_fields.specs.Fields.{bytes_of};
ghost use Rattle.rv_rows.specs.Loads.{width_bytes};
ghost use Rattle.guest_pages.specs.Pages.{PageValue, filled, is_marked_unreserved, is_within, made_page, page_holding, page_read, page_reserving, page_start, page_touch, page_word, page_written, patched, unmarked};

use crate::word_bytes::{put_word, single_at, word_in};
use guest_memory::{
    HART_LIMIT, PAGE_SIZE, RAM_START, amo_value, end_written, granule_of, held_by, hold,
    is_granule, put, width_of, word_at,
};
use rv_rows::Width;
use std::alloc::{AllocError, Global};
use std::marker::Model;
use vm_types::{ActorId, AmoKind, GuestAddr, Op, Piece, Place, Reply};

// The bytes, and for each hart what it has reserved of them; how many harts have reserved something, mostly none: a write tests
// that before it looks at harts.
#[derive(Drop)]
struct Held {
    bytes: [u8; 4096],
    reserved: [Option<u16>; 32],
    number: u32,
    holders: u32,
    marked: bool,
}

/// A page that is made: 4,096 bytes, for each hart what it has reserved of them, and a mark that a write sets.
///
/// It is moved into a table of turns and back for each slice, so all of it lies in a box.
#[derive(Drop)]
pub struct Page {
    held: Box<Held>,
}

impl Model for Page {
    ghost use Rattle.std.specs.Prelude.{◌≡◌, length, is_some, true};
    ghost use Rattle.std.specs.List.{count_by};
    ghost use Rattle.guest_pages.specs.Pages.{PageValue};

    ghost Value = { PageValue };

    ghost view = { λ p. record {
      number = p.held.value.number;
      bytes = p.held.value.bytes;
      reserved = p.held.value.reserved;
      marked = p.held.value.marked;
      made = true;
    } };

    ghost invariant = { λ p.
        (length p.held.value.bytes ≡ 4096) × (length p.held.value.reserved ≡ 32)
        × (p.held.value.holders ≡ count_by is_some p.held.value.reserved) };
}

impl Page {
    /// Zeros, with nothing reserved and no mark.
    pub fn new(alloc: Global, number: u32) -> Result<Page, AllocError>
        ensures { IfOk result (λ page. page ≡ made_page number) }
    {
        let held = nothing_held(alloc, number)?;
        Ok(Page { held })
    }

    // The same page by another number.
    pub(crate) fn renumber(&mut self, number: u32)
        ensures { self.new ≡ record self.old { number = number } }
    {
        self.held.number = number;
    }

    /// The number of this page, from 0.
    pub fn number(&self) -> u32
        ensures { result ≡ self.now.number }
    {
        self.held.number
    }

    // It is made, as each page of this kind.
    #[inline(always)]
    pub(crate) fn is_made(&self) -> bool
        ensures value { result ≡ self.now.made }
        ensures made { result ≡ true }
    {
        let _held = &self.held;
        true
    }

    pub fn bytes(&self) -> &[u8]
        ensures bytes { result.now ≡ self.now.bytes }
        ensures size { length result.now ≡ 4096 }
    {
        let bytes: &[u8; 4096] = &self.held.bytes;
        bytes
    }

    /// Whether an act wrote the page since the mark was cleared.
    pub fn is_marked(&self) -> bool
        ensures { result ≡ self.now.marked }
    {
        self.held.marked
    }

    pub fn clear_mark(&mut self)
        ensures { self.new ≡ unmarked self.old }
    {
        self.held.marked = false;
    }

    /// Puts these bytes in the place of all that there are, and marks nothing.
    pub fn fill(&mut self, bytes: &[u8])
        requires { length bytes.now ≡ 4096 }
        ensures { self.new ≡ filled bytes.now self.old }
    {
        let held: &mut [u8; 4096] = &mut self.held.bytes;
        held.copy_from_slice(bytes);
    }

    /// Puts these bytes in the place of as many from an offset on, and marks nothing.
    pub fn patch(&mut self, offset: usize, piece: &[u8])
        requires { offset + length piece.now ≤ 4096 }
        ensures { self.new ≡ patched offset piece.now self.old }
    {
        let bytes: &mut [u8; 4096] = &mut self.held.bytes;
        put(bytes, offset, piece);
    }

    /// For each hart, the offset of the granule that it has reserved here.
    pub fn reservations(&self) -> &[Option<u16>]
        ensures slots { result.now ≡ self.now.reserved }
        ensures harts { length result.now ≡ 32 }
    {
        &self.held.reserved
    }

    /// The same, or `None` where no hart has one.
    pub fn some_reserved(&self) -> Option<&[Option<u16>]>
        ensures slots { MatchOption result (self.now.reserved ≡ replicate 32 None) (λ slots. slots.now ≡ self.now.reserved) }
        ensures harts { IfSome result (λ slots. length slots.now ≡ 32) }
    {
        let holders = self.held.holders;
        if holders == 0 {
            return None;
        }
        Some(&self.held.reserved)
    }

    /// The hart has the granule at this offset reserved, and what it had here before is gone. This marks nothing.
    pub fn hold(&mut self, hart: u8, offset: u16)
        requires hart { hart < 32 }
        requires inside { offset < 4096 }
        requires granule { offset % 8 ≡ 0 }
        ensures { self.new ≡ page_holding hart offset self.old }
    {
        self.held.reserved[hart as usize] = Some(offset);
        self.held.holders = count_holders(&self.held.reserved);
    }
}

fn nothing_held(alloc: Global, number: u32) -> Result<Box<Held>, AllocError>
    ensures bytes { IfOk result (λ held. held.value.bytes ≡ replicate 4096 0) }
    ensures reserved { IfOk result (λ held. held.value.reserved ≡ replicate 32 None) }
    ensures number { IfOk result (λ held. held.value.number ≡ number) }
    ensures free { IfOk result (λ held. held.value.holders ≡ 0) }
    ensures unmarked { IfOk result (λ held. held.value.marked ≡ false) }
{
    let held = Held {
        bytes: [0; 4096],
        reserved: [None; 32],
        number,
        holders: 0,
        marked: false,
    };
    let Ok(held) = Box::new(alloc, held) else {
        return Err(AllocError);
    };
    Ok(held)
}

fn count_holders(reserved: &[Option<u16>]) -> u32
    requires { length reserved.now ≡ 32 }
    ensures { result ≡ count_by is_some reserved.now }
{
    reserved.iter().filter(|held| held.is_some()).count() as u32
}

// Ends what the write of another reaches, and answers how many harts have something reserved then. It is rare.
#[inline(never)]
fn end_reserved(
    reserved: &mut [Option<u16>],
    number: u32,
    writer: ActorId,
    at: GuestAddr,
    len: usize,
) -> u32
    requires slots { length reserved.old ≡ 32 }
    ensures ended { reserved.new ≡ slots_after writer at len (32 * number) reserved.old }
    ensures count { result ≡ count_by is_some reserved.new }
{
    end_written(reserved, HART_LIMIT * number as usize, writer, at, len);
    count_holders(reserved)
}

fn page_start(number: u32) -> u64
    ensures { result ≡ page_start number }
{
    RAM_START + 4096 * number as u64
}

// Where in the page of this number an address of it is: a page begins at a multiple of its size, so the number isn't read.
#[inline(always)]
fn offset_in(_number: u32, at: GuestAddr) -> usize
    requires from { page_start _number ≤ at }
    requires below { at < page_start _number + 4096 }
    ensures { result ≡ at - page_start _number }
{
    (at % 4096) as usize
}

// Whether these bytes, one at least, are in the page of this number.
fn is_within(number: u32, at: GuestAddr, len: usize) -> bool
    ensures { result ≡ is_within number 4096 at len }
{
    let start = page_start(number);
    if len < 1 || at < start || PAGE_SIZE < len {
        return false;
    }
    at - start <= (PAGE_SIZE - len) as u64
}

impl Page {
    fn read(&self, at: GuestAddr, len: usize) -> Piece
        requires most { len ≤ 64 }
        requires inside { is_within self.now.number 4096 at len ≡ true }
        ensures { result ≡ page_read self.now at len }
    {
        let offset = (at - page_start(self.held.number)) as usize;
        Piece::from_slice(&self.held.bytes[offset..offset + len])
    }

    fn word(&self, at: GuestAddr, wide: bool) -> u64
        requires { is_within self.now.number 4096 at (width_of wide) ≡ true }
        ensures { result ≡ page_word self.now at wide }
    {
        let bytes: &[u8; 4096] = &self.held.bytes;
        word_at(bytes, (at - page_start(self.held.number)) as usize, wide)
    }

    // What a write of so many bytes does beside them: it ends what other harts have reserved there, and marks the page.
    #[inline(always)]
    fn begin_write(&mut self, writer: ActorId, at: GuestAddr, len: usize)
        ensures { self.new ≡ record self.old {
          reserved = slots_after writer at len (32 * self.old.number) self.old.reserved;
          marked = true;
          made = true;
        } }
    {
        self.held.marked = true;
        if self.held.holders == 0 {
            return;
        }
        let number = self.held.number;
        self.held.holders = end_reserved(&mut self.held.reserved, number, writer, at, len);
    }

    // Writes these bytes, which are the page's, and marks it.
    fn write(&mut self, writer: ActorId, at: GuestAddr, piece: &[u8])
        requires { is_within self.old.number 4096 at (length piece.now) ≡ true }
        ensures { self.new ≡ page_written self.old writer at piece.now }
    {
        self.begin_write(writer, at, piece.len());
        let offset = (at - page_start(self.held.number)) as usize;
        let bytes: &mut [u8; 4096] = &mut self.held.bytes;
        put(bytes, offset, piece);
    }

    /// The word of four bytes at an offset, the lowest byte first.
    #[inline(always)]
    pub fn word_at(&self, offset: usize) -> u32
        requires { offset ≤ 4092 }
        ensures { bytes_of 4 result ≡ take 4 (drop offset self.now.bytes) }
    {
        let bytes: &[u8; 4096] = &self.held.bytes;
        single_at(bytes, offset)
    }

    /// The word of this width at an address, the lowest byte first.
    #[inline(always)]
    pub fn read_word(&self, at: GuestAddr, width: Width) -> u64
        requires { is_within self.now.number 4096 at (width_bytes width) ≡ true }
        ensures { bytes_of (width_bytes width) result ≡ page_read self.now at (width_bytes width) }
    {
        let bytes: &[u8; 4096] = &self.held.bytes;
        word_in(bytes, offset_in(self.held.number, at), width)
    }

    /// Writes the low bytes of a word, the lowest first, and marks the page.
    #[inline(always)]
    pub fn write_word(&mut self, writer: ActorId, at: GuestAddr, word: u64, width: Width)
        requires { is_within self.old.number 4096 at (width_bytes width) ≡ true }
        ensures { self.new ≡ page_written self.old writer at (bytes_of (width_bytes width) word) }
    {
        self.begin_write(writer, at, width.bytes());
        let offset = offset_in(self.held.number, at);
        let bytes: &mut [u8; 4096] = &mut self.held.bytes;
        put_word(bytes, offset, word, width);
    }

    /// The same where the page is marked and no hart has anything reserved in it, so that only bytes change. Answers whether it is
    /// written; else nothing is changed.
    #[inline(always)]
    pub fn write_marked(&mut self, at: GuestAddr, word: u64, width: Width) -> bool
        requires { is_within self.old.number 4096 at (width_bytes width) ≡ true }
        ensures answer { result ≡ is_marked_unreserved self.old }
        ensures written { result ≡ true → (writer : ActorId) →
            self.new ≡ page_written self.old writer at (bytes_of (width_bytes width) word) }
        ensures marked { result ≡ true → self.old.marked ≡ true }
        ensures made { self.old.made ≡ true }
        ensures left { result ≡ false → self.new ≡ self.old }
    {
        if !self.held.marked || self.held.holders != 0 {
            return false;
        }
        let offset = offset_in(self.held.number, at);
        let bytes: &mut [u8; 4096] = &mut self.held.bytes;
        put_word(bytes, offset, word, width);
        true
    }

    fn reserve(&mut self, actor: ActorId, held: Option<u16>)
        ensures { self.new ≡ page_reserving self.old actor held }
    {
        hold(&mut self.held.reserved, 0, actor, held);
        self.held.holders = count_holders(&self.held.reserved);
    }

    fn atomic_operation(
        &mut self,
        actor: ActorId,
        at: GuestAddr,
        value: u64,
        kind: AmoKind,
        wide: bool,
    ) -> Reply
        ensures reply { result ≡ (page_touch self.old actor (Op.Amo at value kind wide)).0 }
        ensures page { self.new ≡ (page_touch self.old actor (Op.Amo at value kind wide)).1 }
    {
        if !is_within(self.held.number, at, width_of(wide)) {
            return Reply::AccessFault;
        }
        let old = self.word(at, wide);
        let bytes = amo_value(kind, wide, old, value).to_le_bytes();
        self.write(actor, at, &bytes[..width_of(wide)]);
        Reply::Word(old)
    }

    fn load_reserved(&mut self, actor: ActorId, at: GuestAddr, wide: bool) -> Reply
        ensures reply { result ≡ (page_touch self.old actor (Op.Lr at wide)).0 }
        ensures page { self.new ≡ (page_touch self.old actor (Op.Lr at wide)).1 }
    {
        if !is_within(self.held.number, at, width_of(wide)) {
            return Reply::AccessFault;
        }
        let word = self.word(at, wide);
        self.reserve(actor, Some(granule_of(at)));
        Reply::Word(word)
    }

    fn store_conditional(&mut self, actor: ActorId, at: GuestAddr, value: u64, wide: bool) -> Reply
        ensures reply { result ≡ (page_touch self.old actor (Op.Sc at value wide)).0 }
        ensures page { self.new ≡ (page_touch self.old actor (Op.Sc at value wide)).1 }
    {
        if !is_within(self.held.number, at, width_of(wide)) {
            return Reply::AccessFault;
        }
        if !is_granule(granule_of(at), held_by(&self.held.reserved, 0, actor)) {
            self.reserve(actor, None);
            return Reply::Word(1);
        }
        let bytes = value.to_le_bytes();
        self.write(actor, at, &bytes[..width_of(wide)]);
        self.reserve(actor, None);
        Reply::Word(0)
    }
}

impl Place for Page {
    ghost use Rattle.guest_memory.specs.Memory.{is_access};
    ghost use Rattle.guest_pages.specs.Pages.{PageValue, page_touch};
    ghost use Rattle.guest_pages.specs.Fitting.{page_fits};

    ghost Value = { PageValue };

    ghost value = { λ p. p };

    ghost touch = { page_touch };

    ghost serves = { is_access };

    ghost replies_fit = { page_fits };

    fn act(&mut self, actor: ActorId, op: &Op) -> Reply {
        match op {
            Op::Read { at, len } => {
                if *len <= Piece::MOST && is_within(self.held.number, *at, *len) {
                    Reply::Bytes(self.read(*at, *len))
                } else {
                    Reply::AccessFault
                }
            }
            Op::Write { at, piece } => {
                if is_within(self.held.number, *at, piece.len()) {
                    self.write(actor, *at, piece.as_slice());
                    Reply::Done
                } else {
                    Reply::AccessFault
                }
            }
            Op::Amo {
                at,
                value,
                kind,
                wide,
            } => self.atomic_operation(actor, *at, *value, *kind, *wide),
            Op::Lr { at, wide } => self.load_reserved(actor, *at, *wide),
            Op::Sc { at, value, wide } => self.store_conditional(actor, *at, *value, *wide),
            _ => Reply::AccessFault,
        }
    }
}
