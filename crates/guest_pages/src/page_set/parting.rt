// The pages of a set, one by one, made or not, and blanks for them.
ghost use Rattle.std.specs.Prelude.{◌≡◌, ◌+◌, ◌≤◌, [], length, vec_capacity};
ghost use Rattle.std.specs.List.{count_by};
ghost use Rattle.guest_pages.specs.Flat.{ArePages};
ghost use Rattle.guest_pages.specs.Made.{made_of};

use super::PageSet;
use super::blocks::{note_all, note_all_held};
use crate::blank::Blank;
use crate::slot::Slot;
use std::alloc::Global;
use std::mem::replace;

impl PageSet {
    /// Moves all pages out, by their numbers, and leaves none. It takes no memory.
    pub fn take_pages(&mut self, alloc: Global) -> Vec<Slot>
        ensures pages { result.items ≡ self.old.pages }
        ensures are { ArePages 0 result.items }
        ensures left { self.new ≡ record self.old { pages = [] } }
    {
        let pages = replace(&mut self.pages, Vec::new(alloc));
        self.owned = self.spare.len();
        pages
    }

    /// Puts pages, which stand by their numbers, in the place of all that there are. It takes no memory.
    pub fn put_pages(&mut self, pages: Vec<Slot>)
        requires are { ArePages 0 pages.items }
        ensures pages { self.new ≡ record self.old { pages = pages.items } }
    {
        self.owned = self.spare.len() + made_among(&pages);
        note_all(&mut self.blocks, &pages);
        note_all_held(&mut self.held, &pages);
        self.pages = pages;
    }

    /// Moves so many spare ones into an empty list with room for them. It takes no memory.
    pub fn take_spare(&mut self, count: usize, pool: &mut Vec<Blank>)
        requires enough { count ≤ self.old.spare }
        requires empty { pool.old.items ≡ [] }
        requires room { count ≤ vec_capacity pool.old }
        ensures count { length pool.new.items ≡ count }
        ensures left { self.new ≡ record self.old { spare = self.new.spare } }
        ensures spare { self.new.spare + count ≡ self.old.spare }
    {
        move_some(&mut self.spare, count, pool);
        self.owned -= count;
    }

    /// These are spare again, as many of them as the set has room for, and the others are gone. It takes no memory.
    pub fn give_spare(&mut self, pool: Vec<Blank>)
        ensures left { self.new ≡ record self.old { spare = self.new.spare } }
        ensures more { self.old.spare ≤ self.new.spare }
        ensures most { self.new.spare ≤ self.old.spare + length pool.items }
    {
        self.owned += take_in(&mut self.spare, pool);
    }
}

/// Which of these pages are made, in an empty list with room for them.
pub fn mark_made(pages: &[Slot], made: &mut Vec<bool>)
    requires empty { made.old.items ≡ [] }
    requires room { length pages.now ≤ vec_capacity made.old }
    ensures { made.new.items ≡ made_of pages.now }
{
    for page in pages {
        made.push_reserved(page.is_made());
    }
}

fn made_among(pages: &[Slot]) -> usize
    ensures { result ≡ count_by (λ p. p.made) pages.now }
{
    pages.iter().filter(|page| page.is_made()).count()
}

// The last ones of a list, behind those of another, which has room for them.
fn move_some(from: &mut Vec<Blank>, count: usize, to: &mut Vec<Blank>)
    requires some { count ≤ length from.old.items }
    requires room { length to.old.items + count ≤ vec_capacity to.old }
    ensures left { length from.new.items + count ≡ length from.old.items }
    ensures more { length to.new.items ≡ length to.old.items + count }
{
    for _ in 0..count {
        let Some(blank) = from.pop() else {
            unreachable!()
        };
        to.push_reserved(blank);
    }
}

// As many as there is room for, and how many those are.
fn take_in(spare: &mut Vec<Blank>, from: Vec<Blank>) -> usize
    ensures count { length spare.new.items ≡ length spare.old.items + result }
    ensures most { result ≤ length from.items }
{
    let had = spare.len();
    let mut rest = from;
    while spare.len() < spare.capacity() {
        let Some(blank) = rest.pop() else {
            break;
        };
        spare.push_reserved(blank);
    }
    spare.len() - had
}
