// Room for acts: spare pages, from which others are made.
ghost use Rattle.std.specs.Prelude.{◌≡◌, ◌+◌, ◌≤◌, IfOk, OnErr, OnOk, length, max, min, vec_capacity};
ghost use Rattle.vm_types.specs.declared.ids.PlaceId.{PlaceId};
ghost use Rattle.guest_pages.specs.Made.{HasRoom, is_ready, unmade};

use super::PageSet;
use crate::blank::Blank;
use std::alloc::{AllocError, Global};

impl PageSet {
    /// How many pages are spare: so many can be made and take no other memory.
    pub fn spare(&self) -> usize
        ensures { result ≡ self.now.spare }
    {
        self.spare.len()
    }

    /// Whether the page of this number is made, or one is spare. One that there isn't counts as made.
    pub fn is_ready(&self, number: usize) -> bool
        ensures { result ≡ is_ready self.now (PlaceId.Page number) }
    {
        self.is_made(number) || self.spare.len() >= 1
    }

    /// How many pages aren't made.
    pub fn unmade(&self) -> usize
        ensures { result ≡ unmade self.now.pages }
    {
        self.pages.len() - (self.owned - self.spare.len())
    }

    /// Makes so many pages spare, if there are fewer.
    ///
    /// Errors: want of memory, and then everything is as it was.
    pub fn reserve(&mut self, alloc: Global, count: usize) -> Result<(), AllocError>
        ensures ok { OnOk result (self.new ≡ record self.old { spare = max count self.old.spare }) }
        ensures err { OnErr result (self.new ≡ self.old) }
    {
        let had = self.spare.len();
        if count <= had {
            return Ok(());
        }
        self.spare.reserve(count - had)?;
        let mut more = blanks(alloc, count - had)?;
        move_all(&mut more, &mut self.spare);
        self.owned += count - had;
        Ok(())
    }

    /// Room for so many acts: as many pages spare as there are acts, or pages that aren't made.
    ///
    /// Errors: want of memory, and then everything is as it was.
    pub fn reserve_for(&mut self, alloc: Global, acts: u64) -> Result<(), AllocError>
        ensures room { OnOk result (HasRoom acts self.new) }
        ensures ok { OnOk result (self.new ≡ record self.old { spare = max (min acts (unmade self.old.pages)) self.old.spare }) }
        ensures err { OnErr result (self.new ≡ self.old) }
    {
        let most = acts.min(self.unmade() as u64);
        let Ok(()) = self.reserve(alloc, most as usize) else {
            return Err(AllocError);
        };
        Ok(())
    }
}

fn blanks(alloc: Global, count: usize) -> Result<Vec<Blank>, AllocError>
    ensures { IfOk result (λ blanks. length blanks.items ≡ count) }
{
    let mut blanks = Vec::with_capacity(alloc, count)?;
    for _ in 0..count {
        blanks.push_reserved(Blank::new(alloc)?);
    }
    Ok(blanks)
}

// Moves all of these behind the others, which have room for them.
fn move_all(from: &mut Vec<Blank>, to: &mut Vec<Blank>)
    requires { length to.old.items + length from.old.items ≤ vec_capacity to.old }
    ensures { length to.new.items ≡ length to.old.items + length from.old.items }
{
    while let Some(blank) = from.pop() {
        to.push_reserved(blank);
    }
}
