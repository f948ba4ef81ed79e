// Values that are whole lists of bytes.
ghost use Rattle.std.specs.Prelude.{◌≡◌, ◌++◌, OnOk};
ghost use Rattle.file_format.specs.Ends.{Listing, TakesAll, listed};

use crate::error::ReadError;
use crate::input::Input;
use crate::lists::bytes_at;
use crate::stored::Stored;
use crate::whole::{put_count, size};
use std::alloc::{AllocError, Global};
use std::marker::Model;

/// A value that is a whole list of bytes, so that what it doesn't have may be lacking at the end.
pub trait Whole: Drop {
    ghost listing: { Listing Self };

    /// Puts its bytes at the end.
    fn write_all(&self, out: &mut Vec<u8>) -> Result<(), AllocError>
        ensures fits { OnOk result (listing.Fits self.now) }
        ensures bytes { OnOk result (out.new.items ≡ out.old.items ++ listing.bytes self.now) };

    /// The value that these bytes are, all of them.
    fn read_all(alloc: Global, bytes: &[u8]) -> Result<Self, ReadError>
        ensures { TakesAll listing bytes.now result };
}

/// Such a value as a list of its bytes.
#[derive(Drop)]
pub struct Listed<T> {
    pub value: T,
}

impl<T> Model for Listed<T> {
    ghost Value = { T };

    ghost view = { λ l. l.value };
}

// The count goes to the place that was left for it.
fn write_listed<T: Whole>(value: &T, out: &mut Vec<u8>) -> Result<(), AllocError>
    ensures fits { OnOk result ((listed T.listing).Fits value.now) }
    ensures bytes { OnOk result (out.new.items ≡ (listed T.listing).puts value.now out.old.items) }
{
    let at = size(out);
    out.extend_from_slice(&[0; 4])?;
    let start = size(out);
    value.write_all(out)?;
    let Some(len) = size(out).checked_sub(start) else {
        return Err(AllocError);
    };
    let Ok(count) = u32::try_from(len) else {
        return Err(AllocError);
    };
    put_count(out, at, count);
    Ok(())
}

#[tactic(auto, unfolding(crate::specs::Ends::listed))]
impl<T: Whole> Stored for Listed<T> {
    ghost format = { listed T.listing };

    fn write(&self, out: &mut Vec<u8>) -> Result<(), AllocError> {
        write_listed(&self.value, out)
    }

    fn read(alloc: Global, input: &mut Input) -> Result<Listed<T>, ReadError> {
        let bytes = bytes_at(alloc, input)?;
        let value = T::read_all(alloc, bytes)?;
        Ok(Listed { value })
    }
}
