// Bytes that are one value and nothing else, and a value as a list of its bytes.
ghost use Rattle.std.specs.Prelude.{◌≡◌, ◌≤◌, ◌+◌, ◌++◌, OnOk, length, take, drop};
ghost use Rattle.file_format.specs.Kinds.{byte_list};
ghost use Rattle.std.specs.Int.{w32, to_le_bytes};
ghost use Rattle.file_format.specs.Reading.{Takes};
ghost use Rattle.file_format.specs.Whole.{TakesWhole, counted};

use crate::error::ReadError;
use crate::input::Input;
use crate::lists::bytes_at;
use crate::stored::Stored;
use std::alloc::{AllocError, Global};
use std::marker::Model;

fn whole_at<T: Stored>(alloc: Global, bytes: &[u8]) -> Result<T, ReadError>
    ensures { TakesWhole T.format bytes.now result }
{
    let mut input = Input::new(bytes);
    let value = T::read(alloc, &mut input)?;
    if input.is_empty() {
        Ok(value)
    } else {
        Err(ReadError::Bad)
    }
}

/// A value that is written as a list of its bytes.
#[derive(Drop)]
pub struct Counted<T> {
    pub value: T,
}

impl<T> Model for Counted<T> {
    ghost Value = { T };

    ghost view = { λ c. c.value };
}

pub fn put_count(out: &mut Vec<u8>, at: usize, count: u32)
    requires { at + 4 ≤ length out.old.items }
    ensures { out.new.items ≡ take at out.old.items ++ (to_le_bytes w32 count ++ drop (at + 4) out.old.items) }
{
    out[at..at + 4].copy_from_slice(&count.to_le_bytes());
}

pub fn size(out: &Vec<u8>) -> usize
    ensures { result ≡ length out.now.items }
{
    out.len()
}

// The count goes to the place that was left for it.
fn write_counted<T: Stored>(value: &T, out: &mut Vec<u8>) -> Result<(), AllocError>
    ensures fits { OnOk result ((counted T.format).Fits value.now) }
    ensures bytes { OnOk result (out.new.items ≡ (counted T.format).puts value.now out.old.items) }
{
    let at = size(out);
    out.extend_from_slice(&[0; 4])?;
    let start = size(out);
    value.write(out)?;
    let Some(len) = size(out).checked_sub(start) else {
        return Err(AllocError);
    };
    let Ok(count) = u32::try_from(len) else {
        return Err(AllocError);
    };
    put_count(out, at, count);
    Ok(())
}

#[tactic(auto, unfolding(crate::specs::Whole::counted))]
impl<T: Stored> Stored for Counted<T> {
    ghost format = { counted T.format };

    fn write(&self, out: &mut Vec<u8>) -> Result<(), AllocError> {
        write_counted(&self.value, out)
    }

    fn read(alloc: Global, input: &mut Input) -> Result<Counted<T>, ReadError> {
        let bytes = bytes_at(alloc, input)?;
        let value = whole_at(alloc, bytes)?;
        Ok(Counted { value })
    }
}
