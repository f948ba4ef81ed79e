// Bytes that are always the same.
ghost use Rattle.std.specs.Prelude.{◌≡◌, OnOk};
ghost use Rattle.file_format.specs.Kinds.{fixed, zeros};
ghost use Rattle.file_format.specs.Readers.{are_zeros};
ghost use Rattle.file_format.specs.Reading.{Takes};

use crate::error::ReadError;
use crate::input::Input;
use std::alloc::AllocError;

/// Puts these bytes at the end.
#[tactic(auto, unfolding(crate::specs::Kinds::fixed))]
pub fn write_fixed(bytes: &[u8], out: &mut Vec<u8>) -> Result<(), AllocError>
    ensures fits { OnOk result ((fixed bytes.now).Fits tt) }
    ensures bytes { OnOk result (out.new.items ≡ (fixed bytes.now).puts tt out.old.items) }
{
    out.extend_from_slice(bytes)?;
    Ok(())
}

/// Takes these bytes from the front.
#[tactic(auto, unfolding(crate::specs::Kinds::fixed))]
pub fn read_fixed(bytes: &[u8], input: &mut Input) -> Result<(), ReadError>
    ensures { Takes (fixed bytes.now) input.old input.new result }
{
    if input.skip(bytes) {
        Ok(())
    } else {
        Err(ReadError::Bad)
    }
}

/// Puts so many zeros at the end.
#[tactic(auto, unfolding(crate::specs::Kinds::zeros))]
pub fn write_zeros(count: usize, out: &mut Vec<u8>) -> Result<(), AllocError>
    ensures fits { OnOk result ((zeros count).Fits tt) }
    ensures bytes { OnOk result (out.new.items ≡ (zeros count).puts tt out.old.items) }
{
    let Some(len) = out.len().checked_add(count) else {
        return Err(AllocError);
    };
    out.resize(len, 0)?;
    Ok(())
}

/// Whether all of these bytes are zeros.
pub fn are_zeros(bytes: &[u8]) -> bool
    ensures { result ≡ are_zeros bytes.now }
{
    bytes.iter().all(|b| *b == 0)
}

/// Takes so many zeros from the front.
#[tactic(auto, unfolding(crate::specs::Kinds::zeros))]
pub fn read_zeros(count: usize, input: &mut Input) -> Result<(), ReadError>
    ensures { Takes (zeros count) input.old input.new result }
{
    let Some(bytes) = input.take(count) else {
        return Err(ReadError::Bad);
    };
    if are_zeros(bytes) {
        Ok(())
    } else {
        Err(ReadError::Bad)
    }
}
