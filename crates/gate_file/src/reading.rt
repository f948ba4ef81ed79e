// Bytes of a file.
ghost use Rattle.std.specs.Prelude.{◌≡◌, length, replicate, IfOk};
ghost use Rattle.std.specs.FinMap.{get};
ghost use Rattle.gate_file.specs.Reading.{FileCause};
ghost use Rattle.vm_outside.specs.Filing.{IsReadAt, SameFiles};
ghost use Rattle.vm_outside.specs.Known.{Lasts, Tells};

use crate::file_error::FileError;
use std::alloc::{AllocError, Global};
use vm_outside::{Failed, Files};

/// The first `len` bytes of the file of this name. That there are too few, or no file, is a fault.
pub fn read_front<F: Files>(
    alloc: Global,
    files: &mut F,
    name: &str,
    len: u64,
) -> Result<Vec<u8>, FileError>
    ensures bytes { IfOk result (λ bytes. Tells (F.known files.old).health →
        IsReadAt (get (F.known files.old).saved name.now) 0 bytes.items) }
    ensures size { IfOk result (λ bytes. length bytes.items ≡ len) }
    ensures same { Tells (F.known files.old).health → SameFiles (F.known files.old) (F.known files.new) }
    ensures cause { FileCause result (F.known files.old).health.faults (F.known files.new).health.faults }
    ensures lasts { Lasts (F.known files.old).health (F.known files.new).health }
{
    let Ok(len) = usize::try_from(len) else {
        return Err(FileError::OutOfMemory);
    };
    let Ok(mut bytes) = zeros(alloc, len) else {
        return Err(FileError::OutOfMemory);
    };
    let Ok(()) = files.read_at(name, 0, &mut bytes) else {
        return Err(FileError::Fault);
    };
    Ok(bytes)
}

/// So many zeros.
pub fn zeros(alloc: Global, len: usize) -> Result<Vec<u8>, AllocError>
    ensures size { IfOk result (λ bytes. length bytes.items ≡ len) }
    ensures zeros { IfOk result (λ bytes. bytes.items ≡ replicate len 0) }
{
    Ok(vec![in alloc; 0u8; len]?)
}
