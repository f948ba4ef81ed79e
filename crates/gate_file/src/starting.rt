// How a file begins.
ghost use Rattle.std.specs.Prelude.{◌≡◌, IfOk};
ghost use Rattle.std.specs.Option.{option_map};
ghost use Rattle.std.specs.FinMap.{get};
ghost use Rattle.gate_file.specs.Reading.{FileCause, start_of};
ghost use Rattle.vm_outside.specs.Filing.{SameFiles};
ghost use Rattle.vm_outside.specs.Known.{Lasts, Tells};

use crate::file_error::FileError;
use crate::reading::read_front;
use std::alloc::Global;
use vm_outside::Files;

/// How a file begins.
#[derive(Drop)]
pub struct FileStart {
    /// How many bytes the file has.
    pub size: u64,
    /// The first of them.
    pub bytes: Vec<u8>,
}

/// The first `most` bytes of the file of this name, or all of a shorter one, where there is such a file.
pub fn read_start<F: Files>(
    alloc: Global,
    files: &mut F,
    name: &str,
    most: u64,
) -> Result<Option<FileStart>, FileError>
    ensures found { IfOk result (λ found. Tells (F.known files.old).health →
        option_map (λ start. (start.size, start.bytes.items)) found
        ≡ option_map (start_of most) (get (F.known files.old).saved name.now)) }
    ensures same { Tells (F.known files.old).health → SameFiles (F.known files.old) (F.known files.new) }
    ensures cause { FileCause result (F.known files.old).health.faults (F.known files.new).health.faults }
    ensures lasts { Lasts (F.known files.old).health (F.known files.new).health }
{
    let Ok(found) = files.size(name) else {
        return Err(FileError::Fault);
    };
    let Some(size) = found else {
        return Ok(None);
    };
    match read_front(alloc, files, name, size.min(most)) {
        Ok(bytes) => Ok(Some(FileStart { size, bytes })),
        Err(why) => Err(why),
    }
}
