// The file of the initial RAM disk.
ghost use Rattle.std.specs.Prelude.{◌≡◌, false, IfOk, IfSome, Some, length};
ghost use Rattle.vm_outside.specs.Filing.{SameFiles};
ghost use Rattle.vm_outside.specs.Known.{Called, Lasts, Tells};
ghost use Rattle.api_rules.specs.Table.{is_missing, len_of};
ghost use Rattle.flat_machine.specs.Requests.{disk_by, file_by, file_with};
ghost use Rattle.gate_file.specs.Reading.{FileCause};

use api_rules::{InitrdFile, initrd_len};
use gate_file::{FileError, read_front};
use std::alloc::Global;
use vm_outside::{Failed, Files};
use vm_types::{ByteList, TextList};

fn file_with(size: Option<u64>) -> InitrdFile
    ensures { result ≡ file_with size }
{
    match size {
        None => InitrdFile::Missing,
        Some(len) => InitrdFile::There(len),
    }
}

/// What the files have under the name of the disk, if one is configured.
pub fn disk_file<F: Files>(files: &mut F, path: &Option<TextList>) -> Result<InitrdFile, Failed>
    ensures file { IfOk result (λ file. Tells (F.known files.old).health →
        file ≡ file_by path.now (F.known files.old).saved) }
    ensures same { Tells (F.known files.old).health → SameFiles (F.known files.old) (F.known files.new) }
    ensures called { Called (F.known files.old).health (F.known files.new).health result }
{
    let Some(path) = path else {
        return Ok(InitrdFile::Unnamed);
    };
    let Ok(size) = files.size(path.as_str()) else {
        return Err(Failed);
    };
    Ok(file_with(size))
}

/// The bytes of the disk, where there is a file of it.
pub fn load_disk<F: Files>(
    alloc: Global,
    files: &mut F,
    path: &Option<TextList>,
    file: InitrdFile,
) -> Result<Option<ByteList>, FileError>
    ensures disk { IfOk result (λ disk. Tells (F.known files.old).health →
        file ≡ file_by path.now (F.known files.old).saved → is_missing file ≡ false →
        disk ≡ disk_by path.now (F.known files.old).saved) }
    ensures size { IfOk result (λ disk. IfSome disk (λ bytes. len_of file ≡ Some (length bytes))) }
    ensures same { Tells (F.known files.old).health → SameFiles (F.known files.old) (F.known files.new) }
    ensures cause { FileCause result (F.known files.old).health.faults (F.known files.new).health.faults }
    ensures lasts { Lasts (F.known files.old).health (F.known files.new).health }
{
    let Some(len) = initrd_len(file) else {
        return Ok(None);
    };
    let Some(path) = path else {
        return Ok(None);
    };
    let bytes = read_front(alloc, files, path.as_str(), len)?;
    Ok(Some(ByteList::from_vec(bytes)))
}
