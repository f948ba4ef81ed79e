// The files of the drives, as a start asks for them.
ghost use Rattle.std.specs.Prelude.{All, ◌≡◌, ◌≤◌, ◌+◌, ◌++◌, ◌∷◌, ◌&&◌, [], ℕ, true, List, Option, IfOk, OnOk, is_some, length, map, option_map};
ghost use Rattle.std.specs.List.{list_all};
ghost use Rattle.std.specs.FinMap.{get};
ghost use Rattle.api_calls.specs.Form.{holds};
ghost use Rattle.api_calls.specs.Limits.{is_limiter};
ghost use Rattle.snap_state.specs.Valid.{is_drive};
ghost use Rattle.monitor_plans.specs.Starting.{FitsDrive};
ghost use Rattle.vm_types.specs.Saved.{Saved};
ghost use Rattle.vm_outside.specs.Filing.{SameFiles};
ghost use Rattle.vm_outside.specs.Known.{Lasts, Tells};
ghost use Rattle.vm_config.specs.Drives.{in_order};
ghost use Rattle.flat_machine.specs.Requests.{drive_from, have_files, id_bytes, is_writeback, sectors_of};
ghost use Rattle.gate_file.specs.Reading.{FileCause};

use crate::limits::gate_of;
use api_calls::{CacheType, Drive};
use gate_file::FileError;
use guest_devices::{NewDevice, NewDrive};
use std::alloc::Global;
use vm_config::Drives;
use vm_outside::Files;

/// So many bytes has what GET_ID gives (VIRTIO 1.2, 5.2.6).
const ID_LEN: usize = 20;

/// So many bytes has a sector.
const SECTOR: u64 = 512;

/// What the files have of the drives.
#[derive(Drop)]
pub(crate) struct DriveFiles {
    /// What the devices start with, in their order.
    pub drives: Vec<NewDevice>,
    /// Whether each drive has its file.
    pub are_there: bool,
}

// The id, cut or with zeros behind it.
fn id_bytes(id: &[u8]) -> [u8; 20]
    ensures { result ≡ id_bytes id.now }
{
    let mut bytes = [0; ID_LEN];
    let len = id.len().min(ID_LEN);
    bytes[..len].copy_from_slice(&id[..len]);
    bytes
}

fn is_writeback(cache: CacheType) -> bool
    ensures { result ≡ is_writeback cache }
{
    match cache {
        CacheType::Unsafe => false,
        CacheType::Writeback => true,
    }
}

/// How many whole sectors a file has, by its size in bytes, if it is there.
pub(crate) fn sectors_of(size: Option<u64>) -> u64
    ensures { (file : Option (List ℕ)) → size ≡ option_map length file → result ≡ sectors_of file }
{
    match size {
        None => 0,
        Some(len) => len / SECTOR,
    }
}

// What a drive starts with whose file has this size.
fn new_drive(drive: &Drive, size: Option<u64>) -> NewDevice
    requires { holds is_limiter drive.now.rate_limiter ≡ true }
    ensures made { (saved : Saved) → size ≡ option_map length (get saved drive.now.path_on_host) →
        result ≡ drive_from saved drive.now }
    ensures fits { FitsDrive result }
{
    NewDevice::Block(NewDrive {
        drive_id: id_bytes(drive.drive_id.as_bytes()),
        sectors: sectors_of(size),
        is_read_only: drive.is_read_only,
        offers_flush: is_writeback(drive.cache_type),
        limits: gate_of(&drive.rate_limiter),
    })
}

impl DriveFiles {
    fn new(alloc: Global) -> DriveFiles
        ensures drives { result.drives.items ≡ [] }
        ensures there { result.are_there ≡ true }
    {
        DriveFiles {
            drives: Vec::new(alloc),
            are_there: true,
        }
    }

    // One drive more, whose file is asked.
    fn ask<F: Files>(&mut self, drive: &Drive, files: &mut F) -> Result<(), FileError>
        requires { holds is_limiter drive.now.rate_limiter ≡ true }
        ensures drives { OnOk result (Tells (F.known files.old).health → self.new.drives.items
            ≡ self.old.drives.items ++ drive_from (F.known files.old).saved drive.now ∷ []) }
        ensures there { OnOk result (Tells (F.known files.old).health → self.new.are_there
            ≡ (self.old.are_there && is_some (get (F.known files.old).saved drive.now.path_on_host))) }
        ensures more { OnOk result (length self.new.drives.items ≡ length self.old.drives.items + 1) }
        ensures fit { OnOk result (All FitsDrive self.old.drives.items → All FitsDrive self.new.drives.items) }
        ensures same { Tells (F.known files.old).health → SameFiles (F.known files.old) (F.known files.new) }
        ensures cause { FileCause result (F.known files.old).health.faults (F.known files.new).health.faults }
        ensures lasts { Lasts (F.known files.old).health (F.known files.new).health }
    {
        let Ok(size) = files.size(drive.path_on_host.as_str()) else {
            return Err(FileError::Fault);
        };
        let Ok(()) = self.drives.push(new_drive(drive, size)) else {
            return Err(FileError::OutOfMemory);
        };
        self.are_there = self.are_there && size.is_some();
        Ok(())
    }
}

/// What the files have of each drive, asked in the order of devices.
pub(crate) fn drive_files<F: Files>(
    alloc: Global,
    files: &mut F,
    drives: &Drives,
) -> Result<DriveFiles, FileError>
    requires { list_all is_drive drives.now ≡ true }
    ensures drives { IfOk result (λ it. Tells (F.known files.old).health →
        it.drives.items ≡ map (drive_from (F.known files.old).saved) (in_order drives.now)) }
    ensures there { IfOk result (λ it. Tells (F.known files.old).health →
        it.are_there ≡ have_files drives.now (F.known files.old).saved) }
    ensures many { IfOk result (λ it. length it.drives.items ≡ length drives.now) }
    ensures fit { IfOk result (λ it. All FitsDrive it.drives.items) }
    ensures same { Tells (F.known files.old).health → SameFiles (F.known files.old) (F.known files.new) }
    ensures cause { FileCause result (F.known files.old).health.faults (F.known files.new).health.faults }
    ensures lasts { Lasts (F.known files.old).health (F.known files.new).health }
{
    let mut found = DriveFiles::new(alloc);
    for number in 0..drives.len() {
        if let Some(drive) = drives.at_device(number) {
            found.ask(drive, files)?;
        }
    }
    Ok(found)
}
