// The drives that are configured.
ghost use Rattle.std.specs.Prelude.{◌≡◌, slice_get, IfOk};
ghost use Rattle.std.specs.Option.{option_copied};
ghost use Rattle.vm_config.specs.Drives.{device_of, id_of_drive, in_order, patched_drive};

use crate::limits::limited;
use crate::named::{Named, NamedList};
use api_calls::{Drive, DrivePatch};
use std::alloc::{AllocError, Global};
use vm_types::TextList;

/// The drives of a machine.
pub type Drives = NamedList<Drive>;

impl Named for Drive {
    type Patch = DrivePatch;

    ghost id_of = { id_of_drive };

    ghost named_by = { λ patch. patch.drive_id };

    ghost patched = { patched_drive };

    fn id(&self) -> &str {
        self.drive_id.as_str()
    }

    fn named_by(patch: &DrivePatch) -> &str {
        patch.drive_id.as_str()
    }

    fn patch(&mut self, patch: DrivePatch) {
        let DrivePatch {
            drive_id: _drive_id,
            path_on_host,
            rate_limiter,
        } = patch;
        self.rate_limiter = limited(rate_limiter, self.rate_limiter);
        if let Some(path) = path_on_host {
            self.path_on_host = path;
        }
    }

    fn copy(&self, alloc: Global) -> Result<Drive, AllocError> {
        Ok(Drive {
            drive_id: TextList::copy_of(alloc, self.drive_id.as_str())?,
            path_on_host: TextList::copy_of(alloc, self.path_on_host.as_str())?,
            is_root_device: self.is_root_device,
            is_read_only: self.is_read_only,
            cache_type: self.cache_type,
            rate_limiter: self.rate_limiter,
        })
    }
}

impl NamedList<Drive> {
    /// The number of the device that the drive of this id is: the root drive is the first, and the others follow.
    pub fn device_number(&self, id: &str) -> Option<usize>
        ensures { result ≡ device_of self.now id.now }
    {
        let drives = self.as_slice();
        let roots = drives.iter().filter(|drive| drive.is_root_device);
        let others = drives.iter().filter(|drive| !drive.is_root_device);
        roots
            .chain(others)
            .position(|drive| drive.drive_id.as_str() == id)
    }

    /// The drive that the device of this number is.
    pub fn at_device(&self, number: usize) -> Option<&Drive>
        ensures { option_copied result ≡ slice_get (in_order self.now) number }
    {
        let drives = self.as_slice();
        let roots = drives.iter().filter(|drive| drive.is_root_device);
        let others = drives.iter().filter(|drive| !drive.is_root_device);
        roots.chain(others).nth(number)
    }
}
