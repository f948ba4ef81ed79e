// Drives.
ghost use Rattle.std.specs.Prelude.{◌≡◌, OnOk};
ghost use Rattle.file_format.specs.Kinds.{text};
ghost use Rattle.file_format.specs.Reading.{Takes};
ghost use Rattle.snap_state.specs.Drives.{cache, cache_named, drive};

use crate::filed::{Filed, for_file, taken};
use crate::listed::Item;
use api_calls::{CacheType, Drive, Limiter};
use file_format::{Input, ReadError, Stored, write_count};
use std::alloc::{AllocError, Global};
use vm_types::TextList;

fn cache_named(name: &str) -> Option<CacheType>
    ensures { result ≡ cache_named name.now }
{
    if name == "Unsafe" {
        Some(CacheType::Unsafe)
    } else if name == "Writeback" {
        Some(CacheType::Writeback)
    } else {
        None
    }
}

#[tactic(auto, using(file_format::proofs::Texts::texts), unfolding(file_format::specs::Kinds::text, file_format::specs::Kinds::byte_list))]
pub(crate) fn write_text(it: &str, out: &mut Vec<u8>) -> Result<(), AllocError>
    ensures fits { OnOk result (text.Fits it.now) }
    ensures bytes { OnOk result (out.new.items ≡ text.puts it.now out.old.items) }
{
    let bytes = it.as_bytes();
    write_count(bytes.len(), out)?;
    out.extend_from_slice(bytes)?;
    Ok(())
}

#[tactic(auto, unfolding(crate::specs::Drives::cache))]
fn write_cache(it: CacheType, out: &mut Vec<u8>) -> Result<(), AllocError>
    ensures fits { OnOk result (cache.Fits it) }
    ensures bytes { OnOk result (out.new.items ≡ cache.puts it out.old.items) }
{
    write_text(it.text(), out)?;
    Ok(())
}

#[tactic(auto, unfolding(crate::specs::Drives::cache))]
fn read_cache(alloc: Global, input: &mut Input) -> Result<CacheType, ReadError>
    ensures { Takes cache input.old input.new result }
{
    let name: TextList = Stored::read(alloc, input)?;
    match cache_named(name.as_str()) {
        Some(it) => Ok(it),
        None => Err(ReadError::Bad),
    }
}

#[tactic(auto, unfolding(crate::specs::Drives::drive))]
impl Item for Drive {
    ghost format = { drive };

    fn write(&self, out: &mut Vec<u8>) -> Result<(), AllocError> {
        self.drive_id.write(out)?;
        self.path_on_host.write(out)?;
        self.is_root_device.write(out)?;
        self.is_read_only.write(out)?;
        write_cache(self.cache_type, out)?;
        for_file(self.rate_limiter).write(out)?;
        Ok(())
    }

    fn read(alloc: Global, input: &mut Input) -> Result<Drive, ReadError> {
        let (drive_id, (path_on_host, (is_root_device, is_read_only))) = Stored::read(
            alloc, input,
        )?;
        let cache_type = read_cache(alloc, input)?;
        let limiter: Option<Filed<Limiter>> = Stored::read(alloc, input)?;
        Ok(Drive {
            drive_id,
            path_on_host,
            is_root_device,
            is_read_only,
            cache_type,
            rate_limiter: taken(limiter),
        })
    }
}
