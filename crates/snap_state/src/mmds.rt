// How a guest is given metadata, as it is configured.
ghost use Rattle.std.specs.Prelude.{◌≡◌, OnOk};
ghost use Rattle.std.specs.List.{list_all};
ghost use Rattle.file_format.specs.Kinds.{list_of, text, times};
ghost use Rattle.file_format.specs.Reading.{Takes};
ghost use Rattle.api_calls.specs.Form.{are_ids, holds, is_address, is_id};
ghost use Rattle.snap_state.specs.Mmds.{mmds, version, version_named};
ghost use Rattle.snap_state.specs.Valid as valid;

use crate::attached::{are_there, is_id};
use crate::drives::write_text;
use crate::filed::Filed;
use crate::valid::is_short_text;
use api_calls::{IdList, Interface, MmdsConfig, is_metadata_address};
use file_format::{Input, ReadError, Stored, write_count, write_items};
use metadata_store::MetadataVersion;
use std::alloc::{AllocError, Global};
use vm_config::version_text;
use vm_types::TextList;

/// A machine has no more devices.
const MOST_IDS: usize = 16;

const LONGEST_ADDRESS: usize = 15;

fn version_named(name: &str) -> Option<MetadataVersion>
    ensures { result ≡ version_named name.now }
{
    if name == "V1" {
        Some(MetadataVersion::V1)
    } else if name == "V2" {
        Some(MetadataVersion::V2)
    } else {
        None
    }
}

#[tactic(auto, unfolding(crate::specs::Mmds::version))]
fn write_version(it: MetadataVersion, out: &mut Vec<u8>) -> Result<(), AllocError>
    ensures fits { OnOk result (version.Fits it) }
    ensures bytes { OnOk result (out.new.items ≡ version.puts it out.old.items) }
{
    write_text(version_text(it), out)?;
    Ok(())
}

#[tactic(auto, unfolding(crate::specs::Mmds::version))]
fn read_version(alloc: Global, input: &mut Input) -> Result<MetadataVersion, ReadError>
    ensures { Takes version input.old input.new result }
{
    let name: TextList = Stored::read(alloc, input)?;
    match version_named(name.as_str()) {
        Some(it) => Ok(it),
        None => Err(ReadError::Bad),
    }
}

#[tactic(auto, unfolding(file_format::specs::Kinds::list_of, file_format::specs::Kinds::number32, file_format::specs::Kinds::times))]
fn write_ids(ids: &[TextList], out: &mut Vec<u8>) -> Result<(), AllocError>
    ensures fits { OnOk result ((list_of text).Fits ids.now) }
    ensures bytes { OnOk result (out.new.items ≡ (list_of text).puts ids.now out.old.items) }
{
    write_count(ids.len(), out)?;
    write_items(ids, out)?;
    Ok(())
}

#[tactic(auto, using(file_format::proofs::Loops::readings), unfolding(file_format::specs::Kinds::times))]
fn so_many_ids(alloc: Global, count: u32, input: &mut Input) -> Result<IdList, ReadError>
    ensures { Takes (times count text) input.old input.new result }
{
    let mut ids = IdList::new(alloc);
    for _ in 0..count {
        let id = TextList::read(alloc, input)?;
        ids.push(id)?;
    }
    Ok(ids)
}

#[tactic(auto, unfolding(file_format::specs::Kinds::list_of, file_format::specs::Kinds::number32, file_format::specs::Kinds::times))]
fn read_ids(alloc: Global, input: &mut Input) -> Result<IdList, ReadError>
    ensures { Takes (list_of text) input.old input.new result }
{
    let count = u32::read(alloc, input)?;
    let ids = so_many_ids(alloc, count, input)?;
    Ok(ids)
}

#[tactic(auto, unfolding(crate::specs::Mmds::mmds))]
impl Stored for Filed<MmdsConfig> {
    ghost format = { mmds };

    fn write(&self, out: &mut Vec<u8>) -> Result<(), AllocError> {
        write_ids(self.value.network_interfaces.as_slice(), out)?;
        write_version(self.value.version, out)?;
        self.value.ipv4_address.write(out)?;
        Ok(())
    }

    fn read(alloc: Global, input: &mut Input) -> Result<Filed<MmdsConfig>, ReadError> {
        let network_interfaces = read_ids(alloc, input)?;
        let version = read_version(alloc, input)?;
        let ipv4_address = TextList::read(alloc, input)?;
        Ok(Filed {
            value: MmdsConfig {
                network_interfaces,
                version,
                ipv4_address,
            },
        })
    }
}

// ---- which there may be

fn all_ids(ids: &[TextList]) -> bool
    ensures { result ≡ list_all is_id ids.now }
{
    ids.iter().all(|id| is_id(id.as_str()))
}

fn are_ids(ids: &[TextList]) -> bool
    ensures { result ≡ are_ids ids.now }
{
    0 < ids.len() && ids.len() <= MOST_IDS && all_ids(ids)
}

fn is_address(text: &str) -> bool
    ensures { result ≡ is_address text.now }
{
    is_short_text(LONGEST_ADDRESS, text) && is_metadata_address(text.as_bytes())
}

fn is_mmds(interfaces: &[Interface], mmds: &MmdsConfig) -> bool
    ensures { result ≡ valid.is_mmds interfaces.now mmds.now }
{
    let ids = mmds.network_interfaces.as_slice();
    are_ids(ids) && are_there(interfaces, ids) && is_address(mmds.ipv4_address.as_str())
}

/// Whether a machine with these interfaces may give its guest metadata so, if it does.
pub fn holds_mmds(interfaces: &[Interface], mmds: &Option<Filed<MmdsConfig>>) -> bool
    ensures { result ≡ holds (valid.is_mmds interfaces.now) mmds.now }
{
    match mmds {
        None => true,
        Some(mmds) => is_mmds(interfaces, &mmds.value),
    }
}
