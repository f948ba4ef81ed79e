// The devices, each as a list of its bytes.
ghost use Rattle.std.specs.Prelude.{◌≡◌, OnOk};
ghost use Rattle.file_format.specs.Reading.{Takes};
ghost use Rattle.snap_state.specs.Copies.{devices};

use file_format::{Input, Items, Listed, ReadError, Stored, read_items};
use port_table::MOST_DEVICES;
use snap_devices::SavedDevice;
use std::alloc::{AllocError, Global};

/// Puts the devices at the end. More than there can be are given up as if there were no memory.
#[tactic(auto, unfolding(crate::specs::Copies::devices))]
pub fn write_devices(list: &Items<Listed<SavedDevice>>, out: &mut Vec<u8>) -> Result<(), AllocError>
    ensures fits { OnOk result (devices.Fits list.now) }
    ensures bytes { OnOk result (out.new.items ≡ devices.puts list.now out.old.items) }
{
    if list.as_slice().len() > MOST_DEVICES {
        return Err(AllocError);
    }
    list.write(out)?;
    Ok(())
}

/// Takes the devices from the front. A device takes more memory than it may have bytes, so their count is judged first.
pub fn read_devices(
    alloc: Global,
    input: &mut Input,
) -> Result<Items<Listed<SavedDevice>>, ReadError>
    ensures { Takes devices input.old input.new result }
{
    let count = u32::read(alloc, input)?;
    if count as usize > MOST_DEVICES {
        return Err(ReadError::Bad);
    }
    let list = read_items(alloc, count, input)?;
    Ok(list)
}
