// A device.
ghost use Rattle.std.specs.Prelude.{◌≡◌, ◌++◌, true, IfOk, OnOk};
ghost use Rattle.file_format.specs.Ends.{TakesAll};
ghost use Rattle.guest_devices.specs.Kept.{is_saved};
ghost use Rattle.snap_devices.specs.Devices.{device};

use crate::balloon::{read_balloon, write_balloon};
use crate::block::{read_block, write_block};
use crate::entropy::{read_entropy, write_entropy};
use crate::net::{read_net, write_net};
use crate::saved::SavedDevice;
use crate::vsock::{read_vsock, write_vsock};
use file_format::{Input, ReadError, Stored, Whole};
use guest_devices::Device;
use std::alloc::{AllocError, Global};

fn write_device(it: &Device, out: &mut Vec<u8>) -> Result<(), AllocError>
    requires { is_saved it.now ≡ true }
    ensures fits { OnOk result (device.Fits it.now) }
    ensures bytes { OnOk result (out.new.items ≡ out.old.items ++ device.bytes it.now) }
{
    match it {
        Device::Block(block) => {
            1u8.write(out)?;
            write_block(block, out)?;
        }
        Device::Net(net) => {
            0u8.write(out)?;
            write_net(net, out)?;
        }
        Device::Balloon(balloon) => {
            2u8.write(out)?;
            write_balloon(balloon, out)?;
        }
        Device::Entropy(entropy) => {
            4u8.write(out)?;
            write_entropy(entropy, out)?;
        }
        Device::Vsock(vsock) => {
            3u8.write(out)?;
            write_vsock(vsock, out)?;
        }
    }
    Ok(())
}

#[tactic(auto, using(crate::proofs::Reading::kind_bad, crate::proofs::Reading::block_is, crate::proofs::Reading::block_none, crate::proofs::Reading::net_is, crate::proofs::Reading::net_none, crate::proofs::Reading::balloon_is, crate::proofs::Reading::balloon_none, crate::proofs::Reading::vsock_is, crate::proofs::Reading::vsock_none, crate::proofs::Reading::entropy_is, crate::proofs::Reading::entropy_none, crate::proofs::Reading::other_none,))]
fn read_device(alloc: Global, bytes: &[u8]) -> Result<Device, ReadError>
    ensures device { TakesAll device bytes.now result }
    ensures saved { IfOk result (λ it. is_saved it ≡ true) }
{
    let mut input = Input::new(bytes);
    match u8::read(alloc, &mut input) {
        Ok(0) => match read_net(alloc, &mut input) {
            Ok(net) => Ok(Device::Net(net)),
            Err(error) => Err(error),
        },
        Ok(1) => match read_block(alloc, &mut input) {
            Ok(block) => Ok(Device::Block(block)),
            Err(error) => Err(error),
        },
        Ok(2) => match read_balloon(alloc, &mut input) {
            Ok(balloon) => Ok(Device::Balloon(balloon)),
            Err(error) => Err(error),
        },
        Ok(3) => match read_vsock(alloc, &mut input) {
            Ok(vsock) => Ok(Device::Vsock(vsock)),
            Err(error) => Err(error),
        },
        Ok(4) => match read_entropy(alloc, &mut input) {
            Ok(entropy) => Ok(Device::Entropy(entropy)),
            Err(error) => Err(error),
        },
        Ok(_) => Err(ReadError::Bad),
        Err(error) => Err(error),
    }
}

impl Whole for SavedDevice {
    ghost listing = { device };

    fn write_all(&self, out: &mut Vec<u8>) -> Result<(), AllocError> {
        write_device(self.device(), out)?;
        Ok(())
    }

    fn read_all(alloc: Global, bytes: &[u8]) -> Result<SavedDevice, ReadError> {
        match read_device(alloc, bytes) {
            Ok(device) => Ok(SavedDevice::new(device)),
            Err(error) => Err(error),
        }
    }
}
