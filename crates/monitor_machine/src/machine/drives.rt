// What a PATCH of a drive changes.
ghost use Rattle.std.specs.Prelude.{◌<◌, ◌^◌};
ghost use Rattle.api_calls.specs.declared.call.ApiCall.TheVariants as call;
ghost use Rattle.flat_machine.specs.Ready.{IsFitting};
ghost use Rattle.monitor_machine.specs.Telling.{Resizes};

use crate::machine::LiveMachine;
use crate::machine::telling::{tell_device, tell_limits};
use api_calls::ApiCall;
use guest_devices::DeviceChange;
use monitor_plans::{LimitsOf, Resize};
use vm_world::World;

// It is told how many sectors its disk has, which is a number of its width.
fn tell_sectors(guest: &mut Option<World>, device: Option<u8>, sectors: u64)
    ensures resizes { Resizes device sectors guest.old guest.new }
    ensures fits { sectors < 2 ^ 64 }
{
    tell_device(guest, device, DeviceChange::of_sectors(sectors));
}

impl LiveMachine {
    ghost use Rattle.monitor_machine.specs.Plans.{TakesFile};

    // The name of the file is replaced, and the device is told how many sectors it has, and of other limits if there are.
    pub(super) fn take_file(&mut self, resize: Resize)
        requires { IsFitting self.old.config (call.PatchDrive resize.patch) }
        ensures { TakesFile resize self.old self.new }
    {
        tell_sectors(&mut self.guest, resize.device, resize.sectors);
        tell_limits(
            &mut self.guest,
            resize.device,
            LimitsOf::Requests,
            &resize.patch.rate_limiter,
        );
        let _applied = self.config.apply(ApiCall::PatchDrive(resize.patch));
    }
}
