// What an accepted call leaves of what is configured.
ghost use Rattle.std.specs.Prelude.{◌≡◌, false, IsOk, OnOk, OnErr};
ghost use Rattle.api_rules.specs.Table.{changed, takes_memory};

use api_calls::ApiCall;
use std::alloc::AllocError;
use vm_config::{Config, with_amount, with_fields, with_interval};

/// Takes what an accepted call changes. What is given moves in, so that only one drive or one interface more takes
/// memory. An `Err` changes nothing.
pub fn apply(config: &mut Config, call: ApiCall) -> Result<(), AllocError>
    ensures succeeds { takes_memory call ≡ false → IsOk result }
    ensures ok { OnOk result (config.new ≡ changed config.old call) }
    ensures err { OnErr result (config.new ≡ config.old) }
{
    match call {
        ApiCall::PutBootSource(source) => {
            config.boot_source = Some(source);
            config.configured = true;
        }
        ApiCall::PutDrive(drive) => return config.put_drive(drive),
        ApiCall::PatchDrive(patch) => config.patch_drive(patch),
        ApiCall::PutInterface(interface) => return config.put_interface(interface),
        ApiCall::PatchInterface(patch) => config.patch_interface(patch),
        ApiCall::PutVsock(vsock) => {
            config.vsock = Some(vsock);
            config.configured = true;
        }
        ApiCall::PutMachineConfig(machine) => {
            config.machine = machine;
            config.configured = true;
        }
        ApiCall::PatchMachineConfig(patch) => {
            config.machine = with_fields(&patch, &config.machine);
            config.configured = true;
        }
        ApiCall::PutBalloon(balloon) => {
            config.balloon = Some(balloon);
            config.configured = true;
        }
        ApiCall::PatchBalloon(patch) => config.balloon = with_amount(patch, config.balloon),
        ApiCall::PatchStatistics(patch) => config.balloon = with_interval(patch, config.balloon),
        ApiCall::PutEntropy(entropy) => {
            config.entropy = Some(entropy);
            config.configured = true;
        }
        ApiCall::PutMmdsConfig(mmds) => {
            config.mmds = Some(mmds);
            config.configured = true;
        }
        ApiCall::InstanceStart => config.configured = true,
        ApiCall::LoadSnapshot(_load) => config.configured = true,
        ApiCall::PutMetadata(_body) => {}
        ApiCall::PatchMetadata(_patch) => {}
        ApiCall::CreateSnapshot(_create) => {}
        ApiCall::PatchVm(_) | ApiCall::Get(_) => {}
    }
    Ok(())
}
