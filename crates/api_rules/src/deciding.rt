// Whether a call is allowed, or its first refusal.
ghost use Rattle.std.specs.Prelude.{◌≡◌};
ghost use Rattle.api_rules.specs.Table as table;

use crate::actions::start_refusal;
use crate::ids::Ids;
use crate::machine_config::{memory_refusal, patch_refusal};
use crate::snapshot::{create_refusal, load_refusal};
use crate::{balloon, drives, entropy, interfaces, mmds, vsock};
use api_calls::{ApiCall, Part};
use refusals::Refusal;
use vm_config::{Config, Phase};

/// When a call is allowed.
#[derive(Clone, Copy, Drop)]
pub enum When {
    BeforeBoot,
    AfterBoot,
    Always,
}

fn when_told(part: Part) -> When
    ensures { result ≡ table.when_told part }
{
    match part {
        Part::Statistics => When::AfterBoot,
        Part::Instance
        | Part::Version
        | Part::MachineConfig
        | Part::Metadata
        | Part::VmConfig
        | Part::Balloon => When::Always,
    }
}

fn when_allowed(call: &ApiCall) -> When
    ensures { result ≡ table.when_allowed call.now }
{
    match call {
        ApiCall::PutBootSource(_)
        | ApiCall::PutDrive(_)
        | ApiCall::PutInterface(_)
        | ApiCall::PutVsock(_)
        | ApiCall::PutMachineConfig(_)
        | ApiCall::PatchMachineConfig(_)
        | ApiCall::PutBalloon(_)
        | ApiCall::PutEntropy(_)
        | ApiCall::PutMmdsConfig(_)
        | ApiCall::InstanceStart
        | ApiCall::LoadSnapshot(_) => When::BeforeBoot,
        ApiCall::PatchDrive(_)
        | ApiCall::PatchInterface(_)
        | ApiCall::PatchBalloon(_)
        | ApiCall::PatchStatistics(_)
        | ApiCall::PatchVm(_)
        | ApiCall::CreateSnapshot(_) => When::AfterBoot,
        ApiCall::PutMetadata(_) | ApiCall::PatchMetadata(_) => When::Always,
        ApiCall::Get(part) => when_told(*part),
    }
}

fn misplaced(when: When, phase: Phase) -> Option<Refusal>
    ensures { result ≡ table.misplaced when phase }
{
    match (when, phase) {
        (When::BeforeBoot, Phase::Running | Phase::Paused) => Some(Refusal::OnlyBeforeBoot),
        (When::AfterBoot, Phase::NotStarted) => Some(Refusal::OnlyAfterBoot),
        _ => None,
    }
}

fn own_refusal(phase: Phase, config: &Config, ids: &Ids, call: &ApiCall) -> Option<Refusal>
    ensures { result ≡ table.own_refusal phase config.now ids.now call.now }
{
    match call {
        ApiCall::PutDrive(drive) => drives::put_refusal(config, drive),
        ApiCall::PatchDrive(patch) => drives::patch_refusal(config, patch),
        ApiCall::PutInterface(interface) => interfaces::put_refusal(config, interface),
        ApiCall::PatchInterface(patch) => interfaces::patch_refusal(config, patch),
        ApiCall::PutVsock(_) => vsock::put_refusal(config),
        ApiCall::PutMachineConfig(machine) => memory_refusal(config, machine.mem_size_mib),
        ApiCall::PatchMachineConfig(patch) => patch_refusal(config, patch),
        ApiCall::PutBalloon(balloon) => balloon::put_refusal(config, balloon),
        ApiCall::PatchBalloon(patch) => balloon::patch_refusal(config, patch),
        ApiCall::PatchStatistics(patch) => balloon::statistics_refusal(config, patch),
        ApiCall::PutEntropy(_) => entropy::put_refusal(config),
        ApiCall::PutMmdsConfig(mmds) => mmds::put_refusal(config, mmds),
        ApiCall::Get(part) => balloon::told_refusal(config, *part),
        ApiCall::InstanceStart => start_refusal(config),
        ApiCall::CreateSnapshot(create) => create_refusal(phase, config, ids, create.snapshot_type),
        ApiCall::LoadSnapshot(_) => load_refusal(config),
        ApiCall::PutBootSource(_)
        | ApiCall::PutMetadata(_)
        | ApiCall::PatchMetadata(_)
        | ApiCall::PatchVm(_) => None,
    }
}

/// The call, where it is allowed in this phase, or its first refusal: by the phase, then its own in the table's order.
///
/// It takes no memory: texts are moved. It asks no file: a start goes on with `boot_refusal`, and a PATCH of a drive with
/// the file. Nor does it look at the metadata: a PUT or a PATCH of them goes on with the store.
pub fn decide(phase: Phase, config: &Config, ids: &Ids, call: ApiCall) -> Result<ApiCall, Refusal>
    ensures { result ≡ table.decision phase config.now ids.now call }
{
    if let Some(why) = misplaced(when_allowed(&call), phase) {
        return Err(why);
    }
    if let Some(why) = own_refusal(phase, config, ids, &call) {
        return Err(why);
    }
    Ok(call)
}
