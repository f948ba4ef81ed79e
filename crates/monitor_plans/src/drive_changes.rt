// What a PUT and a PATCH of a drive come to.
ghost use Rattle.std.specs.Prelude.{◌≡◌, ℕ, true, List, None, Option, Some, is_some};
ghost use Rattle.vm_world.specs.Worlds.{WorldValue};
ghost use Rattle.std.specs.FinMap.{get};
ghost use Rattle.vm_types.specs.Saved.{Saved};
ghost use Rattle.vm_config.specs.Drives.{device_of};
ghost use Rattle.api_calls.specs.declared.call.ApiCall.TheVariants as call;
ghost use Rattle.flat_machine.specs.Ready.{IsFitting};
ghost use Rattle.vm_outside.specs.Filing.{SameFiles};
ghost use Rattle.vm_outside.specs.Known.{Lasts, Tells};
ghost use Rattle.flat_machine.specs.Requests.{sectors_of};
ghost use Rattle.monitor_plans.specs.DriveChanges.{DrivesGive, PatchGives};
ghost use Rattle.monitor_plans.specs.Plans.{KeepsReady, PlanCause};

use crate::drives::sectors_of;
use crate::plan::Plan;
use crate::taken_config::TakenConfig;
use api_calls::{ApiCall, Drive, DrivePatch};
use refusals::Refusal;
use std::alloc::Global;
use vm_outside::Files;

/// Another file of a drive.
#[derive(Drop)]
pub struct Resize {
    /// What is replaced of the drive: the name of its file, which is there.
    pub patch: DrivePatch,
    /// The number of the device that the drive is.
    pub device: Option<u8>,
    /// How many whole sectors of 512 bytes the file has.
    pub sectors: u64,
}

/// What comes of a PUT of a drive that the machine allows.
pub fn put_drive(alloc: Global, config: &TakenConfig, drive: Drive) -> Plan
    requires { IsFitting config.now (call.PutDrive drive) }
    ensures gives { DrivesGive result config.now drive }
    ensures keeps { (world : Option WorldValue) → world ≡ None → KeepsReady result config.now world }
    ensures cause { (n : ℕ) → PlanCause result n n }
{
    match config.get().with_drive(alloc, drive) {
        Ok(drives) => Plan::Drives(drives),
        Err(_) => Plan::NoMemory,
    }
}

/// What comes of a PATCH of a drive that the machine allows, by the file that it names, if it names one.
pub fn patch_drive<F: Files>(config: &TakenConfig, patch: DrivePatch, files: &mut F) -> Plan
    requires { IsFitting config.now (call.PatchDrive patch) }
    ensures gives { Tells (F.known files.old).health → PatchGives result config.now patch (F.known files.old).saved }
    ensures keeps { (world : Option WorldValue) → KeepsReady result config.now world }
    ensures same { Tells (F.known files.old).health → SameFiles (F.known files.old) (F.known files.new) }
    ensures cause { PlanCause result (F.known files.old).health.faults (F.known files.new).health.faults }
    ensures uncalled { patch.path_on_host ≡ None →
        (F.known files.new).health.faults ≡ (F.known files.old).health.faults }
    ensures lasts { Lasts (F.known files.old).health (F.known files.new).health }
{
    let Some(path) = &patch.path_on_host else {
        return Plan::Changes(ApiCall::PatchDrive(patch));
    };
    let Ok(size) = files.size(path.as_str()) else {
        return Plan::FilesFailed;
    };
    match size {
        None => Plan::Refused(Refusal::NoSuchFile),
        Some(_) => other_file(config, patch, sectors_of(size)),
    }
}

// What comes of another file, which has so many sectors.
fn other_file(config: &TakenConfig, patch: DrivePatch, sectors: u64) -> Plan
    requires { IsFitting config.now (call.PatchDrive patch) }
    ensures gives { (saved : Saved) (path : List ℕ) → patch.path_on_host ≡ Some path →
        is_some (get saved path) ≡ true → sectors ≡ sectors_of (get saved path) →
        PatchGives result config.now patch saved }
    ensures keeps { (world : Option WorldValue) → KeepsReady result config.now world }
    ensures cause { (n : ℕ) → PlanCause result n n }
{
    let device = device_number(config, patch.drive_id.as_str());
    Plan::Resizes(Resize {
        patch,
        device,
        sectors,
    })
}

/// The number of the device that the drive of this id is: the API takes 16 devices at most.
pub fn device_number(config: &TakenConfig, id: &str) -> Option<u8>
    ensures { result ≡ device_of config.now.drives id.now }
{
    let Some(number) = config.get().drives.device_number(id) else {
        return None;
    };
    let device = number as u8;
    Some(device)
}
