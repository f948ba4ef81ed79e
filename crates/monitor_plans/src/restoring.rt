// What a load comes to.
ghost use Rattle.std.specs.Prelude.{◌≡◌, Option};
ghost use Rattle.vm_world.specs.Worlds.{WorldValue};
ghost use Rattle.vm_outside.specs.Filing.{SameFiles};
ghost use Rattle.vm_outside.specs.Known.{Lasts, Tells};
ghost use Rattle.vm_config.specs.declared.config.Config.{Config};
ghost use Rattle.monitor_plans.specs.Plans.{KeepsReady, PlanCause};
ghost use Rattle.monitor_plans.specs.Restoring.{RestoreGives};

use crate::plan::Plan;
use crate::taken_config::TakenConfig;
use api_calls::SnapshotLoad;
use snap_restore::{FindError, find};
use std::alloc::Global;
use vm_outside::Files;
use vm_types::Identity;
use vm_world::World;
use world_copy::{config_of, world_of};

/// A machine that goes on from a snapshot.
#[derive(Drop)]
pub struct Restored {
    /// The snapshot that it goes on from.
    pub identity: Identity,
    /// The number of the snapshot after it.
    pub next: u64,
    pub config: TakenConfig,
    pub guest: World,
    /// Whether it runs at once.
    pub resumes: bool,
}

/// What comes of a load that the machine allows, by the two files that it names.
pub fn restore<F: Files>(alloc: Global, load: &SnapshotLoad, files: &mut F) -> Plan
    ensures gives { Tells (F.known files.old).health → RestoreGives result load.now (F.known files.old).saved }
    ensures keeps { (config : Config) (world : Option WorldValue) → KeepsReady result config world }
    ensures same { Tells (F.known files.old).health → SameFiles (F.known files.old) (F.known files.new) }
    ensures cause { PlanCause result (F.known files.old).health.faults (F.known files.new).health.faults }
    ensures lasts { Lasts (F.known files.old).health (F.known files.new).health }
{
    match find(alloc, files, &load.files) {
        Ok(found) => {
            let Ok(carried) = world_of(alloc, found.copy, found.pages) else {
                return Plan::NoMemory;
            };
            let config = config_of(
                carried.configuration,
                carried.entropy,
                load.track_dirty_pages,
            );
            Plan::Restores(Restored {
                identity: found.identity,
                next: found.identity.number + 1,
                config: TakenConfig::of(config),
                guest: carried.world,
                resumes: load.resume_vm,
            })
        }
        Err(FindError::Refused(why)) => Plan::Refused(why),
        Err(FindError::Fault) => Plan::FilesFailed,
        Err(FindError::OutOfMemory) => Plan::NoMemory,
    }
}
