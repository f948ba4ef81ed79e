// What comes of something that is due on the connection.
ghost use Rattle.std.specs.Prelude.{◌≡◌, IfOk};
ghost use Rattle.vm_config.specs.Views.{told_in};
ghost use Rattle.monitor_plans.specs.Plans.{plan_answer};

use crate::creating::Creation;
use crate::drive_changes::Resize;
use crate::restoring::Restored;
use api_calls::ApiCall;
use api_rules::{Answer, accepted_answer, done_answer, fault_answer};
use metadata_store::Store;
use refusals::Refusal;
use std::alloc::{AllocError, Global};
use vm_config::{Drives, Interfaces, MachineView};
use vm_world::World;

/// What comes of a request, where no file is left to be written: it is refused; this call is done; the drives are these; the
/// interfaces are these; a drive has another file; it stores these metadata; it starts this guest; it goes on from a snapshot; a call on the files
/// failed; or there is no memory.
#[derive(Drop)]
pub enum Plan {
    Refused(Refusal),
    Changes(ApiCall),
    Drives(Drives),
    Interfaces(Interfaces),
    Resizes(Resize),
    Stores(Store),
    Starts(World),
    Restores(Restored),
    FilesFailed,
    NoMemory,
}

/// What is to be done for a request: what a plan says, or a snapshot is to be written.
#[derive(Drop)]
pub enum Task {
    Plan(Plan),
    Create(Creation),
}

impl Plan {
    /// What the machine that is seen so answers.
    pub fn answer(&self, alloc: Global, machine: &MachineView<'_>) -> Result<Answer, AllocError>
        ensures { IfOk result (λ answer. answer ≡ plan_answer self.now (told_in machine.now)) }
    {
        match self {
            Plan::Refused(why) => fault_answer(alloc, *why),
            Plan::Changes(call) => accepted_answer(alloc, call, machine),
            Plan::Drives(_) | Plan::Interfaces(_) | Plan::Resizes(_) => Ok(done_answer()),
            Plan::Stores(_) | Plan::Starts(_) | Plan::Restores(_) => Ok(done_answer()),
            Plan::FilesFailed => fault_answer(alloc, Refusal::OutsideFailed),
            Plan::NoMemory => fault_answer(alloc, Refusal::OutOfMemory),
        }
    }
}
