// What comes of a request.
ghost use Rattle.std.specs.Prelude.{◌≡◌, ℕ, List, Ok, false, true};
ghost use Rattle.vm_outside.specs.Filing.{SameFiles};
ghost use Rattle.vm_outside.specs.Known.{FilesKnown, Lasts, Tells};
ghost use Rattle.http_stream.specs.Asked.{request_in};
ghost use Rattle.http_stream.specs.declared.request.Request.{Request};
ghost use Rattle.api_calls.specs.Call.{call_of};
ghost use Rattle.api_rules.specs.Table.{decision, needs_files};
ghost use Rattle.guest_devices.specs.declared.device.Device.{Device};
ghost use Rattle.flat_machine.specs.Machine.{Machine};
ghost use Rattle.flat_machine.specs.Ready.{IsTaken};
ghost use Rattle.flat_machine.specs.Requests.{decided, parent_of};
ghost use Rattle.api_calls.specs.declared.call.ApiCall.TheVariants as call;
ghost use Rattle.monitor_plans.specs.Plans.{TaskCause};
ghost use Rattle.monitor_machine.specs.Replying.{AsksFiles};

use crate::machine::LiveMachine;
use api_calls::{ApiCall, SnapshotCreate, SnapshotType};
use api_json::{ReadError, read};
use api_rules::{Phase, decide};
use http_stream::{Asked, Next};
use monitor_plans::{
    Plan, Task, create, patch_drive, patch_metadata, put_drive, put_interface, put_metadata,
    restore, start,
};
use refusals::Refusal;
use vm_outside::Files;
use vm_types::Identity;

impl LiveMachine {
    ghost use Rattle.monitor_machine.specs.Plans.{CallsLater, CallsNone, IsDue, IsReady, IsTask, TaskKeepsReady};
    ghost use Rattle.monitor_machine.specs.Plans.{phase_of};
    ghost use Rattle.monitor_machine.specs.State.{IsMachine};

    pub(super) fn phase(&self) -> Phase
        ensures { result ≡ phase_of self.now }
    {
        match (&self.guest, self.paused) {
            (None, _) => Phase::NotStarted,
            (Some(_), false) => Phase::Running,
            (Some(_), true) => Phase::Paused,
        }
    }

    fn decided(&self, call: ApiCall) -> Result<ApiCall, Refusal>
        ensures is { result ≡ decision (phase_of self.now) self.now.config self.now.ids call }
        ensures taken { IsTaken self.now.config }
    {
        decide(self.phase(), self.config.get(), &self.ids, call)
    }

    // What comes of a call. The files are asked for a start, a load and another file of a drive alone.
    fn task_of_call<F: Files>(&self, call: ApiCall, files: &mut F) -> Task
        requires { (request : Request) × (call_of request ≡ Ok call) }
        ensures task { (kept : List Device) × (Tells (F.known files.old).health → (m : Machine) →
            IsMachine self.now (F.known files.old) m → (request : Request) → call_of request ≡ Ok call →
            IsTask result m (Next.Request request) kept) }
        ensures ready { IsReady result self.now.guest }
        ensures keeps { TaskKeepsReady result self.now }
        ensures later { CallsLater result (F.known files.old) (F.known files.new) }
        ensures cause { TaskCause result (F.known files.old).health.faults (F.known files.new).health.faults }
        ensures uncalled { (needs_files call ≡ true → ⊥) → CallsNone result
            (F.known files.old).health.faults (F.known files.new).health.faults }
        ensures same { Tells (F.known files.old).health → SameFiles (F.known files.old) (F.known files.new) }
        ensures lasts { Lasts (F.known files.old).health (F.known files.new).health }
    {
        match self.decided(call) {
            Ok(call) => self.task_of_allowed(call, files),
            Err(why) => Task::Plan(Plan::Refused(why)),
        }
    }

    // What comes of a call that is allowed, but for what the files and the metadata say.
    fn task_of_allowed<F: Files>(&self, call: ApiCall, files: &mut F) -> Task
        requires { IsDue self.now call }
        ensures task { (kept : List Device) × (Tells (F.known files.old).health → (m : Machine) →
            IsMachine self.now (F.known files.old) m → (given : Next) → decided m given ≡ Ok call →
            IsTask result m given kept) }
        ensures ready { IsReady result self.now.guest }
        ensures keeps { TaskKeepsReady result self.now }
        ensures later { CallsLater result (F.known files.old) (F.known files.new) }
        ensures cause { TaskCause result (F.known files.old).health.faults (F.known files.new).health.faults }
        ensures uncalled { needs_files call ≡ false → CallsNone result
            (F.known files.old).health.faults (F.known files.new).health.faults }
        ensures same { Tells (F.known files.old).health → SameFiles (F.known files.old) (F.known files.new) }
        ensures lasts { Lasts (F.known files.old).health (F.known files.new).health }
    {
        match call {
            ApiCall::InstanceStart => Task::Plan(start(self.alloc, &self.config, files)),
            ApiCall::LoadSnapshot(load) => Task::Plan(restore(self.alloc, &load, files)),
            ApiCall::PutDrive(drive) => Task::Plan(put_drive(self.alloc, &self.config, drive)),
            ApiCall::PatchDrive(patch) => Task::Plan(patch_drive(&self.config, patch, files)),
            ApiCall::PutInterface(interface) => {
                Task::Plan(put_interface(self.alloc, &self.config, interface))
            }
            ApiCall::PutMetadata(body) => Task::Plan(put_metadata(self.alloc, body)),
            ApiCall::PatchMetadata(patch) => Task::Plan(patch_metadata(&self.metadata, &patch)),
            ApiCall::CreateSnapshot(create) => self.task_of_create(create),
            call => Task::Plan(Plan::Changes(call)),
        }
    }

    // What comes of a create.
    fn task_of_create(&self, it: SnapshotCreate) -> Task
        requires { IsDue self.now (call.CreateSnapshot it) }
        ensures task { (kept : List Device) × ((known : FilesKnown) (m : Machine) → IsMachine self.now known m →
            (given : Next) → decided m given ≡ Ok (call.CreateSnapshot it) → IsTask result m given kept) }
        ensures ready { IsReady result self.now.guest }
        ensures keeps { TaskKeepsReady result self.now }
        ensures cause { (n : ℕ) → TaskCause result n n }
    {
        let identity = Identity {
            lineage: self.ids.lineage,
            number: self.ids.next,
        };
        let parent = self.parent(it.snapshot_type);
        let Some(guest) = &self.guest else {
            unreachable!()
        };
        let config = self.config.get();
        create(self.alloc, config, parent, identity, guest, it.files)
    }

    // What a snapshot of this type is a diff of.
    fn parent(&self, snapshot_type: SnapshotType) -> Option<Identity>
        ensures { result ≡ parent_of snapshot_type self.now.ids.base }
    {
        match snapshot_type {
            SnapshotType::Full => None,
            SnapshotType::Diff => self.ids.base,
        }
    }

    // What comes of a request.
    pub(super) fn task<F: Files>(&self, request: &Asked<'_>, files: &mut F) -> Task
        ensures task { (kept : List Device) × (Tells (F.known files.old).health → (m : Machine) →
            IsMachine self.now (F.known files.old) m → IsTask result m (Next.Request (request_in request.now)) kept) }
        ensures ready { IsReady result self.now.guest }
        ensures keeps { TaskKeepsReady result self.now }
        ensures later { CallsLater result (F.known files.old) (F.known files.new) }
        ensures cause { TaskCause result (F.known files.old).health.faults (F.known files.new).health.faults }
        ensures uncalled { (AsksFiles (request_in request.now) → ⊥) → CallsNone result
            (F.known files.old).health.faults (F.known files.new).health.faults }
        ensures same { Tells (F.known files.old).health → SameFiles (F.known files.old) (F.known files.new) }
        ensures lasts { Lasts (F.known files.old).health (F.known files.new).health }
    {
        match read(self.alloc, request) {
            Ok(call) => self.task_of_call(call, files),
            Err(ReadError::Refused(why)) => Task::Plan(Plan::Refused(why)),
            Err(ReadError::OutOfMemory) => Task::Plan(Plan::NoMemory),
        }
    }
}
