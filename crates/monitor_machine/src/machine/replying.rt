// What is answered to something that is due.
ghost use Rattle.std.specs.Prelude.{◌≡◌, ◌⊎◌, ◌++◌, false, true, IfOk, None, OnOk, OnErr};
ghost use Rattle.flat_machine.specs.Ready.{AreFitting, AreLinked, IsFitting};
ghost use Rattle.api_rules.specs.Table.{changed};
ghost use Rattle.api_calls.specs.declared.call.ApiCall.TheVariants as call;
ghost use Rattle.vm_outside.specs.Filing.{SameFiles};
ghost use Rattle.vm_outside.specs.Known.{FilesKnown, Lasts, Tells};
ghost use Rattle.http_stream.specs.Asked.{request_in};
ghost use Rattle.http_stream.specs.declared.request.Next.{Next};
ghost use Rattle.http_stream.specs.declared.request.Request.{Request};
ghost use Rattle.responses.specs.Responses.{written_as};
ghost use Rattle.monitor_machine.specs.Plans.{halted_world, paused_by, world_by};

use crate::machine::LiveMachine;
use crate::outcome::Outcome;
use api_calls::{ApiCall, VmState};
use http_stream::Asked;
use metadata_store::Store;
use monitor_plans::{Plan, Restored, Task};
use refusals::Refusal;
use responses::{ResponseForm, write_response};
use std::alloc::AllocError;
use vm_config::{Drives, Interfaces, MachineView};
use vm_outside::Files;
use vm_types::ByteList;
use vm_world::World;

// A guest that there is begins its timer anew.
fn restart_timer(guest: &mut Option<World>)
    ensures { guest.new ≡ halted_world false guest.old }
{
    match guest {
        None => {}
        Some(guest) => guest.restart_timer(),
    }
}

impl LiveMachine {
    ghost use Rattle.monitor_machine.specs.Plans.{Answers, PlanLeaves, plan_outcome, plan_response};
    ghost use Rattle.monitor_machine.specs.Replying.{AsksFiles, Replies};
    ghost use Rattle.monitor_machine.specs.Telling.{TellsOwn};
    ghost use Rattle.monitor_plans.specs.Plans.{HasReadyGuest, IsEarly, IsReadyPlan, KeepsReady};

    // Puts the plan's response behind the text.
    pub(super) fn write_response(
        &self,
        form: ResponseForm,
        plan: &Plan,
        closes: bool,
        text: &mut ByteList,
    ) -> Result<(), AllocError>
        ensures ok { OnOk result
            (text.new ≡ text.old ++ written_as form (plan_response plan.now closes self.now)) }
        ensures tells { TellsOwn self.now }
        ensures err { OnErr result (text.new ≡ text.old) }
    {
        let machine = MachineView {
            id: self.id.as_str(),
            phase: self.phase(),
            config: self.config.get(),
            metadata: &self.metadata,
            statistics: self.statistics(),
        };
        let answer = plan.answer(self.alloc, &machine)?;
        let bytes = write_response(self.alloc, form, &answer, closes)?;
        text.append(bytes.as_slice())
    }

    // Puts the plan's response behind the text, or that there was no memory for it, and answers which.
    fn written(
        &self,
        form: ResponseForm,
        plan: Plan,
        closes: bool,
        text: &mut ByteList,
    ) -> Result<Plan, AllocError>
        ensures which { IfOk result (λ done. (done ≡ plan) ⊎ (done ≡ Plan.NoMemory)) }
        ensures response { IfOk result (λ done.
            text.new ≡ text.old ++ written_as form (plan_response done closes self.now)) }
        ensures tells { TellsOwn self.now }
        ensures keeps { IfOk result (λ done. KeepsReady plan self.now.config self.now.guest →
            KeepsReady done self.now.config self.now.guest) }
    {
        match self.write_response(form, &plan, closes, text) {
            Ok(()) => Ok(plan),
            Err(_) => {
                self.write_response(form, &Plan::NoMemory, closes, text)?;
                Ok(Plan::NoMemory)
            }
        }
    }

    // The guest stands still from now on, or goes on, where the call says so. One that ran begins its timer anew.
    fn stand(&mut self, call: &ApiCall)
        ensures { self.new ≡ record self.old {
          guest = world_by call.now self.old.paused self.old.guest;
          paused = paused_by call.now self.old.paused;
        } }
    {
        match call {
            ApiCall::PatchVm(VmState::Paused) => self.pause(),
            ApiCall::PatchVm(VmState::Resumed) => self.resume(),
            _ => {}
        }
    }

    fn pause(&mut self)
        ensures { self.new ≡ record self.old { guest = halted_world self.old.paused self.old.guest; paused = true } }
    {
        if self.paused {
            return;
        }
        restart_timer(&mut self.guest);
        self.paused = true;
    }

    fn resume(&mut self)
        ensures { self.new ≡ record self.old { paused = false } }
    {
        self.paused = false;
    }

    // The call is done, which takes no memory.
    fn take_change(&mut self, call: ApiCall)
        requires fits { IsFitting self.old.config call }
        requires early { IsEarly call self.old.guest }
        ensures { PlanLeaves (Plan.Changes call) self.old self.new }
    {
        self.stand(&call);
        self.tell(&call);
        let _applied = self.config.apply(call);
    }

    fn take_drives(&mut self, drives: Drives)
        requires fit { AreFitting drives self.old.config.interfaces self.old.config.vsock self.old.config.balloon self.old.config.entropy }
        requires early { self.old.guest ≡ None }
        ensures { PlanLeaves (Plan.Drives drives) self.old self.new }
    {
        self.config.set_drives(drives);
    }

    fn take_interfaces(&mut self, interfaces: Interfaces)
        requires fit { AreLinked self.old.config.drives interfaces self.old.config.vsock self.old.config.balloon self.old.config.entropy self.old.config.mmds }
        requires early { self.old.guest ≡ None }
        ensures { PlanLeaves (Plan.Interfaces interfaces) self.old self.new }
    {
        self.config.set_interfaces(interfaces);
    }

    fn take_metadata(&mut self, metadata: Store)
        ensures { PlanLeaves (Plan.Stores metadata) self.old self.new }
    {
        self.metadata = metadata;
    }

    // The guest runs.
    fn begin(&mut self, guest: World)
        requires { HasReadyGuest (changed self.old.config call.InstanceStart) false guest }
        ensures { PlanLeaves (Plan.Starts guest) self.old self.new }
    {
        let _applied = self.config.apply(ApiCall::InstanceStart);
        self.guest = Some(guest);
        self.paused = false;
    }

    // The machine goes on from a snapshot.
    fn go_on(&mut self, restored: Restored)
        requires { IsReadyPlan (Plan.Restores restored) self.old.config }
        ensures { PlanLeaves (Plan.Restores restored) self.old self.new }
    {
        self.ids.base = Some(restored.identity);
        self.ids.next = restored.next;
        self.config = restored.config;
        self.metadata = Store::new(self.alloc);
        self.guest = Some(restored.guest);
        self.paused = !restored.resumes;
    }

    // Does what was answered, which takes no memory.
    fn perform(&mut self, plan: Plan) -> Outcome
        requires { KeepsReady plan self.old.config self.old.guest }
        ensures how { result ≡ plan_outcome plan }
        ensures leaves { PlanLeaves plan self.old self.new }
    {
        match plan {
            Plan::Refused(_) => {}
            Plan::Changes(call) => self.take_change(call),
            Plan::Drives(drives) => self.take_drives(drives),
            Plan::Interfaces(interfaces) => self.take_interfaces(interfaces),
            Plan::Resizes(resize) => self.take_file(resize),
            Plan::Stores(metadata) => self.take_metadata(metadata),
            Plan::Starts(guest) => self.begin(guest),
            Plan::Restores(restored) => self.go_on(restored),
            Plan::FilesFailed => return Outcome::Failed,
            Plan::NoMemory => return Outcome::NoMemory,
        }
        Outcome::Answered
    }

    // Answers what is due by its plan. An `Err` changes nothing.
    fn answer(
        &mut self,
        form: ResponseForm,
        plan: Plan,
        closes: bool,
        text: &mut ByteList,
    ) -> Result<Outcome, AllocError>
        requires { KeepsReady plan self.old.config self.old.guest }
        ensures ok { IfOk result (λ how. Answers form plan closes how self.old self.new text.old text.new) }
        ensures err { OnErr result (self.new ≡ self.old) }
    {
        let plan = self.written(form, plan, closes, text)?;
        Ok(self.perform(plan))
    }

    /// Answers a request, with its response in this form behind the text: by the machine, 500 where a call on the files
    /// failed, or 503 where there was no memory. An `Err` changes nothing: there was no memory, not even for a 503.
    pub fn answer_request<F: Files>(
        &mut self,
        form: ResponseForm,
        request: &Asked<'_>,
        files: &mut F,
        text: &mut ByteList,
    ) -> Result<Outcome, AllocError>
        ensures ok { IfOk result (λ how. Replies form (Next.Request (request_in request.now)) how self.old self.new
            text.old text.new (F.known files.old) (F.known files.new)) }
        ensures err { OnErr result (self.new ≡ self.old) }
        ensures uncalled { (AsksFiles (request_in request.now) → ⊥) →
            (F.known files.new).health.faults ≡ (F.known files.old).health.faults }
        ensures same { OnErr result (Tells (F.known files.old).health →
            SameFiles (F.known files.old) (F.known files.new)) }
        ensures lasts { Lasts (F.known files.old).health (F.known files.new).health }
    {
        match self.task(request, files) {
            Task::Plan(plan) => {
                let how = self.answer(form, plan, false, text)?;
                Ok(how)
            }
            Task::Create(creation) => {
                let done = self.answer_create(form, creation, files, text)?;
                Ok(done)
            }
        }
    }

    /// Answers bytes that are no request, by why they are none, or 503 where there was no memory. The connection ends
    /// with that. An `Err` changes nothing.
    pub fn refuse(
        &mut self,
        form: ResponseForm,
        why: Refusal,
        text: &mut ByteList,
    ) -> Result<Outcome, AllocError>
        ensures ok { IfOk result (λ how. (known : FilesKnown) →
            Replies form (Next.Bad why) how self.old self.new text.old text.new known known) }
        ensures err { OnErr result (self.new ≡ self.old) }
    {
        let how = self.answer(form, Plan::Refused(why), true, text)?;
        Ok(how)
    }

    // Answers 503 to a request. An `Err` changes nothing.
    pub(super) fn fall_short(
        &mut self,
        form: ResponseForm,
        text: &mut ByteList,
    ) -> Result<Outcome, AllocError>
        ensures ok { IfOk result (λ how. (request : Request) (known : FilesKnown) →
            Replies form (Next.Request request) how self.old self.new text.old text.new known known) }
        ensures err { OnErr result (self.new ≡ self.old) }
    {
        let how = self.answer(form, Plan::NoMemory, false, text)?;
        Ok(how)
    }
}
