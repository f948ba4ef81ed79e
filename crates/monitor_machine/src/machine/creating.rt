// What is answered to a create that is due.
ghost use Rattle.std.specs.Prelude.{◌≡◌, ◌+◌, ◌++◌, List, IfOk, OnErr};
ghost use Rattle.refusals.specs.declared.refusal.Refusal.TheVariants as refusal;
ghost use Rattle.api_rules.specs.Answers.{no_content, refused};
ghost use Rattle.http_stream.specs.declared.request.Next.{Next};
ghost use Rattle.http_stream.specs.declared.request.Request.{Request};
ghost use Rattle.guest_devices.specs.declared.device.Device.{Device};
ghost use Rattle.flat_machine.specs.Machine.{Machine};
ghost use Rattle.responses.specs.Responses.{written_as};
ghost use Rattle.vm_outside.specs.Filing.{SameFiles};
ghost use Rattle.vm_outside.specs.Known.{Lasts, Tells};

use crate::machine::LiveMachine;
use crate::outcome::Outcome;
use api_rules::done_answer;
use create_end::end_create;
use monitor_plans::{Creation, Plan, pages_of};
use responses::{ResponseForm, write_response};
use snap_writer::create;
use std::alloc::AllocError;
use vm_outside::{Failed, Files};
use vm_types::ByteList;

/// The two texts with which the run goes on: where the create is done, and where a call on the files failed.
#[derive(Drop)]
struct Texts {
    done: ByteList,
    failed: ByteList,
}

impl LiveMachine {
    ghost use Rattle.monitor_machine.specs.Plans.{HasPages, HasTwoNames, IsCreate};
    ghost use Rattle.monitor_machine.specs.Replying.{Replies, open_response};
    ghost use Rattle.monitor_machine.specs.State.{IsMachine};
    ghost use Rattle.monitor_machine.specs.Telling.{TellsOwn};

    // The text with either response behind it.
    fn texts(&self, form: ResponseForm, text: &ByteList) -> Result<Texts, AllocError>
        ensures done { IfOk result (λ texts.
            texts.done ≡ text.now ++ written_as form (open_response no_content)) }
        ensures failed { IfOk result (λ texts.
            texts.failed ≡ text.now ++ written_as form (open_response (refused refusal.OutsideFailed))) }
        ensures tells { IfOk result (λ texts. TellsOwn self.now) }
    {
        let mut done = ByteList::copy_of(self.alloc, text.as_slice())?;
        let bytes = write_response(self.alloc, form, &done_answer(), false)?;
        done.append(bytes.as_slice())?;
        let mut failed = ByteList::copy_of(self.alloc, text.as_slice())?;
        self.write_response(form, &Plan::FilesFailed, false, &mut failed)?;
        Ok(Texts { done, failed })
    }

    // Answers a create, whose files are written by calls that take no memory. An `Err` changes nothing.
    pub(super) fn answer_create<F: Files>(
        &mut self,
        form: ResponseForm,
        creation: Creation,
        files: &mut F,
        text: &mut ByteList,
    ) -> Result<Outcome, AllocError>
        requires names { HasTwoNames creation.names }
        requires pages { HasPages self.old.guest creation }
        requires number { creation.identity.number ≡ self.old.ids.next }
        requires next { creation.next ≡ creation.identity.number + 1 }
        ensures ok { IfOk result (λ how. (request : Request) (kept : List Device) →
            (Tells (F.known files.old).health → (m : Machine) →
            IsMachine self.old (F.known files.old) m → IsCreate creation m (Next.Request request) kept) →
            Replies form (Next.Request request) how self.old self.new text.old text.new
            (F.known files.old) (F.known files.new)) }
        ensures err { OnErr result (self.new ≡ self.old) }
        ensures same { OnErr result (Tells (F.known files.old).health →
            SameFiles (F.known files.old) (F.known files.new)) }
        ensures lasts { Lasts (F.known files.old).health (F.known files.new).health }
    {
        let Some(guest) = &self.guest else {
            unreachable!()
        };
        let mut room = creation.room;
        let Some(pages) = pages_of(guest, &creation.numbers) else {
            unreachable!()
        };
        let Ok(texts) = self.texts(form, text) else {
            return self.fall_short(form, text);
        };
        let written = create(
            files,
            &pages,
            &mut room,
            creation.head.as_slice(),
            creation.body.as_slice(),
            creation.names.snapshot_path.as_str(),
            creation.names.mem_file_path.as_str(),
        );
        end_create(
            written,
            creation.identity,
            creation.next,
            &mut self.ids,
            &mut self.guest,
        );
        match written {
            Ok(()) => {}
            Err(Failed) => {
                *text = texts.failed;
                return Ok(Outcome::Failed);
            }
        }
        *text = texts.done;
        Ok(Outcome::Answered)
    }
}
