// Requests on the connection.
ghost use Rattle.std.specs.Prelude.{◌≡◌, IfOk, OnErr};
ghost use Rattle.vm_outside.specs.Filing.{SameFiles};
ghost use Rattle.vm_outside.specs.Known.{Lasts, Tells};
ghost use Rattle.http_stream.specs.Conversation.{arrived};
ghost use Rattle.http_stream.specs.Sent.{sent};

use crate::monitor::Monitor;
use http_front::write_request;
use http_stream::Given;
use responses::ResponseForm;
use std::alloc::AllocError;
use vm_outside::Files;
use vm_types::ByteList;

impl Monitor {
    ghost use Rattle.monitor_core.specs.Going.{GivesFiling};
    ghost use Rattle.monitor_core.specs.Replying.{RepliedOrRests};
    ghost use Rattle.monitor_core.specs.Talking.{HasHalted, HasStopped, HasTalked, IsStillDue};

    // Answers the first thing that is due, if anything is, and says whether. After an `Err` it is still due, and the
    // files hold what they held.
    fn reply_next<F: Files>(
        &mut self,
        form: ResponseForm,
        files: &mut F,
        text: &mut ByteList,
    ) -> Result<bool, AllocError>
        ensures ok { IfOk result (λ more. RepliedOrRests form more self.old self.new text.old text.new
            (F.known files.old) (F.known files.new)) }
        ensures due { OnErr result (IsStillDue self.old.front) }
        ensures err { OnErr result (self.new ≡ self.old) }
        ensures uncalled { (GivesFiling self.old.front → ⊥) →
            (F.known files.new).health.faults ≡ (F.known files.old).health.faults }
        ensures same { OnErr result (Tells (F.known files.old).health →
            SameFiles (F.known files.old) (F.known files.new)) }
        ensures lasts { Lasts (F.known files.old).health (F.known files.new).health }
    {
        match self.front.peek() {
            Given::None => Ok(false),
            Given::Request(request) => {
                self.machine.answer_request(form, &request, files, text)?;
                self.front.skip();
                Ok(true)
            }
            Given::Bad(why) => {
                self.machine.refuse(form, why, text)?;
                self.front.skip();
                Ok(true)
            }
        }
    }

    // Answers everything that is due.
    fn talk<F: Files>(&mut self, form: ResponseForm, files: &mut F) -> Result<ByteList, AllocError>
        ensures ok { IfOk result (λ text.
            HasTalked form self.old self.new text (F.known files.old) (F.known files.new)) }
        ensures err { OnErr result (HasStopped form self.old self.new (F.known files.old) (F.known files.new)) }
        ensures lasts { Lasts (F.known files.old).health (F.known files.new).health }
    {
        let mut text = ByteList::new(self.alloc);
        'replies: while self.reply_next(form, files, &mut text)? {}
        Ok(text)
    }

    // Bytes come on the connection.
    pub(super) fn take_bytes<F: Files>(
        &mut self,
        form: ResponseForm,
        bytes: &[u8],
        files: &mut F,
    ) -> Result<ByteList, AllocError>
        ensures ok { IfOk result (λ text.
            HasTalked form (record self.old { front = arrived self.old.front bytes.now })
            self.new text (F.known files.old) (F.known files.new)) }
        ensures err { OnErr result
            (HasHalted form bytes.now self.old self.new (F.known files.old) (F.known files.new)) }
        ensures lasts { Lasts (F.known files.old).health (F.known files.new).health }
    {
        self.front.feed(bytes)?;
        self.talk(form, files)
    }

    // A request comes on the connection, whose response is a line.
    pub(super) fn take_request<F: Files>(
        &mut self,
        method: &[u8],
        path: &[u8],
        body: &[u8],
        files: &mut F,
    ) -> Result<ByteList, AllocError>
        ensures ok { IfOk result (λ text.
            HasTalked ResponseForm.Line (record self.old { front = arrived self.old.front (sent method.now path.now body.now) })
            self.new text (F.known files.old) (F.known files.new)) }
        ensures err { OnErr result (HasHalted ResponseForm.Line (sent method.now path.now body.now) self.old self.new
            (F.known files.old) (F.known files.new)) }
        ensures lasts { Lasts (F.known files.old).health (F.known files.new).health }
    {
        let bytes = write_request(self.alloc, method, path, body)?;
        self.take_bytes(ResponseForm::Line, bytes.as_slice(), files)
    }
}
