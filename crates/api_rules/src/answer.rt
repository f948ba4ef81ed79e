// What calls are answered.
ghost use Rattle.std.specs.Prelude.{◌≡◌, IfOk};
ghost use Rattle.vm_config.specs.Views.{told_in};
ghost use Rattle.api_rules.specs.Answers.{accepted, no_content, refused};

use api_calls::ApiCall;
use refusals::{Refusal, fault_text};
use std::alloc::{AllocError, Global};
use vm_config::MachineView;
use vm_types::ByteList;

const OK: u16 = 200;

const NO_CONTENT: u16 = 204;

/// An HTTP status, and the body where there is one.
#[derive(Drop)]
pub struct Answer {
    pub status: u16,
    pub body: Option<ByteList>,
}

/// What a call is answered that is done and tells nothing.
pub fn done_answer() -> Answer
    ensures { result ≡ no_content }
{
    Answer {
        status: NO_CONTENT,
        body: None,
    }
}

/// What a refused call is answered.
pub fn fault_answer(alloc: Global, refusal: Refusal) -> Result<Answer, AllocError>
    ensures { IfOk result (λ answer. answer ≡ refused refusal) }
{
    Ok(Answer {
        status: refusal.status(),
        body: Some(fault_text(alloc, refusal)?),
    })
}

/// What an accepted call is answered by the machine that is seen so.
pub fn accepted_answer(
    alloc: Global,
    call: &ApiCall,
    machine: &MachineView<'_>,
) -> Result<Answer, AllocError>
    ensures { IfOk result (λ answer. answer ≡ accepted call.now (told_in machine.now)) }
{
    match call {
        ApiCall::Get(part) => Ok(Answer {
            status: OK,
            body: Some(machine.json(alloc, *part)?),
        }),
        _ => Ok(done_answer()),
    }
}
