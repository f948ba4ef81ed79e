// Responses as bytes.
ghost use Rattle.std.specs.Prelude.{◌≡◌, IfOk};
ghost use Rattle.responses.specs.Responses.{body_of, written_as};

use crate::lines::reply_line;
use api_rules::Answer;
use http_front::write_reply;
use std::alloc::{AllocError, Global};
use vm_types::ByteList;

/// In which form responses are written.
#[derive(Clone, Copy, Drop)]
pub enum ResponseForm {
    /// As a line of a script's output, `< S` or `< S BODY`.
    Line,
    /// As a reply in HTTP/1.1.
    Http,
}

fn body_of(body: &Option<ByteList>) -> &[u8]
    ensures { result.now ≡ body_of body.now }
{
    match body {
        None => &[],
        Some(body) => body.as_slice(),
    }
}

/// The bytes of a response: of this answer, with which the connection ends if `closes` says so.
pub fn write_response(
    alloc: Global,
    form: ResponseForm,
    answer: &Answer,
    closes: bool,
) -> Result<ByteList, AllocError>
    ensures { IfOk result (λ bytes. bytes ≡ written_as form record { answer = answer.now; closes = closes }) }
{
    match form {
        ResponseForm::Line => reply_line(alloc, answer),
        ResponseForm::Http => write_reply(alloc, answer.status, body_of(&answer.body), closes),
    }
}
