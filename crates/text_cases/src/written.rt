// What is only written: lines that are shown, replies and requests; and all requests of a stream.
use crate::escapes::text_of;
use crate::streams::add_request;
use http_front::{requests, write_reply, write_request};
use http_stream::HeaderList;
use script_text::{Misfit, memory_line, misfit_line, register_line, waits_line};
use std::alloc::{AllocError, Global};
use vm_types::ByteList;

/// The lines, replies and requests that are written.
pub fn add(alloc: Global, text: &mut String) -> Result<(), AllocError> {
    add_lines(alloc, text)?;
    add_replies(alloc, text)?;
    add_requests(alloc, text)
}

fn add_lines(alloc: Global, text: &mut String) -> Result<(), AllocError> {
    for why in [
        Misfit::NotRunning,
        Misfit::NoMachine,
        Misfit::NoActor,
        Misfit::OutsideMemory,
        Misfit::NotWaiting,
        Misfit::Unfit,
    ] {
        push(&misfit_line(alloc, why)?, text)?;
    }
    push(&waits_line(alloc, 90)?, text)?;
    push(&register_line(alloc, 0x8020_0000)?, text)?;
    push(&memory_line(alloc, b"\x6f\x00\xab")?, text)
}

fn add_replies(alloc: Global, text: &mut String) -> Result<(), AllocError> {
    for (status, body, close) in [
        (204, "", false),
        (204, "ignored", true),
        (200, "{}", false),
        (
            400,
            "{\"fault_message\":\"14: no boot source was given\"}",
            false,
        ),
        (400, "", true),
        (500, "x", false),
        (503, "x", false),
        (599, "x", false),
    ] {
        push(&write_reply(alloc, status, body.as_bytes(), close)?, text)?;
        text.push('\n')?;
    }
    Ok(())
}

fn add_requests(alloc: Global, text: &mut String) -> Result<(), AllocError> {
    let body = b"{\"action_type\":\"InstanceStart\"}";
    push(&write_request(alloc, b"PUT", b"/actions", body)?, text)?;
    text.push('\n')?;
    push(&write_request(alloc, b"GET", b"/", b"")?, text)?;
    text.push('\n')
}

fn push(bytes: &ByteList, text: &mut String) -> Result<(), AllocError> {
    text.push_str(text_of(bytes.as_slice()))
}

/// Puts all requests of a stream in four pieces at the end, of which the third ends it, with the headers of the first.
pub fn add_stream(alloc: Global, text: &mut String) -> Result<(), AllocError> {
    let pieces = pieces(alloc)?;
    let (found, front) = requests(alloc, &pieces)?;
    for request in &found {
        add_headers(&request.headers, text)?;
        add_request(request, text)?;
    }
    text.push_str(if front.is_failed() {
        "failed\n"
    } else {
        "open\n"
    })
}

fn pieces(alloc: Global) -> Result<Vec<ByteList>, AllocError> {
    let mut pieces = Vec::new(alloc);
    for piece in [
        "GET /a HTTP/1.1\r\nHost: 127.0.0.1:40891\r\nAccept: */*\r\n\r\nGET",
        " /b HTTP/1.1\r\n\r\n",
        "GET /c HTTP/1.2\r\n\r\n",
        "GET / HTTP/1.1\r\n\r\n",
    ] {
        pieces.push(ByteList::copy_of(alloc, piece.as_bytes())?)?;
    }
    Ok(pieces)
}

fn add_headers(headers: &HeaderList, text: &mut String) -> Result<(), AllocError> {
    for (name, value) in headers.as_slice() {
        push(name, text)?;
        text.push('=')?;
        push(value, text)?;
        text.push(';')?;
    }
    Ok(())
}
