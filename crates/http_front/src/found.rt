// What is found at the front of a stream, and the request that lies there.
ghost use Rattle.std.specs.Prelude.{◌≡◌, length, map, All, IfOk, IsUtf8};
ghost use Rattle.httparse.specs.Spans.{IsHeaderWithin, header_bytes};
ghost use Rattle.http_stream.specs.Asked.{next_in, request_in};
ghost use Rattle.http_stream.specs.Conversation.{IsDue, IsQuiet, Takes};
ghost use Rattle.http_stream.specs.Stream.{Connection, window};
ghost use Rattle.http_front.specs.Told.{LiesAt, Tells, live, request_at};

use crate::rules::window;
use http_stream::{Asked, Given, HeaderList, Next, Request};
use httparse::spans::{HeaderSpan, RequestSpans};
use refusals::Refusal;
use std::alloc::{AllocError, Global};
use vm_types::{ByteList, TextList};

/// Where a request lies at the front of a stream: the spans of its head, and then its body.
#[derive(Clone, Copy, Drop)]
pub struct Place {
    pub head: RequestSpans,
    /// The length of the body in bytes.
    pub body: usize,
}

/// What is found at the front of a stream.
#[derive(Clone, Copy, Drop)]
pub enum Finding {
    /// With so many bytes, or fewer, there is no request yet.
    TooFew(usize),
    Whole(Place),
    /// The connection fails.
    Bad(Refusal),
}

/// What the stream gives, of which that was found, where it lies.
pub fn view_next<'b>(stream: &'b [u8], spans: &'b [HeaderSpan], found: Finding) -> Given<'b>
    requires { Tells stream.now spans.now found }
    ensures quiet { result ≡ Given.None → IsQuiet (live stream.now) }
    ensures due { IsDue (next_in result) → (d : Connection) × Takes (live stream.now) (next_in result) d }
{
    match found {
        Finding::TooFew(_) => Given::None,
        Finding::Bad(why) => Given::Bad(why),
        Finding::Whole(place) => Given::Request(view_request(stream, spans, place)),
    }
}

// The request at that place.
fn view_request<'b>(stream: &'b [u8], spans: &'b [HeaderSpan], place: Place) -> Asked<'b>
    requires { LiesAt stream.now spans.now place }
    ensures { request_in result ≡ request_at stream.now spans.now place }
{
    let front = window(stream);
    let head = place.head;
    let rest = &stream[head.len..];
    Asked {
        method: text_in(head.method.of(front)),
        path: text_in(head.path.of(front)),
        front,
        headers: &spans[..head.headers],
        body: &rest[..place.body],
    }
}

fn text_in(bytes: &[u8]) -> &str
    requires { IsUtf8 bytes.now }
    ensures { result.now ≡ bytes.now }
{
    str::from_utf8(bytes).unwrap()
}

/// A copy of what the stream gives, of which that was found. Only the copy of a request takes memory.
pub fn copy_next(
    alloc: Global,
    stream: &[u8],
    spans: &[HeaderSpan],
    found: Finding,
) -> Result<Next, AllocError>
    requires { Tells stream.now spans.now found }
    ensures quiet { IfOk result (λ next. next ≡ Next.None → IsQuiet (live stream.now)) }
    ensures due { IfOk result (λ next. IsDue next → (d : Connection) × Takes (live stream.now) next d) }
{
    match found {
        Finding::TooFew(_) => Ok(Next::None),
        Finding::Bad(why) => Ok(Next::Bad(why)),
        Finding::Whole(place) => {
            let request = copy_request(alloc, stream, window(stream), spans, place)?;
            Ok(Next::Request(request))
        }
    }
}

// The request that lies at that place.
fn copy_request(
    alloc: Global,
    stream: &[u8],
    front: &[u8],
    spans: &[HeaderSpan],
    place: Place,
) -> Result<Request, AllocError>
    requires front { front.now ≡ window stream.now }
    requires lies { LiesAt stream.now spans.now place }
    ensures { IfOk result (λ request. request ≡ request_at stream.now spans.now place) }
{
    let head = place.head;
    let method = text_of(alloc, head.method.of(front))?;
    let path = text_of(alloc, head.path.of(front))?;
    let headers = copy_headers(alloc, front, &spans[..head.headers])?;
    let rest = &stream[head.len..];
    let body = ByteList::copy_of(alloc, &rest[..place.body])?;
    Ok(Request {
        method,
        path,
        headers,
        body,
    })
}

fn copy_headers(alloc: Global, front: &[u8], spans: &[HeaderSpan]) -> Result<HeaderList, AllocError>
    requires { All (IsHeaderWithin (length front.now)) spans.now }
    ensures { IfOk result (λ headers. headers ≡ map (header_bytes front.now) spans.now) }
{
    let mut headers = HeaderList::new(alloc);
    for span in spans {
        let name = ByteList::copy_of(alloc, span.name.of(front))?;
        let value = ByteList::copy_of(alloc, span.value.of(front))?;
        headers.push(name, value)?;
    }
    Ok(headers)
}

fn text_of(alloc: Global, bytes: &[u8]) -> Result<TextList, AllocError>
    requires { IsUtf8 bytes.now }
    ensures { IfOk result (λ text. text ≡ bytes.now) }
{
    TextList::copy_of(alloc, text_in(bytes))
}
