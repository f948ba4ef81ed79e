// The head at the front of a stream, and the request that it begins.
ghost use Rattle.std.specs.Prelude.{◌≡◌, ◌≤◌, false, length, IfOk};
ghost use Rattle.httparse.specs.Spans.{IsRequestOf, IsRequestWithin};
ghost use Rattle.http_stream.specs.Stream.{head_limit, is_early, window};
ghost use Rattle.http_front.specs.Told.{Finds, Tells};

use crate::body::body_length;
use crate::found::{Finding, Place};
use httparse::Status;
use httparse::spans::{EMPTY_HEADER_SPAN, HeaderSpan, RequestSpans, parse_request};
use std::alloc::{AllocError, Global};

/// More header lines than 8,192 bytes have room for.
const MOST_LINES: usize = 2731;

/// What a search for a head finds.
#[derive(Drop)]
pub enum Search {
    Found(RequestSpans),
    Unfinished,
    Hopeless,
}

/// Room for all header lines of a head.
pub fn make_room(alloc: Global) -> Result<Vec<HeaderSpan>, AllocError>
    ensures { IfOk result (λ spans. length spans.items ≡ 2731) }
{
    vec![in alloc; EMPTY_HEADER_SPAN; MOST_LINES]
}

/// Searches for a head at the front.
pub fn find_head(front: &[u8], spans: &mut [HeaderSpan]) -> Search
    requires short { length front.now ≤ head_limit }
    requires room { length spans.old ≡ 2731 }
    ensures { Finds front.now spans.new result }
{
    match parse_request(front, spans) {
        Ok(Status::Complete(head)) => Search::Found(head),
        Ok(Status::Partial) => Search::Unfinished,
        Err(_) => Search::Hopeless,
    }
}

/// What a stream gives whose head was found; where the body isn't there yet, how many bytes are too few.
pub fn by_head(stream: &[u8], front: &[u8], spans: &[HeaderSpan], head: RequestSpans) -> Finding
    requires late { is_early stream.now ≡ false }
    requires front { front.now ≡ window stream.now }
    requires fits { head.len ≤ length stream.now }
    requires within { IsRequestWithin front.now spans.now head }
    requires found { IsRequestOf front.now spans.now head }
    ensures { Tells stream.now spans.now result }
{
    let body = match body_length(front, &spans[..head.headers]) {
        Ok(body) => body,
        Err(why) => return Finding::Bad(why),
    };
    if body > stream.len() - head.len {
        return Finding::TooFew(head.len + body - 1);
    }
    Finding::Whole(Place { head, body })
}
