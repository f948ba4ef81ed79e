// How long a request's body is, by its headers.
ghost use Rattle.std.specs.Prelude.{◌≡◌, ◌≤◌, length, map, codes, All, IfOk};
ghost use Rattle.std.specs.List.{filter, list_any};
ghost use Rattle.httparse.specs.Spans.{IsHeaderWithin, header_bytes};
ghost use Rattle.http_stream.specs.Body.{body_length, length_of, length_value};
ghost use Rattle.http_front.specs.Told.{is_named_at, value_at};

use httparse::spans::HeaderSpan;
use refusals::Refusal;

const MOST_HEADERS: usize = 32;

const LONGEST_BODY: usize = 65_536;

/// The length of the body in bytes, or the refusal: `BadHead` for too many headers, any Transfer-Encoding, a second
/// Content-Length or one that is no decimal number, and `TooLarge` for too large a body.
pub fn body_length(front: &[u8], spans: &[HeaderSpan]) -> Result<usize, Refusal>
    requires { All (IsHeaderWithin (length front.now)) spans.now }
    ensures value { result ≡ body_length (map (header_bytes front.now) spans.now) }
    ensures bound { IfOk result (λ n. n ≤ 65536) }
{
    if spans.len() > MOST_HEADERS || has_encoding(front, spans) {
        return Err(Refusal::BadHead);
    }
    content_length(front, spans)
}

fn has_encoding(front: &[u8], spans: &[HeaderSpan]) -> bool
    requires { All (IsHeaderWithin (length front.now)) spans.now }
    ensures { result ≡ list_any (is_named_at (codes "transfer-encoding") front.now) spans.now }
{
    for span in spans {
        if is_named(front, span, b"transfer-encoding") {
            return true;
        }
    }
    false
}

fn content_length(front: &[u8], spans: &[HeaderSpan]) -> Result<usize, Refusal>
    requires { All (IsHeaderWithin (length front.now)) spans.now }
    ensures value { result ≡ length_of (map (value_at front.now) (filter (is_named_at (codes "content-length") front.now) spans.now)) }
    ensures bound { IfOk result (λ n. n ≤ 65536) }
{
    let mut found = None;
    for span in spans {
        if is_named(front, span, b"content-length") {
            if found.is_some() {
                return Err(Refusal::BadHead);
            }
            found = Some(span.value.of(front));
        }
    }
    match found {
        None => Ok(0),
        Some(value) => length_value(value),
    }
}

fn is_named(front: &[u8], span: &HeaderSpan, name: &[u8]) -> bool
    requires { IsHeaderWithin (length front.now) span.now }
    ensures { result ≡ is_named_at name.now front.now span.now }
{
    span.name.of(front).eq_ignore_ascii_case(name)
}

// A number of any length: past the limit its value isn't kept.
fn length_value(text: &[u8]) -> Result<usize, Refusal>
    ensures value { result ≡ length_value text.now }
    ensures bound { IfOk result (λ n. n ≤ 65536) }
{
    if text.is_empty() {
        return Err(Refusal::BadHead);
    }
    let mut value = 0;
    for b in text {
        if !b.is_ascii_digit() {
            return Err(Refusal::BadHead);
        }
        value = (value * 10 + (*b - b'0') as usize).min(LONGEST_BODY + 1);
    }
    if value > LONGEST_BODY {
        return Err(Refusal::TooLarge);
    }
    Ok(value)
}
