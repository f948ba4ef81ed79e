// The five rules that a stream is judged by.
ghost use Rattle.std.specs.Prelude.{◌≡◌, length};
ghost use Rattle.http_stream.specs.Stream.{has_line, is_early, is_line_byte, window};
ghost use Rattle.http_front.specs.Told.{Holds, Tells};

use crate::found::Finding;
use crate::head::{Search, by_head, find_head};
use httparse::spans::HeaderSpan;
use refusals::Refusal;

const HEAD_LIMIT: usize = 8_192;

/// What a stream gives next, of which that is known: it is judged only where its bytes are enough for an answer.
pub fn look(known: Finding, stream: &[u8], spans: &mut [HeaderSpan]) -> Finding
    requires room { length spans.old ≡ 2731 }
    requires known { Holds stream.now spans.old known }
    ensures { Tells stream.now spans.new result }
{
    match known {
        Finding::TooFew(count) if stream.len() > count => judge(stream, spans),
        _ => known,
    }
}

/// What a stream gives next. The spans are the parser's room, and then say where a request's headers are.
pub fn judge(stream: &[u8], spans: &mut [HeaderSpan]) -> Finding
    requires room { length spans.old ≡ 2731 }
    ensures { Tells stream.now spans.new result }
{
    if is_early(stream) {
        return Finding::TooFew(stream.len());
    }
    let front = window(stream);
    match find_head(front, spans) {
        Search::Found(head) => by_head(stream, front, spans, head),
        Search::Unfinished => {
            if stream.len() <= HEAD_LIMIT {
                Finding::TooFew(stream.len())
            } else {
                Finding::Bad(Refusal::BadHead)
            }
        }
        Search::Hopeless => Finding::Bad(Refusal::BadHead),
    }
}

fn is_early(stream: &[u8]) -> bool
    ensures { result ≡ is_early stream.now }
{
    stream.len() <= HEAD_LIMIT && !has_line(stream)
}

fn has_line(stream: &[u8]) -> bool
    ensures { result ≡ has_line stream.now }
{
    stream
        .iter()
        .skip_while(|b| is_line_byte(**b))
        .any(|b| *b == b'\n')
}

fn is_line_byte(b: u8) -> bool
    ensures { result ≡ is_line_byte b }
{
    b == b'\r' || b == b'\n'
}

/// The bytes in which a head must end.
pub fn window(stream: &[u8]) -> &[u8]
    ensures { result.now ≡ window stream.now }
{
    &stream[..stream.len().min(HEAD_LIMIT)]
}
