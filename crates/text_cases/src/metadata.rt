// Requests to a metadata service, one after another.
use crate::escapes::{counted, text_of};
use http_stream::{HeaderList, Request};
use metadata_service::{Reply, Service};
use metadata_store::{Store, Tree};
use serde_json::Value;
use std::alloc::{AllocError, Global};
use vm_types::{ByteList, TextList};

const STORED: &str = r#"{"":{"":"nameless"},"a":{"c":"y","d":{},"e":[1]},"n":5}"#;

/// The moment, the word of a token where one is given, and the request.
#[derive(Drop)]
struct Turn {
    now: u64,
    word: u64,
    request: Request,
}

/// What is shown, or nothing where it can't be stored.
pub fn stored(alloc: Global) -> Store {
    match Value::from_str(alloc, STORED) {
        Ok(value) => Store::of_put(alloc, Tree::of_value(value)).unwrap_or(Store::new(alloc)),
        Err(_) => Store::new(alloc),
    }
}

/// Puts each case at the end with the reply of a service that is asked them one after another.
pub fn add_turns(
    alloc: Global,
    service: &mut Service,
    store: &Store,
    cases: &str,
    text: &mut String,
) -> Result<(), AllocError> {
    for case in cases.lines() {
        text.push_str(case)?;
        text.push_str(" => ")?;
        add(alloc, service, store, case, text)?;
        text.push('\n')?;
    }
    Ok(())
}

// The status and the body of the reply, of `COUNT*` such requests with rising words that of the last.
fn add(
    alloc: Global,
    service: &mut Service,
    store: &Store,
    case: &str,
    text: &mut String,
) -> Result<(), AllocError> {
    let (count, case) = counted(case).unwrap_or((1, case));
    let turn = turn_of(alloc, case)?;
    for k in 1..count {
        answered(service, store, &turn, k)?;
    }
    add_reply(&answered(service, store, &turn, count)?, text)
}

fn turn_of(alloc: Global, case: &str) -> Result<Turn, AllocError> {
    let mut words = case.split(' ');
    let now = number(words.next());
    let word = number(words.next());
    let method = words.next().unwrap_or("");
    let path = words.next().unwrap_or("");
    let mut request = Request {
        method: TextList::copy_of(alloc, method)?,
        path: TextList::copy_of(alloc, path)?,
        headers: HeaderList::new(alloc),
        body: ByteList::new(alloc),
    };
    add_header(alloc, &mut request, words.next(), words.next())?;
    Ok(Turn { now, word, request })
}

fn number(digits: Option<&str>) -> u64 {
    digits.unwrap_or("").parse::<u64>().unwrap_or(0)
}

fn add_header(
    alloc: Global,
    request: &mut Request,
    name: Option<&str>,
    value: Option<&str>,
) -> Result<(), AllocError> {
    let name = ByteList::copy_of(alloc, name.unwrap_or("").as_bytes())?;
    let value = ByteList::copy_of(alloc, value.unwrap_or("").as_bytes())?;
    request.headers.push(name, value)
}

// The reply to the request the time of this number.
fn answered(
    service: &mut Service,
    store: &Store,
    turn: &Turn,
    time: u32,
) -> Result<Reply, AllocError> {
    let word = turn.word.wrapping_add(time as u64).wrapping_sub(1);
    service.answer(store, &turn.request, turn.now, word)
}

fn add_reply(reply: &Reply, text: &mut String) -> Result<(), AllocError> {
    write!(
        text,
        "{} {:?}",
        reply.status,
        text_of(reply.body.as_slice())
    )
}
