// The bytes that come on a connection, in pieces.
use crate::escapes::{bytes_of, text_of};
use http_front::Front;
use http_stream::{Asked, Given, Next, Request};
use std::alloc::{AllocError, Global};

/// Puts at the end what each piece gives: requests, and then `-` for none yet, or the number of the refusal.
pub fn add(alloc: Global, case: &str, text: &mut String) -> Result<(), AllocError> {
    let mut front = Front::new(alloc)?;
    for piece in case.split('|') {
        front.feed(&bytes_of(alloc, piece)?)?;
        take(&mut front, text)?;
    }
    Ok(())
}

/// The same where what is next is looked at twice after each piece, and then passed over.
pub fn add_peeked(alloc: Global, case: &str, text: &mut String) -> Result<(), AllocError> {
    let mut front = Front::new(alloc)?;
    for piece in case.split('|') {
        front.feed(&bytes_of(alloc, piece)?)?;
        peek_twice(&mut front, text)?;
    }
    Ok(())
}

fn peek_twice(front: &mut Front, text: &mut String) -> Result<(), AllocError> {
    peek(front, text)?;
    peek(front, text)?;
    front.skip();
    Ok(())
}

fn peek(front: &Front, text: &mut String) -> Result<(), AllocError> {
    match front.peek() {
        Given::Request(request) => add_asked(&request, text),
        Given::None => text.push('-'),
        Given::Bad(_) => text.push('!'),
    }
}

fn add_asked(request: &Asked<'_>, text: &mut String) -> Result<(), AllocError> {
    write!(
        text,
        "{} {} {} {}|",
        request.method,
        request.path,
        request.headers.len(),
        text_of(request.body)
    )
}

// Puts what up to four calls give at the end, up to the first that gives no request yet.
fn take(front: &mut Front, text: &mut String) -> Result<(), AllocError> {
    for _ in 0..4 {
        let next = front.next()?;
        add_next(&next, text)?;
        if let Next::None = next {
            return Ok(());
        }
    }
    Ok(())
}

fn add_next(next: &Next, text: &mut String) -> Result<(), AllocError> {
    match next {
        Next::Request(request) => add_request(request, text),
        Next::None => text.push('-'),
        Next::Bad(why) => write!(text, "{}", why.number()),
    }
}

/// Puts the method, the path, how many headers there are, and the body at the end.
pub fn add_request(request: &Request, text: &mut String) -> Result<(), AllocError> {
    write!(
        text,
        "{} {} {} {}|",
        request.method.as_str(),
        request.path.as_str(),
        request.headers.len(),
        text_of(request.body.as_slice())
    )
}
