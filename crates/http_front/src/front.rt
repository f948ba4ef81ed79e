// The bytes of a connection, and the requests in them.
ghost use Rattle.std.specs.Prelude.{◌≡◌, ◌≤◌, ◌++◌, List, ℕ, true, false, drop, length, IfOk, OnOk, OnErr};
ghost use Rattle.http_front.specs.Told.{Holds};
ghost use Rattle.http_stream.specs.Asked.{next_in};
ghost use Rattle.http_stream.specs.Conversation.{IsDue, IsQuiet, Takes, arrived, new_connection};
ghost use Rattle.http_stream.specs.Stream.{Connection, Judged};

use crate::found::{Finding, copy_next, view_next};
use crate::head::make_room;
use crate::rules::look;
use http_stream::{Given, Next};
use httparse::spans::HeaderSpan;
use std::alloc::{AllocError, Global};
use std::marker::Model;

/// One side of a connection: its bytes not yet answered, and whether it has failed.
#[derive(Drop)]
pub struct Front {
    alloc: Global,
    bytes: Vec<u8>,
    // How many of the bytes are answered.
    taken: usize,
    // What those not yet answered give.
    known: Finding,
    failed: bool,
    // The parser's room, and where the headers of a request that was found are.
    spans: Vec<HeaderSpan>,
}

impl Model for Front {
    ghost use Rattle.std.specs.Prelude.{◌≡◌, ◌≤◌, drop, length};
    ghost use Rattle.http_stream.specs.Stream.{Connection};
    ghost use Rattle.http_front.specs.Told.{Tells};

    ghost Value = { Connection };

    ghost view = { λ f. record { pending = drop f.taken f.bytes.items; failed = f.failed } };

    ghost invariant = { λ f. (f.taken ≤ length f.bytes.items) × (length f.spans.items ≡ 2731)
        × Tells (drop f.taken f.bytes.items) f.spans.items f.known };
}

impl Front {
    /// A connection of which no byte has come, with all the memory that reading heads takes.
    pub fn new(alloc: Global) -> Result<Front, AllocError>
        ensures { IfOk result (λ front. front ≡ new_connection) }
    {
        let spans = make_room(alloc)?;
        Ok(Front {
            alloc,
            bytes: Vec::new(alloc),
            taken: 0,
            known: Finding::TooFew(0),
            failed: false,
            spans,
        })
    }

    /// Another connection begins: no byte of it has come.
    pub fn restart(&mut self)
        ensures { self.new ≡ new_connection }
    {
        self.bytes.clear();
        self.taken = 0;
        self.known = Finding::TooFew(0);
        self.failed = false;
    }

    /// Whether the connection has failed.
    pub fn is_failed(&self) -> bool
        ensures { result ≡ self.now.failed }
    {
        self.failed
    }

    /// Takes the next bytes of the stream. A connection that has failed takes none. An `Err` changes nothing.
    pub fn feed(&mut self, bytes: &[u8]) -> Result<(), AllocError>
        ensures ok { OnOk result (self.new ≡ arrived self.old bytes.now) }
        ensures err { OnErr result (self.new ≡ self.old) }
    {
        if self.failed {
            return Ok(());
        }
        put_behind(self.alloc, &mut self.bytes, self.taken, bytes)?;
        self.taken = 0;
        self.known = look(still(self.known), &self.bytes, &mut self.spans);
        Ok(())
    }

    /// What the connection gives next, which stays on it; `None` where it gives nothing before more bytes come, or has
    /// failed. It lies in the connection's bytes, and nothing is copied.
    pub fn peek(&self) -> Given<'_>
        ensures quiet { result ≡ Given.None → IsQuiet self.now }
        ensures due { IsDue (next_in result) → (d : Connection) × Takes self.now (next_in result) d }
    {
        if self.failed {
            return Given::None;
        }
        view_next(&self.bytes[self.taken..], &self.spans, self.known)
    }

    /// Takes from the connection what it gives next, without a copy. After `Bad` it has failed.
    #[tactic(auto, using(crate::proofs::TooFew::too_few_none))]
    pub fn skip(&mut self)
        ensures taken { (given : Next) (d : Connection) → Takes self.old given d → self.new ≡ d }
        ensures quiet { IsQuiet self.old → self.new ≡ self.old }
    {
        if self.failed {
            return;
        }
        match self.known {
            Finding::TooFew(_) => {}
            Finding::Whole(place) => {
                self.taken += place.head.len + place.body;
                let rest = &self.bytes[self.taken..];
                self.known = look(Finding::TooFew(0), rest, &mut self.spans);
            }
            Finding::Bad(_) => {
                self.bytes.clear();
                self.taken = 0;
                self.known = Finding::TooFew(0);
                self.failed = true;
            }
        }
    }

    // A copy of what the connection gives next.
    fn copied(&self) -> Result<Next, AllocError>
        ensures quiet { IfOk result (λ next. next ≡ Next.None → IsQuiet self.now) }
        ensures due { IfOk result (λ next. IsDue next → (d : Connection) × Takes self.now next d) }
    {
        if self.failed {
            return Ok(Next::None);
        }
        let stream = &self.bytes[self.taken..];
        copy_next(self.alloc, stream, &self.spans, self.known)
    }

    /// The next request of the stream, as a copy. After `Bad` the connection has failed, and answers `None` from then on.
    /// An `Err` changes nothing.
    pub fn next(&mut self) -> Result<Next, AllocError>
        ensures failed { self.old.failed ≡ true
            → IfOk result (λ next. (next ≡ Next.None) × (self.new ≡ self.old)) }
        ensures judged { self.old.failed ≡ false
            → IfOk result (λ next. Judged self.old.pending record { next = next; after = self.new }) }
        ensures err { OnErr result (self.new ≡ self.old) }
    {
        let next = self.copied()?;
        self.skip();
        Ok(next)
    }
}

// What stays known once more bytes have come.
fn still(known: Finding) -> Finding
    ensures { (stream more : List ℕ) (spans : List HeaderSpan)
        → Holds stream spans known → Holds (stream ++ more) spans result }
{
    match known {
        Finding::TooFew(count) => Finding::TooFew(count),
        _ => Finding::TooFew(0),
    }
}

// Puts bytes behind those that aren't answered, and lets the others go.
fn put_behind(
    alloc: Global,
    held: &mut Vec<u8>,
    taken: usize,
    bytes: &[u8],
) -> Result<(), AllocError>
    requires { taken ≤ length held.old.items }
    ensures ok { OnOk result (held.new.items ≡ drop taken held.old.items ++ bytes.now) }
    ensures err { OnErr result (held.new.items ≡ held.old.items) }
{
    if taken == 0 {
        return held.extend_from_slice(bytes);
    }
    let mut joined = Vec::from_slice(alloc, &held[taken..])?;
    joined.extend_from_slice(bytes)?;
    *held = joined;
    Ok(())
}
