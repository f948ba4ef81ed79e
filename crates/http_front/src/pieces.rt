// All requests of a stream that comes in pieces.
ghost use Rattle.std.specs.Prelude.{◌≡◌, ◌++◌, List, ℕ, false, IfOk, OnOk};
ghost use Rattle.std.specs.List.{flat_map};
ghost use Rattle.http_front.specs.Loops.{Drains};
ghost use Rattle.http_stream.specs.Cuts.{Reads};

use crate::front::Front;
use http_stream::{Next, Request};
use std::alloc::{AllocError, Global};
use vm_types::ByteList;

/// Takes the requests that are whole now, and puts them at the end.
pub fn drain_all(front: &mut Front, out: &mut Vec<Request>) -> Result<(), AllocError>
    requires { front.old.failed ≡ false }
    ensures { OnOk result (Drains front.old.pending out.old.items out.new.items front.new) }
{
    'requests: loop {
        match front.next()? {
            Next::Request(request) => out.push(request)?,
            Next::None => return Ok(()),
            Next::Bad(_) => return Ok(()),
        }
    }
}

/// Takes the next piece of a stream, and puts the requests that are whole then at the end.
pub fn take_piece(front: &mut Front, out: &mut Vec<Request>, piece: &[u8]) -> Result<(), AllocError>
    ensures { OnOk result ((stream : List ℕ) → Reads stream out.old.items front.old
        → Reads (stream ++ piece.now) out.new.items front.new) }
{
    if front.is_failed() {
        return Ok(());
    }
    front.feed(piece)?;
    drain_all(front, out)
}

/// The requests of a stream that comes in these pieces, and the connection after it.
pub fn requests(alloc: Global, pieces: &[ByteList]) -> Result<(Vec<Request>, Front), AllocError>
    ensures { IfOk result (λ r. Reads (flat_map (λ piece. piece) pieces.now) r.0.items r.1) }
{
    let mut front = Front::new(alloc)?;
    let mut out = Vec::new(alloc);
    for piece in pieces {
        take_piece(&mut front, &mut out, piece.as_slice())?;
    }
    Ok((out, front))
}
