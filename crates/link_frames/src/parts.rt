// What the next bytes of a stream come to, by what of a frame has come before.
ghost use Rattle.std.specs.Prelude.{◌≡◌, ◌≢◌, ◌≤◌, ◌<◌, ◌+◌, ◌++◌, [], List, ℕ, length, IfOk, MatchOption};
ghost use Rattle.std.specs.Int.{w32, to_be_bytes};
ghost use Rattle.link_frames.specs.Stream.{Feeds, IsBegun, IsGiven, Stands, wanted_of};
ghost use Rattle.link_frames.specs.declared.coming.Coming.TheVariants as coming;
ghost use Rattle.vm_host.specs.Framing.{IsFrameLength};

use crate::coming::{Coming, Fed};
use crate::writing::is_frame_length;
use std::alloc::{AllocError, Global};

/// Nothing has come of the next frame.
pub(crate) fn nothing(alloc: Global) -> Coming
    ensures begun { IsBegun result }
    ensures stands { Stands result [] }
{
    Coming::Length {
        bytes: Vec::new(alloc),
    }
}

/// The next bytes of a stream, behind what has come of a frame.
pub(crate) fn with_bytes(
    alloc: Global,
    before: Coming,
    bytes: &[u8],
) -> Result<(Fed, Coming), AllocError>
    requires begun { IsBegun before }
    requires fits { length bytes.now ≤ wanted_of before }
    ensures begun { IfOk result (λ r. IsBegun r.1) }
    ensures given { IfOk result (λ r. IsGiven r.0) }
    ensures feeds { IfOk result (λ r. (seen : List ℕ) → Stands before seen → Feeds r.0 (seen ++ bytes.now) r.1) }
{
    match before {
        Coming::Length { bytes: front } => with_length(alloc, front, bytes),
        Coming::Frame {
            count,
            bytes: front,
        } => with_frame(alloc, count, front, bytes),
        Coming::Dropped { count, left } => Ok(with_dropped(alloc, count, left, bytes)),
    }
}

// Behind some of the bytes of a frame's length.
fn with_length(alloc: Global, front: Vec<u8>, bytes: &[u8]) -> Result<(Fed, Coming), AllocError>
    requires { length front.items + length bytes.now ≤ 4 }
    ensures begun { IfOk result (λ r. IsBegun r.1) }
    ensures given { IfOk result (λ r. IsGiven r.0) }
    ensures feeds { IfOk result (λ r. Feeds r.0 (front.items ++ bytes.now) r.1) }
{
    let mut front = front;
    front.extend_from_slice(bytes)?;
    match length_of(&front) {
        None => Ok((Fed::More, Coming::Length { bytes: front })),
        Some(count) => Ok(begin(alloc, count)),
    }
}

// The length that four bytes say.
fn length_of(bytes: &[u8]) -> Option<u32>
    ensures { MatchOption result (length bytes.now ≢ 4) (λ count. bytes.now ≡ to_be_bytes w32 count) }
{
    match bytes {
        [a, b, c, d] => Some(u32::from_be_bytes([*a, *b, *c, *d])),
        _ => None,
    }
}

// Behind a frame's length.
fn begin(alloc: Global, count: u32) -> (Fed, Coming)
    ensures begun { IsBegun result.1 }
    ensures given { IsGiven result.0 }
    ensures feeds { Feeds result.0 (to_be_bytes w32 count) result.1 }
{
    if count == 0 {
        (Fed::Dropped, nothing(alloc))
    } else if is_frame_length(count as usize) {
        let bytes = Vec::new(alloc);
        (Fed::More, Coming::Frame { count, bytes })
    } else {
        (Fed::More, Coming::Dropped { count, left: count })
    }
}

// Behind some of the bytes of a frame.
fn with_frame(
    alloc: Global,
    count: u32,
    front: Vec<u8>,
    bytes: &[u8],
) -> Result<(Fed, Coming), AllocError>
    requires frame { IsFrameLength count }
    requires fits { length front.items + length bytes.now ≤ count }
    ensures begun { IfOk result (λ r. IsBegun r.1) }
    ensures given { IfOk result (λ r. IsGiven r.0) }
    ensures feeds { IfOk result (λ r. Feeds r.0 (to_be_bytes w32 count ++ front.items ++ bytes.now) r.1) }
{
    let mut front = front;
    front.extend_from_slice(bytes)?;
    if front.len() < count as usize {
        return Ok((
            Fed::More,
            Coming::Frame {
                count,
                bytes: front,
            },
        ));
    }
    Ok((Fed::Frame(front), nothing(alloc)))
}

// Behind some of the bytes of a frame that is dropped.
fn with_dropped(alloc: Global, count: u32, left: u32, bytes: &[u8]) -> (Fed, Coming)
    requires dropped { IsBegun (coming.Dropped count left) }
    requires fits { length bytes.now ≤ left }
    ensures begun { IsBegun result.1 }
    ensures given { IsGiven result.0 }
    ensures feeds { (skipped : List ℕ) → length skipped + left ≡ count →
        Feeds result.0 (to_be_bytes w32 count ++ skipped ++ bytes.now) result.1 }
{
    let len = bytes.len() as u32;
    if len < left {
        return (
            Fed::More,
            Coming::Dropped {
                count,
                left: left - len,
            },
        );
    }
    (Fed::Dropped, nothing(alloc))
}
