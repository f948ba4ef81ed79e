// The page where an access acts.
ghost use Rattle.std.specs.Prelude.{◌≡◌, ◌≤◌, ◌^◌};
ghost use Rattle.guest_memory.specs.Route as route;

use crate::ram::{PAGE_SIZE, RAM_START, is_ram};
use crate::words::width_of;
use vm_types::{GuestAddr, Op, PlaceId};

// The page that has all of these bytes, in a memory of this size.
fn page_of(size: usize, at: GuestAddr, len: usize) -> PlaceId
    requires { size ≤ 2 ^ 40 }
    ensures { result ≡ route.page_of size at len }
{
    if len < 1 || !is_ram(size, at, len) {
        return PlaceId::Out;
    }
    let offset = (at - RAM_START) as usize;
    if offset % PAGE_SIZE + len <= PAGE_SIZE {
        PlaceId::Page((offset / PAGE_SIZE) as u32)
    } else {
        PlaceId::Out
    }
}

/// The place of an access, in a memory of this size, at most 2^40 bytes: the page that has all of its bytes, or `Out`
/// where none has. What is no access is at `Out` too.
pub fn access_place(size: usize, op: &Op) -> PlaceId
    requires { size ≤ 2 ^ 40 }
    ensures { result ≡ route.access_place size op.now }
{
    match op {
        Op::Read { at, len } => page_of(size, *at, *len),
        Op::Write { at, piece } => page_of(size, *at, piece.len()),
        Op::Amo { at, wide, .. } | Op::Lr { at, wide } | Op::Sc { at, wide, .. } => {
            page_of(size, *at, width_of(*wide))
        }
        _ => PlaceId::Out,
    }
}
