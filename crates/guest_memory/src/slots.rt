// What harts have reserved, in slots: 32 for each page, the offset there of a granule in each, or none.
ghost use Rattle.std.specs.Prelude.{◌≡◌, ◌+◌, ◌≤◌, ◌<◌, ◌^◌, length};
ghost use Rattle.guest_memory.specs.Reserved as reserved;

use crate::ram::{PAGE_SIZE, RAM_START};
use vm_types::{ActorId, GuestAddr, is_same_actor};

/// How many harts a machine has at most, and how many slots a page.
pub const HART_LIMIT: usize = 32;

/// The granule that an address is in, by its offset in the page.
pub fn granule_of(at: GuestAddr) -> u16
    requires { RAM_START ≤ at }
    ensures { result ≡ reserved.granule_of at }
{
    ((at - RAM_START) as usize % PAGE_SIZE / 8 * 8) as u16
}

/// What an actor has reserved in the page with this first slot.
pub fn held_by(slots: &[Option<u16>], first: usize, actor: ActorId) -> Option<u16>
    requires { first + 32 ≤ length slots.now }
    ensures { result ≡ reserved.held_by slots.now first actor }
{
    match actor {
        ActorId::Hart(hart) => {
            let hart = hart as usize;
            if hart < HART_LIMIT {
                slots[first + hart]
            } else {
                None
            }
        }
        _ => None,
    }
}

/// This is what an actor has reserved in the page with this first slot; one that is no hart reserves nothing.
pub fn hold(slots: &mut [Option<u16>], first: usize, actor: ActorId, held: Option<u16>)
    requires { first + 32 ≤ length slots.old }
    ensures { slots.new ≡ reserved.holding slots.old first actor held }
{
    if let ActorId::Hart(hart) = actor {
        let hart = hart as usize;
        if hart < HART_LIMIT {
            slots[first + hart] = held;
        }
    }
}

/// Whether what is held is the granule at this offset of its page.
pub fn is_granule(offset: u16, held: Option<u16>) -> bool
    ensures { result ≡ reserved.is_granule offset held }
{
    match held {
        None => false,
        Some(granule) => granule == offset,
    }
}

fn slot_after(
    writer: ActorId,
    at: GuestAddr,
    len: usize,
    slot: usize,
    held: Option<u16>,
) -> Option<u16>
    ensures { result ≡ reserved.slot_after writer at len slot held }
{
    let Some(offset) = held else {
        return None;
    };
    let granule = RAM_START as u128 + 4096 * (slot / HART_LIMIT) as u128 + offset as u128;
    let start = at as u128;
    let is_reached = 1 <= len && start < granule + 8 && granule < start + len as u128;
    let hart = ActorId::Hart((slot % HART_LIMIT) as u8);
    if is_reached && !is_same_actor(hart, writer) {
        None
    } else {
        Some(offset)
    }
}

/// Ends the granules that this actor's write of `len` bytes at `at` reaches, but for its own. The first of the slots
/// has this number.
pub fn end_written(
    slots: &mut [Option<u16>],
    first: usize,
    writer: ActorId,
    at: GuestAddr,
    len: usize,
)
    requires { first + length slots.old < 2 ^ 64 }
    ensures { slots.new ≡ reserved.slots_after writer at len first slots.old }
{
    for i in 0..slots.len() {
        slots[i] = slot_after(writer, at, len, first + i, slots[i]);
    }
}
