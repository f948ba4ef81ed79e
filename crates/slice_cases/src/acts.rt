// A place that counts, and acts of two harts on such places.
use pause_gate::Gate;
use place_locks::Locked;
use std::alloc::{AllocError, Global};
use std::marker::Brand;
use std::sync::Wait;
use std::thread::{Threads, join};
use vm_types::{ActorId, Entry, Op, Openings, Place, PlaceId, Reply};

/// Each act adds one, and replies how many there were.
#[derive(Drop)]
pub struct Counter {
    pub count: u64,
}

impl Place for Counter {
    ghost use Rattle.std.specs.Prelude.{ℕ, ◌+◌, ◌%◌, ◌^◌, false};
    ghost use Rattle.vm_types.specs.declared.reply.Reply.TheVariants.{Word};

    ghost Value = { ℕ };

    ghost value = { λ counter. counter.count };

    ghost touch = { λ count _ _. (Word count, (count + 1) % 2 ^ 64) };

    ghost serves = { λ _. false };

    fn act(&mut self, _actor: ActorId, _op: &Op) -> Reply {
        let before = self.count;
        self.count = before.wrapping_add(1);
        Reply::Word(before)
    }

    ghost replies_fit = { λ v actor op never. absurd (Prim.cc never) };
}

// Every counter is 0 at first.
impl Openings<Counter> for Brand {
    ghost opening = { λ _. record { count = 0 } };
}

pub type Lock = Locked<Counter, Brand>;

pub fn lock_of(alloc: Global, page: u32) -> Lock {
    Locked::new(alloc, PlaceId::Page(page), Counter { count: 0 })
}

/// The journals of two harts, each with a lock of its own or both with one, which make so many acts.
pub fn act_in_two<R: Threads + Wait + AllocGlobal + Sync, G: Gate + Sync>(
    rt: &R,
    gate: &G,
    locks: (&Lock, &Lock),
    acts: usize,
) -> Result<(Vec<Entry>, Vec<Entry>), AllocError> {
    let (one, other) = join(
        rt,
        || act(rt, gate, locks.0, 0, acts),
        || act(rt, gate, locks.1, 1, acts),
    );
    Ok((one?, other?))
}

// So many acts of this hart, and its journal of them.
fn act<R: Wait + AllocGlobal, G: Gate>(
    rt: &R,
    gate: &G,
    lock: &Lock,
    hart: u8,
    acts: usize,
) -> Result<Vec<Entry>, AllocError> {
    let mut journal = Vec::new(rt.alloc());
    let mut clock = 0;
    for _ in 0..acts {
        if clock >= 1 << 63 {
            break;
        }
        let entry = lock.act_as(rt, gate, ActorId::Hart(hart), &mut clock, &Op::Idle)?;
        journal.push(entry)?;
    }
    Ok(journal)
}
