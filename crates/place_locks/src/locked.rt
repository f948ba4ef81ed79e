// A place under its lock.
ghost use Rattle.std.specs.Prelude.{◌≡◌, ◌<◌, ◌^◌, IfOk, OnErr};
ghost use Rattle.place_locks.specs.Held.{IsEntryOf, IsHistory};

use crate::kept::Kept;
use pause_gate::Gate;
use std::alloc::{AllocError, Global};
use std::marker::Model;
use std::sync::{Mutex, Wait};
use vm_types::{ActorId, Entry, Op, Openings, Place, PlaceId};

/// A place under its lock. Contracts see the lock's id.
///
/// `K` says how every place stood at first, this one among them.
#[derive(Drop)]
pub struct Locked<P: Place, K: Openings<P>> {
    id: PlaceId,
    kept: Mutex<Kept<P, K>>,
}

impl<P: Place, K: Openings<P>> Model for Locked<P, K> {
    ghost use Rattle.vm_types.specs.declared.ids.PlaceId.{PlaceId};

    ghost Value = { PlaceId };

    ghost view = { λ lock. lock.id };
}

impl<P: Place, K: Openings<P>> Locked<P, K> {
    /// A free lock, with an empty history. It takes no memory.
    pub fn new(alloc: Global, id: PlaceId, place: P) -> Locked<P, K>
        requires { P.value place ≡ P.value (K.opening id) }
        ensures { result ≡ id }
    {
        Locked {
            id,
            kept: Mutex::new(Kept::new(alloc, id, place)),
        }
    }

    /// The place's id.
    pub fn id(&self) -> PlaceId
        ensures { result ≡ self.now }
    {
        self.id
    }

    /// One act of this actor on the place, under its lock; there `gate.inside` is called first. `clock` is the actor's
    /// last stamp, 0 at first. Want of memory leaves the place, its history and the clock.
    pub fn act_as<R: Wait, G: Gate>(
        &self,
        rt: &R,
        gate: &G,
        actor: ActorId,
        clock: &mut u64,
        op: &Op,
    ) -> Result<Entry, AllocError>
        requires { clock.old < 2 ^ 63 }
        ensures entry { IfOk result (λ e. IsEntryOf e actor self.now op.now clock.old) }
        ensures clock { IfOk result (λ e. clock.new ≡ e.stamp) }
        ensures err { OnErr result (clock.new ≡ clock.old) }
    {
        let mut kept = self.kept.lock(rt);
        gate.inside(actor, self.id);
        kept.act(actor, self.id, clock, op)
    }

    /// The id as it was kept under the lock, the place, and the history that leads to it from how that place stood
    /// at first.
    pub fn into_place(self) -> (PlaceId, P, Vec<Entry>)
        ensures { IsHistory P.touch result.0
            (P.value (K.opening result.0)) result.2.items (P.value result.1) }
    {
        let Locked { id: _, kept } = self;
        kept.into_inner().into_parts()
    }
}
