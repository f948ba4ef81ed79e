// What lies under a lock.
ghost use Rattle.std.specs.Prelude.{◌≡◌, ◌+◌, ◌<◌, ◌≤◌, ◌^◌, ◌++◌, ◌∷◌, [], length, vec_len, vec_capacity, IfOk, OnErr};
ghost use Rattle.vm_types.specs.Histories.{last_stamp};
ghost use Rattle.place_locks.specs.Held.{IsEntryOf, IsHistory};

use std::alloc::{AllocError, Global};
use std::marker::{Model, PhantomData};
use vm_types::{ActorId, Entry, Op, Openings, Place, PlaceId, is_same_place};

/// More entries than any memory holds.
const MOST: usize = 1 << 62;

/// A place with its id and the history of its acts. Contracts see the id and the history.
///
/// `K` says how each place stood at first. The invariant ties the place's value to that and to the history, so what a
/// contract says of the history is said of the value too.
#[derive(Drop)]
pub struct Kept<P: Place, K: Openings<P>> {
    id: PlaceId,
    place: P,
    last: u64,
    history: Vec<Entry>,
    of: PhantomData<K>,
}

impl<P: Place, K: Openings<P>> Model for Kept<P, K> {
    ghost use Rattle.std.specs.Prelude.{List};
    ghost use Rattle.vm_types.specs.declared.ids.PlaceId.{PlaceId};
    ghost use Rattle.vm_types.specs.declared.entry.Entry.{Entry};
    ghost use Rattle.place_locks.specs.Held.{IsHistory, IsLast};

    ghost Value = { PlaceId × List Entry };

    ghost view = { λ kept. (kept.id, kept.history.items) };

    ghost invariant = { λ kept.
        IsHistory P.touch kept.id (P.value (K.opening kept.id)) kept.history.items (P.value kept.place)
        × IsLast kept.last kept.history.items };
}

/// Acts, and writes the act down.
fn act_on<P: Place>(
    place: &mut P,
    id: PlaceId,
    before: u64,
    actor: ActorId,
    clock: u64,
    op: &Op,
) -> Entry
    requires { (before < 2 ^ 63 + 2 ^ 62) × (clock < 2 ^ 63) }
    ensures entry { IsEntryOf result actor id op.now clock }
    ensures before { result.before ≡ before }
    ensures reply { result.reply ≡ (P.touch (P.value place.old) actor op.now).0 }
    ensures value { P.value place.new ≡ (P.touch (P.value place.old) actor op.now).1 }
{
    let reply = place.act(actor, op);
    Entry {
        stamp: before.max(clock) + 1,
        before,
        actor,
        place: id,
        op: op.again(),
        reply,
    }
}

/// Adds an entry at the end, in room that was made before.
fn write_down<E: Copy>(history: &mut Vec<E>, entry: &E)
    requires { vec_len history.old < vec_capacity history.old }
    ensures { history.new.items ≡ history.old.items ++ entry.now ∷ [] }
{
    history.push_reserved(*entry);
}

impl<P: Place, K: Openings<P>> Kept<P, K> {
    /// A place that stands as it did at first. It takes no memory.
    pub fn new(alloc: Global, id: PlaceId, place: P) -> Kept<P, K>
        requires { P.value place ≡ P.value (K.opening id) }
        ensures { result ≡ (id, []) }
    {
        Kept {
            id,
            place,
            last: 0,
            history: Vec::new(alloc),
            of: PhantomData,
        }
    }

    /// One act on the place, which has this id: makes room in the history, and then acts. Without memory, or where the
    /// place has another id, nothing changes.
    pub fn act(
        &mut self,
        actor: ActorId,
        id: PlaceId,
        clock: &mut u64,
        op: &Op,
    ) -> Result<Entry, AllocError>
        requires { clock.old < 2 ^ 63 }
        ensures entry { IfOk result (λ e. IsEntryOf e actor id op.now clock.old) }
        ensures place { IfOk result (λ e. id ≡ self.old.0) }
        ensures before { IfOk result (λ e. e.before ≡ last_stamp 0 self.old.1) }
        ensures clock { IfOk result (λ e. clock.new ≡ e.stamp) }
        ensures kept { IfOk result (λ e. self.new ≡ (self.old.0, self.old.1 ++ e ∷ [])) }
        ensures err { OnErr result ((self.new ≡ self.old) × (clock.new ≡ clock.old)) }
    {
        if self.history.len() >= MOST || !is_same_place(id, self.id) {
            return Err(AllocError);
        }
        self.history.reserve(1)?;
        let entry = act_on(&mut self.place, self.id, self.last, actor, *clock, op);
        write_down(&mut self.history, &entry);
        self.last = entry.stamp;
        *clock = entry.stamp;
        Ok(entry)
    }

    /// The id, the place and its history.
    pub fn into_parts(self) -> (PlaceId, P, Vec<Entry>)
        ensures parts { (result.0 ≡ self.0) × (result.2.items ≡ self.1) }
        ensures history { IsHistory P.touch result.0
            (P.value (K.opening result.0)) result.2.items (P.value result.1) }
    {
        let Kept {
            id,
            place,
            last: _,
            history,
            of: _,
        } = self;
        (id, place, history)
    }
}
