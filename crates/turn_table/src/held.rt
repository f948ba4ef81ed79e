// What lies in a slot.
ghost use Rattle.std.specs.Prelude.{◌≡◌};

use crate::note::Note;
use vm_types::{ActorId, Entry, Op, PlaceId, Reply};

/// What stands for the last act where there was none.
const NOTHING: Entry = Entry {
    stamp: 0,
    before: 0,
    actor: ActorId::Timer,
    place: PlaceId::Out,
    op: Op::Idle,
    reply: Reply::Done,
};

/// A place with its id, and the stamp of its last act, which counts in the round of that act alone. `noted` is that act, and
/// has no bytes.
#[derive(Drop)]
pub struct Held<P> {
    pub id: PlaceId,
    pub round: u64,
    pub last: u64,
    pub place: P,
    pub noted: Note<Entry>,
}

/// How the places stood at first, which only clauses read, and how many parts there are of the right to act on them.
#[derive(Drop)]
pub struct Opening<P> {
    pub parts: u32,
    pub places: Note<Vec<Held<P>>>,
}

impl<P> Held<P> {
    /// A place on which nobody acted yet.
    pub fn new(id: PlaceId, place: P) -> Held<P>
        ensures is { (result.id ≡ id) × (result.place ≡ place) }
        ensures new { (result.round ≡ 0) × (result.last ≡ 0) }
    {
        Held {
            id,
            round: 0,
            last: 0,
            place,
            noted: Note::of(&NOTHING),
        }
    }
}
