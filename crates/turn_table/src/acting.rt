// Acts on places, each in a turn.
ghost use Rattle.std.specs.Prelude.{◌≡◌, ◌+◌, ◌*◌, ◌%◌, ◌^◌, ◌<◌, ◌≤◌, ◌⊎◌, [], ◌∷◌, length, None, MatchBool};
ghost use Rattle.place_locks.specs.Held.{IsEntryOf};
ghost use Rattle.turn_table.specs.declared.held.Held.{Held};
ghost use Rattle.turn_table.specs.declared.view.Turn.{Turn};
ghost use Rattle.turn_table.specs.Rule.{before_of};
ghost use Rattle.turn_table.specs.Acts.{IsActed, IsEntryAt};
ghost use Rattle.turn_table.specs.Blanks.{CanFeed, IsMadeAt, IsNoted, IsOneAtMost};
ghost use Rattle.turn_table.specs.Steps.{IsTaken, Acted, HasTurn, IsReady};

use crate::fed::Fed;
use crate::held::Held;
use crate::law::{Release, Take};
use crate::note::Note;
use crate::turns::{TurnSeat, Turns};
use pause_gate::Gate;
use std::hint;
use std::sync::Wait;
use vm_types::{ActorId, Entry, Op};

/// At a word from here on nobody gets a turn any more. So many acts no place has.
const LAST: u64 = 1 << 63;

/// Where an actor acts, and its last stamp in this round.
#[derive(Clone, Copy, Drop)]
struct Post {
    place: usize,
    actor: ActorId,
    clock: u64,
}

// Acts on what lies in a slot.
fn act_on<P: Fed>(held: &mut Held<P>, round: u64, post: Post, pool: &mut P::Pool, op: &Op) -> Entry
    requires fed { P.made held.old.place ⊎ (0 < P.blanks pool.old) }
    requires low { (before_of round held.old ≤ 2 ^ 63 + 2 ^ 48) × (post.clock < 2 ^ 63) }
    ensures entry { IsEntryOf result post.actor held.old.id op.now post.clock }
    ensures acted { IsActed P.touch P.value P.made round result held.old held.new }
    ensures one { IsOneAtMost (P.blanks pool.old) (P.blanks pool.new) }
    ensures none { P.made held.old.place → P.blanks pool.new ≡ P.blanks pool.old }
    ensures spent { P.blanks pool.new < P.blanks pool.old → P.made held.new.place }
{
    let before = if held.round == round { held.last } else { 0 };
    let reply = held.place.act_fed(pool, post.actor, op);
    let entry = Entry {
        stamp: before.max(post.clock) + 1,
        before,
        actor: post.actor,
        place: held.id,
        op: op.again(),
        reply,
    };
    held.round = round;
    held.last = entry.stamp;
    held.noted = Note::of(&entry);
    entry
}

impl<P: Fed> Turns<P> {
    // Takes the turn at a place whose word is this even number, or changes nothing.
    fn take(&self, seat: &mut TurnSeat<P>, place: usize, word: u64) -> bool
        requires seat { seat.old.table_id ≡ self.now.table.shared.table_id }
        requires free { (seat.old.me.0.turn ≡ None) × (0 < seat.old.me.0.parts) }
        requires place { place < self.now.table.shared.table_id.words }
        requires word { (word % 2 ≡ 0) × (word + 2 < 2 ^ 64) }
        ensures seat { (seat.new.table_id ≡ seat.old.table_id) × (seat.new.id ≡ seat.old.id) }
        ensures taken { MatchBool result (IsTaken P.made place word seat.old.me seat.new.me) (seat.new.me ≡ seat.old.me) }
    {
        let found = self
            .table
            .shared
            .compare_exchange::<Take<P>>(seat, place, word, word + 1);
        found == word
    }

    // Acts on the slot that the seat has.
    fn act_there<G: Gate>(
        &self,
        gate: &G,
        seat: &mut TurnSeat<P>,
        post: Post,
        pool: &mut P::Pool,
        op: &Op,
    ) -> Entry
        requires seat { seat.old.table_id ≡ self.now.table.shared.table_id }
        requires held { (held : Held P) × (seat.old.me.1 ≡ (post.place, held) ∷ []) × (before_of self.now.round held ≤ 2 ^ 63 + 2 ^ 48) × (P.made held.place ⊎ (0 < P.blanks pool.old)) }
        requires clock { post.clock < 2 ^ 63 }
        ensures seat { (seat.new.table_id ≡ seat.old.table_id) × (seat.new.id ≡ seat.old.id) × (seat.new.me.0 ≡ seat.old.me.0) }
        ensures acted { Acted P.touch P.value P.made self.now.round result post.actor op.now post.clock post.place seat.old.me.1 seat.new.me.1
            (P.blanks pool.old) (P.blanks pool.new) }
        ensures one { IsOneAtMost (P.blanks pool.old) (P.blanks pool.new) }
    {
        let held = seat.slot_mut(&self.table.shared, post.place);
        gate.inside(post.actor, held.id);
        act_on(held, self.round, post, pool, op)
    }

    // Acts in a turn that the seat has, and gives it up.
    fn act_and_give<G: Gate>(
        &self,
        gate: &G,
        seat: &mut TurnSeat<P>,
        word: u64,
        post: Post,
        pool: &mut P::Pool,
        op: &Op,
    ) -> Entry
        requires seat { seat.old.table_id ≡ self.now.table.shared.table_id }
        requires round { seat.old.me.0.round.number ≡ self.now.round }
        requires fed { CanFeed P.made seat.old.me.0 post.place (P.blanks pool.old) }
        requires turn { (t : Turn P) × HasTurn P.made post.place word t seat.old.me }
        requires room { (0 < seat.old.me.0.parts) × (length seat.old.me.0.entries < 2 ^ 32 * seat.old.me.0.parts) }
        requires place { post.place < self.now.table.shared.table_id.words }
        requires word { word + 2 < 2 ^ 64 }
        requires clock { post.clock < 2 ^ 63 }
        ensures seat { IsReady self.now.table.shared.table_id self.now.round seat.new }
        ensures noted { IsNoted P.made post.place result seat.old.me.0 seat.new.me.0 (P.blanks pool.old) (P.blanks pool.new) }
        ensures entry { IsEntryAt seat.old.me.0 post.place result post.actor op.now post.clock }
        ensures one { IsOneAtMost (P.blanks pool.old) (P.blanks pool.new) }
        ensures none { IsMadeAt P.made seat.old.me.0 post.place → P.blanks pool.new ≡ P.blanks pool.old }
    {
        let entry = self.act_there(gate, seat, post, pool, op);
        self.table
            .shared
            .store::<Release>(seat, post.place, word + 2);
        entry
    }

    /// One act of this actor on the place at this index, in a turn; there `gate.inside` is called first, with the place's id. `clock` is
    /// the actor's last stamp in this round, 0 at first, and below 2^63. Of the pool it takes one blank at most, and none if the seat
    /// knows that the place is made: it was when the round began, or an act from this seat left it so, as each does that takes a
    /// blank. It takes no memory and refuses nothing; it waits until the seat has the turn.
    pub fn act_turn<R: Wait, G: Gate>(
        &self,
        rt: &R,
        gate: &G,
        seat: &mut TurnSeat<P>,
        place: usize,
        actor: ActorId,
        clock: &mut u64,
        pool: &mut P::Pool,
        op: &Op,
    ) -> Entry
        requires seat { IsReady self.now.table.shared.table_id self.now.round seat.old }
        requires room { length seat.old.me.0.entries < 2 ^ 32 * seat.old.me.0.parts }
        requires place { place < self.now.table.shared.table_id.words }
        requires clock { clock.old < 2 ^ 63 }
        requires fed { CanFeed P.made seat.old.me.0 place (P.blanks pool.old) }
        ensures seat { IsReady self.now.table.shared.table_id self.now.round seat.new }
        ensures noted { IsNoted P.made place result seat.old.me.0 seat.new.me.0 (P.blanks pool.old) (P.blanks pool.new) }
        ensures entry { IsEntryAt seat.old.me.0 place result actor op.now clock.old }
        ensures clock { clock.new ≡ result.stamp }
        ensures one { IsOneAtMost (P.blanks pool.old) (P.blanks pool.new) }
        ensures none { IsMadeAt P.made seat.old.me.0 place → P.blanks pool.new ≡ P.blanks pool.old }
    {
        for _ in rt.forever() {
            let word = self.table.shared.peek(place);
            if word % 2 == 0 && word < LAST {
                if self.take(seat, place, word) {
                    let post = Post {
                        place,
                        actor,
                        clock: *clock,
                    };
                    let entry = self.act_and_give(gate, seat, word, post, pool, op);
                    *clock = entry.stamp;
                    return entry;
                }
            }
            hint::spin_loop();
        }
        unreachable!()
    }
}
