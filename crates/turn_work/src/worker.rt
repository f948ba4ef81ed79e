// An actor at work.
ghost use Rattle.std.specs.Prelude.{ℕ, ◌≡◌, ◌+◌, ◌<◌, ◌^◌, ◌++◌, ◌∷◌, [], length, List, vec_len, vec_capacity};
ghost use Rattle.atomic_table.specs.Seated.{TableId};
ghost use Rattle.vm_types.specs.declared.entry.Entry.{Entry as EntryValue};
ghost use Rattle.vm_types.specs.declared.ids.PlaceId.{PlaceId};
ghost use Rattle.turn_table.specs.declared.view.Round.{Round};
ghost use Rattle.turn_table.specs.Views.{fewer};
ghost use Rattle.turn_table.specs.Acts.{IsEntryAt};
ghost use Rattle.turn_table.specs.Blanks.{CanFeed, IsMadeAt, IsOneAtMost};
ghost use Rattle.turn_table.specs.Steps.{IsReady};
ghost use Rattle.turn_work.specs.Work.{AreNamed, HasNoted, HasWritten, IsAtWork, IsOutEntry};

use pause_gate::Gate;
use stamp_merge::Journal;
use std::sync::Wait;
use turn_table::{Fed, TurnSeat, Turns};
use vm_types::{ActorId, Entry, Op, PlaceId, Reply};

/// An actor with its last stamp in this round, its seat with one part of the right to act, and its entries, in room that was made before.
#[derive(Drop)]
pub struct Worker<P> {
    pub actor: ActorId,
    pub clock: u64,
    pub seat: TurnSeat<P>,
    pub journal: Vec<Entry>,
}

impl<P: Fed> Worker<P> {
    /// An actor that did nothing yet, with one of the parts that this seat has, which has at least two and with which nothing was done
    /// in this round.
    pub fn new(
        turns: &Turns<P>,
        seat: &mut TurnSeat<P>,
        actor: ActorId,
        journal: Vec<Entry>,
    ) -> Worker<P>
        requires seat { IsReady turns.now.table.shared.table_id turns.now.round seat.old }
        requires bare { (seat.old.me.0.entries ≡ []) × (1 < seat.old.me.0.parts) }
        requires some { 0 < turns.now.table.shared.table_id.words }
        requires journal { journal.items ≡ [] }
        ensures seat { IsReady turns.now.table.shared.table_id turns.now.round seat.new }
        ensures left { seat.new.me.0 ≡ fewer seat.old.me.0 }
        ensures work { IsAtWork turns.now.table.shared.table_id turns.now.round result }
        ensures begins { (result.actor ≡ actor) × (result.clock ≡ 0) × (result.journal ≡ journal) }
        ensures noted { (index : PlaceId → ℕ) → HasNoted seat.old.me.0.round index result.seat.me.0 [] }
    {
        Worker {
            actor,
            clock: 0,
            seat: turns.split(seat),
            journal,
        }
    }

    /// One act by this op on the place at this index, in a turn, which is written down. The journal has room, and fewer than 2^32 entries;
    /// the last stamp is below 2^63. Of the pool it takes what `Turns::act_turn` takes.
    pub fn act<R: Wait, G: Gate>(
        &mut self,
        rt: &R,
        turns: &Turns<P>,
        gate: &G,
        place: usize,
        pool: &mut P::Pool,
        op: &Op,
    ) -> Entry
        requires work { IsAtWork turns.now.table.shared.table_id turns.now.round self.old }
        requires room { (vec_len self.old.journal < vec_capacity self.old.journal) × (vec_len self.old.journal < 2 ^ 32) }
        requires place { place < turns.now.table.shared.table_id.words }
        requires clock { self.old.clock < 2 ^ 63 }
        requires fed { CanFeed P.made self.old.seat.me.0 place (P.blanks pool.old) }
        ensures work { IsAtWork turns.now.table.shared.table_id turns.now.round self.new }
        ensures entry { IsEntryAt self.old.seat.me.0 place result self.old.actor op.now self.old.clock }
        ensures wrote { HasWritten result self.old self.new }
        ensures noted { (round : Round P) (index : PlaceId → ℕ) → AreNamed index round →
            HasNoted round index self.old.seat.me.0 self.old.journal.items →
            HasNoted round index self.new.seat.me.0 self.new.journal.items }
        ensures one { IsOneAtMost (P.blanks pool.old) (P.blanks pool.new) }
        ensures none { IsMadeAt P.made self.old.seat.me.0 place → P.blanks pool.new ≡ P.blanks pool.old }
        ensures spent { P.blanks pool.new < P.blanks pool.old → IsMadeAt P.made self.new.seat.me.0 place }
    {
        let entry = turns.act_turn(
            rt,
            gate,
            &mut self.seat,
            place,
            self.actor,
            &mut self.clock,
            pool,
            op,
        );
        self.journal.push_reserved(entry.again());
        entry
    }

    /// One act by this op with no place, which got this reply. It is written down with the next stamp behind the actor's last.
    pub fn act_out(&mut self, op: &Op, reply: Reply) -> Entry
        requires { (vec_len self.old.journal < vec_capacity self.old.journal) × (self.old.clock < 2 ^ 63) }
        ensures work { (table : TableId) (n : ℕ) → IsAtWork table n self.old → IsAtWork table n self.new }
        ensures entry { IsOutEntry result self.old.actor op.now reply self.old.clock }
        ensures wrote { HasWritten result self.old self.new }
        ensures noted { (round : Round P) (index : PlaceId → ℕ) →
            HasNoted round index self.old.seat.me.0 self.old.journal.items →
            HasNoted round index self.new.seat.me.0 self.new.journal.items }
    {
        self.clock += 1;
        let entry = Entry {
            stamp: self.clock,
            before: 0,
            actor: self.actor,
            place: PlaceId::Out,
            op: op.again(),
            reply,
        };
        self.journal.push_reserved(entry.again());
        entry
    }

    /// The actor leaves: its part of the right to act and what its seat noted go to this seat, and its journal comes back.
    pub fn leave(self, turns: &Turns<P>, seat: &mut TurnSeat<P>) -> Journal
        requires work { IsAtWork turns.now.table.shared.table_id turns.now.round self }
        requires seat { IsReady turns.now.table.shared.table_id turns.now.round seat.old }
        requires some { 0 < turns.now.table.shared.table_id.words }
        ensures seat { IsReady turns.now.table.shared.table_id turns.now.round seat.new }
        ensures parts { seat.new.me.0.parts ≡ seat.old.me.0.parts + 1 }
        ensures journal { result ≡ record { actor = self.actor; entries = self.journal } }
        ensures noted { (round : Round P) (index : PlaceId → ℕ) (es : List EntryValue) →
            HasNoted round index seat.old.me.0 es → HasNoted round index self.seat.me.0 self.journal.items →
            HasNoted round index seat.new.me.0 (es ++ self.journal.items) }
    {
        turns.join(seat, self.seat);
        Journal {
            actor: self.actor,
            entries: self.journal,
        }
    }
}
