// Places, and who may act on them.
ghost use Rattle.std.specs.Prelude.{◌≡◌, ◌+◌, ◌^◌, ◌<◌, ◌≤◌, [], length, IfErr, IfOk, All, vec_capacity};
ghost use Rattle.std.specs.Mem.Slots.{slots_items, slots_len, IsFull};
ghost use Rattle.turn_table.specs.Views.{fewer, joined, newcomer};
ghost use Rattle.turn_table.specs.Rule.{IsNew};
ghost use Rattle.turn_table.specs.Steps.{IsReady, Settles, Told};

use crate::fed::Fed;
use crate::held::{Held, Opening};
use crate::law::{Both, Law, Part, Settle};
use crate::note::Note;
use crate::view::View;
use atomic_table::{Closed, Seat, Table};
use std::alloc::Global;

/// What a thread acts with: some parts of the right to act, and what was done with it in this round. It has no bytes.
pub type TurnSeat<P> = Seat<Held<P>, View<P>>;

/// Places by their index, each with a word that says whether somebody has the turn at it.
#[derive(Drop)]
pub struct Turns<P: Fed> {
    pub table: Table<Held<P>, View<P>, Opening<P>, Law<P>, Global>,
    pub round: u64,
    room: Vec<Held<P>>,
    pub ghost sized: { table.shared.table_id.words ≡ table.shared.table_id.slots },
    pub ghost roomy: { (room.items ≡ []) × (table.shared.table_id.slots ≤ vec_capacity room) },
}

// Takes every slot's value out, in order, into room that was made before.
fn empty<P: Drop>(mut closed: Closed<Held<P>, Global>, mut room: Vec<Held<P>>) -> Vec<Held<P>>
    requires full { IsFull closed.words × IsFull closed.slots }
    requires room { (room.items ≡ []) × (slots_len closed.slots ≤ vec_capacity room) }
    ensures { result.items ≡ slots_items closed.slots }
{
    for i in 0..closed.slot_count() {
        room.push_reserved(closed.take(i));
    }
    closed.free();
    room
}

impl<P: Fed> Turns<P> {
    /// Places on which nobody acted yet, and the seat with all parts of the right to act on them, 1 to 65,535. Each place has the
    /// index that it has in the list. The only error is want of memory, and it gives the places back.
    pub fn new(
        alloc: Global,
        places: Vec<Held<P>>,
        parts: u32,
    ) -> Result<(Turns<P>, TurnSeat<P>), Vec<Held<P>>>
        requires new { All IsNew places.items }
        requires parts { (0 < parts) × (parts < 2 ^ 16) }
        ensures seat { IfOk result (λ made. IsReady made.0.table.shared.table_id made.0.round made.1) }
        ensures count { IfOk result (λ made. made.0.table.shared.table_id.words ≡ length places.items) }
        ensures whole { IfOk result (λ made. made.0.table.shared.key.parts ≡ parts) }
        ensures first { IfOk result (λ made. made.0.round ≡ 0) }
        ensures view { IfOk result (λ made. made.1.me.0 ≡ newcomer parts (record { number = 0; opens = places.items })) }
        ensures back { IfErr result (λ back. back.items ≡ places.items) }
    {
        let opening = Opening {
            parts,
            places: Note::of(&places),
        };
        let Ok(room) = Vec::with_capacity(alloc, places.len()) else {
            return Err(places);
        };
        let Ok(words) = vec![in alloc; 0u64; places.len()] else {
            return Err(places);
        };
        match Table::new(alloc, &words, places, &opening) {
            Ok((table, seat)) => Ok((
                Turns {
                    table,
                    round: 0,
                    room,
                },
                seat,
            )),
            Err(refused) => Err(refused.slots),
        }
    }

    /// A seat with one of the parts that this seat has. This seat has at least two, and nothing was done with it in this round. It
    /// takes no memory.
    pub fn split(&self, seat: &mut TurnSeat<P>) -> TurnSeat<P>
        requires seat { IsReady self.now.table.shared.table_id self.now.round seat.old }
        requires bare { (seat.old.me.0.entries ≡ []) × (1 < seat.old.me.0.parts) }
        requires some { 0 < self.now.table.shared.table_id.words }
        ensures seat { IsReady self.now.table.shared.table_id self.now.round seat.new }
        ensures left { seat.new.me.0 ≡ fewer seat.old.me.0 }
        ensures new { IsReady self.now.table.shared.table_id self.now.round result }
        ensures right { result.me.0 ≡ newcomer 1 seat.old.me.0.round }
    {
        self.table.shared.split_seat::<Part>(seat)
    }

    /// Gives a seat what another has: its parts, and what was done with it. It takes no memory.
    pub fn join(&self, seat: &mut TurnSeat<P>, other: TurnSeat<P>)
        requires seat { IsReady self.now.table.shared.table_id self.now.round seat.old }
        requires other { IsReady self.now.table.shared.table_id self.now.round other }
        requires some { 0 < self.now.table.shared.table_id.words }
        ensures seat { IsReady self.now.table.shared.table_id self.now.round seat.new }
        ensures both { seat.new.me.0 ≡ joined seat.old.me.0 other.me.0 }
    {
        self.table.shared.join_seat::<Both>(seat, other);
    }

    /// Ends a round and begins the next one, with the places where they are. The seat has all parts. It is told what happened to each
    /// place in the round that ends. It touches no place and takes no memory, however many places there are.
    pub fn settle(&mut self, seat: &mut TurnSeat<P>)
        requires seat { IsReady self.old.table.shared.table_id self.old.round seat.old }
        requires whole { seat.old.me.0.parts ≡ self.old.table.shared.key.parts }
        requires some { 0 < self.old.table.shared.table_id.words }
        requires round { self.old.round + 1 < 2 ^ 64 }
        ensures table { self.new.table ≡ self.old.table }
        ensures round { self.new.round ≡ self.old.round + 1 }
        ensures seat { IsReady self.new.table.shared.table_id self.new.round seat.new }
        ensures settled { Settles P.touch P.value P.made seat.old.me seat.new.me }
    {
        self.table.shared.load::<Settle<P>>(seat, 0);
        self.round += 1;
    }

    /// The places as they stand, by their index. The seat has all parts. It is told what happened to each place in the round. It takes
    /// no memory, since `new` made room.
    pub fn close(self, seat: TurnSeat<P>) -> Vec<Held<P>>
        requires seat { IsReady self.table.shared.table_id self.round seat }
        requires whole { seat.me.0.parts ≡ self.table.shared.key.parts }
        ensures told { Told P.touch P.value P.made seat.me.0 result.items }
        ensures count { length result.items ≡ length seat.me.0.round.opens }
    {
        let Turns {
            table,
            round: _,
            room,
        } = self;
        empty(table.close_with(seat), room)
    }
}
