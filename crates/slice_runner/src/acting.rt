// One act of an actor in a slice.
ghost use Rattle.std.specs.Prelude.{◌≡◌, ◌<◌, ◌^◌, true, false, length, vec_len, vec_capacity};
ghost use Rattle.flat_guest.specs.Body.{out_reply};
ghost use Rattle.flat_guest.specs.Given.{as_given};
ghost use Rattle.flat_guest.specs.Steps.{is_given};
ghost use Rattle.turn_table.specs.Blanks.{IsOneAtMost};
ghost use Rattle.turn_work.specs.Work.{HasWritten};
ghost use Rattle.slice_runner.specs.Blanks.{CanAct};
ghost use Rattle.slice_runner.specs.Runs.{IsActOf, has_port};
ghost use Rattle.slice_runner.specs.Seats.{IsSeated, StaysSeated};

use crate::places::Places;
use crate::worker::Track;
use flat_guest::{Layout, place};
use guest_memory::PAGE_SIZE;
use machine_places::index_of;
use pause_gate::Gate;
use std::sync::Wait;
use vm_types::{Entry, Op, PlaceId, Reply};

// With no place: the reply that is given, a wait that is done, or an access that is a fault.
fn answer_out(op: &Op, given: Option<Reply>) -> Reply
    ensures { result ≡ out_reply op.now (as_given given) }
{
    match given {
        Some(reply) => reply,
        None => match op {
            Op::Idle => Reply::Done,
            _ => Reply::AccessFault,
        },
    }
}

/// An act of this actor, on its place in a turn or with no place, which is written down. It takes one of its blanks at most, and no
/// other memory. There is room in the journal, which has fewer than 2^32 entries, and the last stamp is below 2^63.
pub fn act_once<Q, R: Wait, G: Gate>(
    rt: &R,
    gate: &G,
    places: &Places,
    track: &mut Track<Q>,
    op: &Op,
    given: Option<Reply>,
) -> Entry
    requires seat { IsSeated places.now track.old.work }
    requires room { (vec_len track.old.work.journal < vec_capacity track.old.work.journal) × (vec_len track.old.work.journal < 2 ^ 32) }
    requires clock { track.old.work.clock < 2 ^ 63 }
    requires given { is_given op.now (as_given given) ≡ true }
    requires port { has_port places.now.layout op.now ≡ true }
    requires fed { CanAct places.now.made.items places.now.layout op.now (length track.old.pool.items) }
    ensures seat { StaysSeated places.now track.old.work track.new.work }
    ensures entry { IsActOf result track.old.work.actor op.now (as_given given) places.now.layout track.old.work.clock }
    ensures wrote { HasWritten result track.old.work track.new.work }
    ensures one { IsOneAtMost (length track.old.pool.items) (length track.new.pool.items) }
    ensures same { track.new ≡ record track.old { work = track.new.work; pool = track.new.pool } }
{
    let size = Layout {
        memory_size: PAGE_SIZE * places.layout.pages as usize,
        ports: places.layout.ports,
    };
    match place(size, op) {
        PlaceId::Out => track.work.act_out(op, answer_out(op, given)),
        inner => track.work.act(
            rt,
            &places.turns,
            gate,
            index_of(places.layout, inner),
            &mut track.pool,
            op,
        ),
    }
}
