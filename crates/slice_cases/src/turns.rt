// Two harts that act by turns on the places of a machine, in rounds of one table.
ghost use Rattle.std.specs.Prelude.{◌≡◌, ◌<◌, [], All};
ghost use Rattle.turn_table.specs.Views.{fewer};
ghost use Rattle.turn_table.specs.Rule.{IsNew};
ghost use Rattle.turn_table.specs.Steps.{IsReady};
ghost use Rattle.slice_cases.specs.Turners.{CanWork, HasWorked};

use crate::meeting::party;
use crate::worlds::two_drives;
use guest_pages::Blank;
use line_board::Board;
use machine_places::{MachinePlace, place_all};
use pause_gate::{FlagGate, Gate, HoldGate};
use std::alloc::{AllocError, Global};
use std::io;
use std::sync::Wait;
use std::thread::{Threads, join};
use turn_table::{Held, TurnSeat, Turns};
use vm_types::{ActorId, AmoKind, Entry, Op, Reply, is_same_reply};

/// Adds 1 to the first doubleword of page 7. Elsewhere it is a fault.
const ADD_ONE: Op = Op::Amo {
    at: 0x8000_7000,
    value: 1,
    kind: AmoKind::Add,
    wide: true,
};

/// A hart with the index of its place, its seat, its blanks, and what it did, in room that was made before.
#[derive(Drop)]
pub struct Turner {
    pub actor: ActorId,
    pub place: usize,
    pub seat: TurnSeat<MachinePlace>,
    pub journal: Vec<Entry>,
    pub pool: Vec<Blank>,
}

/// A table between two rounds, and the seat with its three parts.
#[derive(Drop)]
struct Rested {
    turns: Turns<MachinePlace>,
    seat: TurnSeat<MachinePlace>,
    ghost ready: { IsReady turns.table.shared.table_id turns.round seat },
    ghost bare: { seat.me.0.entries ≡ [] },
    ghost whole: { (seat.me.0.parts ≡ 3) × (turns.table.shared.key.parts ≡ 3) },
    ghost many: { 512 < turns.table.shared.table_id.words },
}

type Journals = (Vec<Entry>, Vec<Entry>);

pub fn print<R: Threads + Wait + Print + AllocGlobal + Sync>(rt: &R) -> io::Result<()> {
    let (gate, _passes) = FlagGate::new(rt.alloc(), 1)?;
    let Some(rested) = table_of_places(rt.alloc()) else {
        return println!(rt; "no table");
    };
    println!(rt; "turns: places => {}", rested.turns.table.word_count())?;
    let rested = print_first(rt, &gate, rested)?;
    let rested = print_rounds(rt, &gate, rested)?;
    print_page(rt, rested)?;
    print_meetings(rt)
}

// The places of a world of two harts and two drives.
fn table_of_places(alloc: Global) -> Option<Rested> {
    let mut world = two_drives(alloc, &[])?;
    let board = Board::new(alloc, 2).ok()?;
    let parts = world.take(alloc, board);
    let count = parts.pages.len() + parts.ports.len() + 1;
    let mut places = Vec::with_capacity(alloc, count).ok()?;
    place_all(parts.pages, parts.ports, parts.board, &mut places);
    Rested::new(alloc, places)
}

// One act of each of two seats at one place: whichever comes first, one finds nothing and the other what that left.
fn print_first<R: Threads + Wait + Print + AllocGlobal + Sync>(
    rt: &R,
    gate: &FlagGate,
    rested: Rested,
) -> io::Result<Rested> {
    let (rested, (one, other)) = rested.round(rt, gate, rt.alloc(), (7, 7), 1)?;
    println!(rt; "turns: one act each => {}", is_history(&one, &other, 0, 2))?;
    Ok(rested)
}

// Two rounds of a thousand acts of each.
fn print_rounds<R: Threads + Wait + Print + AllocGlobal + Sync>(
    rt: &R,
    gate: &FlagGate,
    rested: Rested,
) -> io::Result<Rested> {
    let (rested, (one, other)) = rested.round(rt, gate, rt.alloc(), (7, 7), 1000)?;
    println!(rt;
        "turns: a round of 2,000 acts => {}",
        is_history(&one, &other, 2, 2000)
    )?;
    let (rested, (one, other)) = rested.round(rt, gate, rt.alloc(), (7, 7), 1000)?;
    println!(rt;
        "turns: another round => {}",
        is_history(&one, &other, 2002, 2000)
    )?;
    Ok(rested)
}

// The page's word and mark after all rounds.
fn print_page<R: Print>(rt: &R, rested: Rested) -> io::Result<()> {
    let places = rested.close();
    let Some(held) = places.get(7) else {
        return println!(rt; "no page");
    };
    let MachinePlace::Page(page) = &held.place else {
        return println!(rt; "no page");
    };
    let mut word = [0; 8];
    word.copy_from_slice(&page.bytes()[..8]);
    println!(rt; "turns: the page => {:?}", held.id)?;
    println!(rt;
        "turns: its word and mark => {} {}",
        u64::from_le_bytes(word),
        page.is_marked()
    )
}

// Two harts in turns at places of their own meet there, and at one place they miss each other.
fn print_meetings<R: Threads + Wait + Print + AllocGlobal + Sync>(rt: &R) -> io::Result<()> {
    let (flag, _passes) = FlagGate::new(rt.alloc(), 1)?;
    let apart = HoldGate::new(flag, party(0, 7), party(1, 512), 1_000_000_000);
    let (flag, _passes) = FlagGate::new(rt.alloc(), 1)?;
    let together = HoldGate::new(flag, party(0, 7), party(1, 7), 1000);
    let Some(rested) = table_of_places(rt.alloc()) else {
        return println!(rt; "no table");
    };
    let (rested, _journals) = rested.round(rt, &apart, rt.alloc(), (7, 512), 10)?;
    println!(rt; "two turns: the meeting => {:?}", apart.meeting())?;
    rested.round(rt, &together, rt.alloc(), (7, 7), 10)?;
    println!(rt; "one turn: the meeting => {:?}", together.meeting())
}

impl Rested {
    fn new(alloc: Global, places: Vec<Held<MachinePlace>>) -> Option<Rested>
        requires { All IsNew places.items }
    {
        if places.len() <= 512 {
            return None;
        }
        let Ok((turns, seat)) = Turns::new(alloc, places, 3) else {
            return None;
        };
        Some(Rested { turns, seat })
    }

    // So many acts of hart 0 at the first of these places, and of hart 1 at the second, at once; and then the round is over.
    fn round<R: Threads + Wait + Sync, G: Gate + Sync>(
        self,
        rt: &R,
        gate: &G,
        alloc: Global,
        places: (usize, usize),
        acts: u32,
    ) -> Result<(Rested, Journals), AllocError> {
        let Rested {
            mut turns,
            mut seat,
        } = self;
        if places.0 > 512 || places.1 > 512 || turns.round == u64::MAX {
            return Err(AllocError);
        }
        let room = (
            Vec::with_capacity(alloc, acts as usize)?,
            Vec::with_capacity(alloc, acts as usize)?,
        );
        let pools = (two_blanks(alloc)?, two_blanks(alloc)?);
        let one = hart_at(&turns, &mut seat, 0, places.0, (room.0, pools.0));
        let other = hart_at(&turns, &mut seat, 1, places.1, (room.1, pools.1));
        let (one, other) = work_at_once(rt, gate, &turns, one, other, acts);
        turns.join(&mut seat, one.seat);
        turns.join(&mut seat, other.seat);
        turns.settle(&mut seat);
        Ok((Rested { turns, seat }, (one.journal, other.journal)))
    }

    fn close(self) -> Vec<Held<MachinePlace>> {
        let Rested { turns, seat } = self;
        turns.close(seat)
    }
}

// Blanks for a page and one more.
fn two_blanks(alloc: Global) -> Result<Vec<Blank>, AllocError> {
    let mut pool = Vec::with_capacity(alloc, 2)?;
    for _blank in 0..2 {
        pool.push(Blank::new(alloc)?)?;
    }
    Ok(pool)
}

// A hart with one of the seat's parts, and with this room and these blanks.
fn hart_at(
    turns: &Turns<MachinePlace>,
    seat: &mut TurnSeat<MachinePlace>,
    hart: u8,
    place: usize,
    room: (Vec<Entry>, Vec<Blank>),
) -> Turner
    requires seat { IsReady turns.now.table.shared.table_id turns.now.round seat.old }
    requires bare { (seat.old.me.0.entries ≡ []) × (1 < seat.old.me.0.parts) }
    requires place { place < turns.now.table.shared.table_id.words }
    ensures seat { IsReady turns.now.table.shared.table_id turns.now.round seat.new }
    ensures left { seat.new.me.0 ≡ fewer seat.old.me.0 }
    ensures can { CanWork turns.now.table.shared.table_id turns.now.round result }
    ensures one { result.seat.me.0.parts ≡ 1 }
{
    Turner {
        actor: ActorId::Hart(hart),
        place,
        seat: turns.split(seat),
        journal: room.0,
        pool: room.1,
    }
}

fn work_at_once<R: Threads + Wait + Sync, G: Gate + Sync>(
    rt: &R,
    gate: &G,
    turns: &Turns<MachinePlace>,
    one: Turner,
    other: Turner,
    acts: u32,
) -> (Turner, Turner)
    requires one { CanWork turns.now.table.shared.table_id turns.now.round one }
    requires other { CanWork turns.now.table.shared.table_id turns.now.round other }
    ensures one { HasWorked turns.now.table.shared.table_id turns.now.round one result.0 }
    ensures other { HasWorked turns.now.table.shared.table_id turns.now.round other result.1 }
{
    join(
        rt,
        move || work(rt, gate, turns, one, acts),
        move || work(rt, gate, turns, other, acts),
    )
}

// So many acts at most, as far as there is room to write them down.
fn work<R: Wait, G: Gate>(
    rt: &R,
    gate: &G,
    turns: &Turns<MachinePlace>,
    mut turner: Turner,
    acts: u32,
) -> Turner
    requires can { CanWork turns.now.table.shared.table_id turns.now.round turner }
    ensures { HasWorked turns.now.table.shared.table_id turns.now.round turner result }
{
    let mut clock = 0;
    for _act in 0..acts {
        if clock >= 1 << 63 || turner.journal.len() >= turner.journal.capacity() {
            break;
        }
        if turner.pool.is_empty() {
            break;
        }
        let entry = turns.act_turn(
            rt,
            gate,
            &mut turner.seat,
            turner.place,
            turner.actor,
            &mut clock,
            &mut turner.pool,
            &ADD_ONE,
        );
        turner.journal.push_reserved(entry);
    }
    turner
}

// Whether these are so many entries that, put together, are one history from its begin, each with the reply how many adds there were.
fn is_history(one: &[Entry], other: &[Entry], adds: u64, count: u64) -> bool {
    let (mut i, mut j, mut last) = (0usize, 0usize, 0);
    for act in 0..count {
        let found = adds.wrapping_add(act);
        if let Some(stamp) = stamp_of(one.get(i), last, found) {
            last = stamp;
            i = i.wrapping_add(1);
        } else if let Some(stamp) = stamp_of(other.get(j), last, found) {
            last = stamp;
            j = j.wrapping_add(1);
        } else {
            return false;
        }
    }
    one.len() == i && other.len() == j
}

// The stamp of an entry that is next behind this one, and found this word.
fn stamp_of(entry: Option<&Entry>, last: u64, found: u64) -> Option<u64> {
    let entry = entry?;
    if entry.before == last
        && entry.stamp > last
        && is_same_reply(&entry.reply, &Reply::Word(found))
    {
        Some(entry.stamp)
    } else {
        None
    }
}
