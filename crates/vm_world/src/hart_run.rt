// Events of one hart, one after another. What is frequent goes by the hart's small ops and a word of a page; a whole
// `Op` and `Reply` are made for the rest alone.
ghost use Rattle.std.specs.Prelude.{◌≡◌, ◌≤◌, ◌^◌, nat_lt, true, false, List, Some, IfSome, length, slice_get, slice_set};
ghost use Rattle.vm_types.specs.declared.ids.ActorId.{ActorId};
ghost use Rattle.guest_memory.specs.Ram.{ram_start};
ghost use Rattle.guest_pages.specs.Made.{HasRoom, Spends};
ghost use Rattle.guest_pages.specs.Words.{read_of, read_reply, served, write_of};
ghost use Rattle.rv_rows.specs.Loads.{load_width};
ghost use Rattle.hart_trace.specs.Asks.{is_hart_op};
ghost use Rattle.rv_doing.specs.HartOps.{op_of, reply_of};
ghost use Rattle.hart_trace.specs.States.{Hart as HartValue};
ghost use Rattle.timer_trace.specs.declared.timer.Timer.{Timer};
ghost use Rattle.guest_devices.specs.declared.device.Device.{Device};
ghost use Rattle.flat_guest.specs.Steps.{port_after, port_reply};
ghost use Rattle.vm_world.specs.Answering.{Advances, Goes, IsAnswered, is_low};
ghost use Rattle.vm_world.specs.Worlds.{Runs, world_with};

use crate::burst::run_burst;
use decoded_words::DecodedWords;
use flat_guest::{Layout, place};
use guest_memory::{PAGE_SIZE, RAM_START};
use guest_pages::PageSet;
use hart_rv64::Hart;
use line_board::Board;
use mmio_port::Port;
use rv_doing::{HartOp, HartReply};
use rv_rows::Width;
use vm_types::{ActorId, BoardOp, Op, Place, PlaceId, Reply};

#[inline]
fn read(pages: &PageSet, at: u64, width: Width) -> HartReply
    ensures { (actor : ActorId) → reply_of result ≡ (served pages.now.pages actor (read_of width at)).0 }
{
    match pages.read_word(at, width) {
        Some(word) => HartReply::Bytes { word, width },
        None => HartReply::Fault,
    }
}

fn is_low(op: HartOp) -> bool
    ensures { result ≡ is_low op }
{
    match op {
        HartOp::Fetch { pc } => pc < RAM_START,
        HartOp::Read { at, .. } | HartOp::Write { at, .. } => at < RAM_START,
        _ => false,
    }
}

/// What the port of this number answers; one that isn't there does as nothing in the machine does.
pub fn act_on_port(ports: &mut Vec<Port>, number: u8, actor: ActorId, op: &Op) -> Reply
    ensures reply { result ≡ port_reply (slice_get ports.old.items number) actor op.now }
    ensures ports { ports.new.items ≡ port_after (slice_get ports.old.items number) ports.old.items number actor op.now }
{
    let number = number as usize;
    if number < ports.len() {
        ports[number].act(actor, op)
    } else {
        Reply::AccessFault
    }
}

// What an act is answered by its place, or where it has none.
#[tactic(auto, using(guest_pages::proofs::Making::no_spends, guest_pages::proofs::Making::room_ready))]
fn act(
    pages: &mut PageSet,
    board: &mut Board,
    ports: &mut Vec<Port>,
    actor: ActorId,
    op: &Op,
) -> Reply
    requires small { length pages.old.pages ≤ 2 ^ 28 }
    requires few { length ports.old.items ≤ 16 }
    requires room { HasRoom 1 pages.old }
    ensures answered { IsAnswered pages.old.pages board.old ports.old.items actor op.now result pages.new.pages board.new ports.new.items }
    ensures spends { Spends 1 pages.old pages.new }
{
    let there = Layout {
        memory_size: PAGE_SIZE * pages.len(),
        ports: ports.len() as u8,
    };
    match place(there, op) {
        PlaceId::Page(number) => pages.act(number as usize, actor, op),
        PlaceId::Board => board.act(actor, op),
        PlaceId::Port(number) => act_on_port(ports, number, actor, op),
        PlaceId::Out => match op {
            Op::Idle => Reply::Done,
            _ => Reply::AccessFault,
        },
    }
}

// An act that is rare, by its whole op and reply.
#[inline(never)]
fn answer_rare(
    pages: &mut PageSet,
    board: &mut Board,
    ports: &mut Vec<Port>,
    actor: ActorId,
    op: HartOp,
) -> HartReply
    requires small { length pages.old.pages ≤ 2 ^ 28 }
    requires few { length ports.old.items ≤ 16 }
    requires own { is_hart_op (op_of op) ≡ true }
    requires room { HasRoom 1 pages.old }
    ensures answered { IsAnswered pages.old.pages board.old ports.old.items actor (op_of op) (reply_of result) pages.new.pages board.new ports.new.items }
    ensures spends { Spends 1 pages.old pages.new }
{
    let reply = act(pages, board, ports, actor, &op.op());
    match HartReply::of(&reply) {
        Some(small) => small,
        None => HartReply::Fault,
    }
}

#[tactic(auto, using(guest_pages::proofs::Making::no_spends, guest_pages::proofs::Making::room_ready))]
#[inline]
fn answer(
    pages: &mut PageSet,
    board: &mut Board,
    ports: &mut Vec<Port>,
    actor: ActorId,
    op: HartOp,
) -> HartReply
    requires small { length pages.old.pages ≤ 2 ^ 28 }
    requires few { length ports.old.items ≤ 16 }
    requires own { is_hart_op (op_of op) ≡ true }
    requires room { HasRoom 1 pages.old }
    ensures answered { IsAnswered pages.old.pages board.old ports.old.items actor (op_of op) (reply_of result) pages.new.pages board.new ports.new.items }
    ensures spends { Spends 1 pages.old pages.new }
{
    if is_low(op) {
        return answer_rare(pages, board, ports, actor, op);
    }
    match op {
        HartOp::Fetch { pc } => read(pages, pc, Width::Word),
        HartOp::Read { at, width } => read(pages, at, width),
        HartOp::Write { at, word, width } => {
            if pages.write_word(actor, at, word, width) {
                HartReply::Done
            } else {
                HartReply::Fault
            }
        }
        HartOp::Board(BoardOp::Look) => HartReply::Shown(board.show(actor)),
        HartOp::Idle => HartReply::Done,
        _ => answer_rare(pages, board, ports, actor, op),
    }
}

// The next event of the hart of this number.
#[inline(never)]
fn advance(
    pages: &mut PageSet,
    board: &mut Board,
    ports: &mut Vec<Port>,
    hart: &mut Hart,
    number: u8,
)
    requires small { length pages.old.pages ≤ 2 ^ 28 }
    requires few { length ports.old.items ≤ 16 }
    requires room { HasRoom 1 pages.old }
    ensures event { Advances pages.old.pages board.old ports.old.items hart.old (ActorId.Hart number)
        pages.new.pages board.new ports.new.items hart.new }
    ensures count { length pages.new.pages ≡ length pages.old.pages }
    ensures many { length ports.new.items ≡ length ports.old.items }
    ensures spends { Spends 1 pages.old pages.new }
{
    let reply = answer(pages, board, ports, ActorId::Hart(number), hart.asks());
    hart.goes_on(reply);
}

/// Events of the hart of this number, and how many there were. They take no memory but spare pages. Whatever the timer, the other harts and the devices are, they
/// stay. Words that are kept decoded change nothing but how long it takes.
#[inline(never)]
pub fn run_hart(
    pages: &mut PageSet,
    board: &mut Board,
    ports: &mut Vec<Port>,
    hart: &mut Hart,
    words: &mut DecodedWords,
    number: u8,
    count: u64,
) -> u64
    requires small { length pages.old.pages ≤ 2 ^ 28 }
    requires few { length ports.old.items ≤ 16 }
    requires room { HasRoom count pages.old }
    ensures runs { (timer : Timer) (harts : List HartValue) (devices : List Device) →
        slice_get harts number ≡ Some hart.old →
        Runs (world_with pages.old.pages board.old ports.old.items timer harts devices) (ActorId.Hart number) count result
        (world_with pages.new.pages board.new ports.new.items timer (slice_set harts number hart.new) devices) }
    ensures count { length pages.new.pages ≡ length pages.old.pages }
    ensures many { length ports.new.items ≡ length ports.old.items }
    ensures spends { Spends result pages.old pages.new }
{
    let mut made = 0;
    if board.is_off() {
        return made;
    }
    while made < count {
        made += run_burst(pages, hart, words, number, count - made);
        if made < count {
            advance(pages, board, ports, hart, number);
            made += 1;
            if board.is_off() {
                return made;
            }
        }
    }
    made
}
