// A trace, words, the words of entropy devices and a clock in memory.
use crate::showing::Shown;
use outside_mem::{
    Failing, MemoryClock, MemoryGuestWords, MemoryTrace, MemoryWords, Numbers, SteadyWords,
};
use script_text::Item;
use serve_host::{Trace, Words};
use std::alloc::{AllocError, Global};
use vm_host::{Clock, GuestWords};
use vm_outside::Failed;
use vm_types::{ActorId, ByteList, Entry, Op, OutOp, PlaceId, Reply};

pub fn show(alloc: Global, shown: &mut Shown) -> Result<(), AllocError> {
    let bytes = ByteList::copy_of(alloc, b"ab")?;
    show_trace(&mut trace(alloc)?, Item::Bytes { bytes }, shown);
    show_steps(&mut steps_trace(alloc)?, shown);
    shown.show("words: three", &three_words(alloc)?);
    shown.show("steady words: two", &two_words(alloc)?);
    shown.show("guest words: five", &five_words(alloc)?);
    let mut clock = MemoryClock::new(Numbers::new(Vec::new(alloc)));
    shown.show("clock: now", &clock.now());
    Ok(())
}

// The second call fails, the second finish, and the third open.
fn trace(alloc: Global) -> Result<MemoryTrace, AllocError> {
    let calls = [1, 5, 8].to_vec(alloc)?;
    Ok(MemoryTrace::new(alloc, Failing::new(calls)))
}

fn show_trace(trace: &mut MemoryTrace, bytes: Item, shown: &mut Shown) {
    show_open(trace, "t", shown);
    shown.show("trace: add", &added(trace, Item::Console));
    shown.show("trace: add", &added(trace, bytes));
    show_taken(trace, shown);
    shown.show("trace: finish", &trace.finish());
    show_taken(trace, shown);
    shown.show("trace: add", &added(trace, Item::Console));
    shown.show("trace: finish", &trace.finish());
    show_taken(trace, shown);
    show_open(trace, "u", shown);
    show_taken(trace, shown);
    shown.show("trace: add", &added(trace, Item::Console));
    show_open(trace, "v", shown);
    show_taken(trace, shown);
}

// The path before, what the open answers, and the path behind it.
fn show_open(trace: &mut MemoryTrace, path: &str, shown: &mut Shown) {
    shown.show("trace: path", &trace.path());
    shown.show("trace: open", &trace.open(path));
    shown.show("trace: path", &trace.path());
}

// The second of the three last steps fails.
fn steps_trace(alloc: Global) -> Result<MemoryTrace, AllocError> {
    let calls = [3].to_vec(alloc)?;
    Ok(MemoryTrace::new(alloc, Failing::new(calls)))
}

fn show_steps(trace: &mut MemoryTrace, shown: &mut Shown) {
    shown.show("trace: add 2 steps", &trace.add_steps(ActorId::Hart(1), 2));
    show_taken(trace, shown);
    shown.show("trace: add 3 steps", &trace.add_steps(ActorId::Hart(1), 3));
    show_taken(trace, shown);
    let steps = trace.took().iter().filter(|item| is_step(item)).count();
    shown.show("trace: steps of hart 1", &steps);
    shown.show("trace: add 2 events", &trace.add_events(&two_events()));
    show_taken(trace, shown);
}

/// The clock's answer to the timer, and a wait of a hart.
pub fn two_events() -> [Entry; 2] {
    let asked = event_of(ActorId::Timer, Op::Out(OutOp::Clock), Reply::Word(7));
    let waited = event_of(ActorId::Hart(1), Op::Idle, Reply::Done);
    [asked, waited]
}

fn event_of(actor: ActorId, op: Op, reply: Reply) -> Entry {
    Entry {
        stamp: 0,
        before: 0,
        actor,
        place: PlaceId::Out,
        op,
        reply,
    }
}

fn is_step(item: &Item) -> bool {
    matches!(
        item,
        Item::Step {
            actor: ActorId::Hart(1),
            count: 1,
        }
    )
}

fn show_taken(trace: &MemoryTrace, shown: &mut Shown) {
    let counts = (trace.took().len(), trace.kept().len(), trace.faults());
    shown.show("trace: took, kept, failed", &counts);
}

/// What a trace answers to an item.
pub fn added<T: Trace>(trace: &mut T, item: Item) -> Result<(), Failed> {
    trace.add(&item)
}

// The first call fails.
fn three_words(alloc: Global) -> Result<[Result<u64, Failed>; 3], AllocError> {
    let calls = [0].to_vec(alloc)?;
    let numbers = Numbers::new([5, 6].to_vec(alloc)?);
    let mut words = MemoryWords::new(numbers, Failing::new(calls));
    Ok([words.next(), words.next(), words.next()])
}

fn two_words(alloc: Global) -> Result<[Result<u64, Failed>; 2], AllocError> {
    let mut words = SteadyWords::new(Numbers::new([7].to_vec(alloc)?));
    Ok([words.next(), words.next()])
}

// Of two devices; the first call fails, and the last names a third device.
fn five_words(alloc: Global) -> Result<[Result<u64, Failed>; 5], AllocError> {
    let calls = [0].to_vec(alloc)?;
    let mut devices = Vec::new(alloc);
    devices.push(Numbers::new([5, 6].to_vec(alloc)?))?;
    devices.push(Numbers::new([7].to_vec(alloc)?))?;
    let mut words = MemoryGuestWords::new(devices, Failing::new(calls));
    Ok([
        words.word(0),
        words.word(0),
        words.word(1),
        words.word(0),
        words.word(2),
    ])
}
