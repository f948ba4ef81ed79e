// A trace in a file, a disk in a file, random words and the system's clock.
use crate::devices::show_part;
use crate::lists::{added, two_events};
use crate::showing::{Shown, alike, part_of, text_of};
use host_real::{Bell, DiskFiles, RandomWords, SystemClock, TraceFile};
use script_text::Item;
use serve_host::{Trace, Words};
use std::{fs, io};
use vm_host::{Clock, Disk, GuestWords};
use vm_outside::Failed;
use vm_types::ActorId;

pub fn show(rt: &HostRuntime, shown: &mut Shown) -> io::Result<()> {
    show_trace(rt, shown)?;
    show_next(rt, &mut TraceFile::new(rt), shown)?;
    show_full(&mut TraceFile::new(rt), shown);
    show_steps(rt, &mut TraceFile::new(rt), shown)?;
    show_events(rt, &mut TraceFile::new(rt), shown)?;
    fs::remove_file(rt, "trace")?;
    show_disks(rt, shown)?;
    show_words(&mut RandomWords::new(rt), shown);
    shown.show("system clock: later", &is_later(rt));
    Ok(())
}

fn show_trace(rt: &HostRuntime, shown: &mut Shown) -> io::Result<()> {
    let mut trace = TraceFile::new(rt);
    show_added(&mut trace, shown);
    let held = show_lines(rt, shown);
    drop(trace);
    held?;
    show_lines(rt, shown)
}

fn show_added(trace: &mut TraceFile<'_, HostRuntime>, shown: &mut Shown) {
    shown.show("trace file: add", &added(trace, Item::Console));
    shown.show("trace file: finish", &trace.finish());
    shown.show("trace file: open", &trace.open("trace"));
    shown.show("trace file: add", &added(trace, Item::Connect));
    let last = added(trace, step());
    shown.show("trace file: add, failed", &(last, trace.faults()));
}

fn step() -> Item {
    Item::Step {
        actor: ActorId::Timer,
        count: 2,
    }
}

// Steps that are told at once have the lines of steps that are told one by one.
fn show_steps(
    rt: &HostRuntime,
    trace: &mut TraceFile<'_, HostRuntime>,
    shown: &mut Shown,
) -> io::Result<()> {
    shown.show(
        "unopened trace: add steps",
        &trace.add_steps(ActorId::Hart(3), 1),
    );
    let at_once = steps_file(rt, trace, true, shown)?;
    let one_by_one = steps_file(rt, trace, false, shown)?;
    shown.show("trace of steps: bytes", &at_once.len());
    shown.show("trace of steps: alike", &(at_once == one_by_one));
    Ok(())
}

fn steps_file(
    rt: &HostRuntime,
    trace: &mut TraceFile<'_, HostRuntime>,
    at_once: bool,
    shown: &mut Shown,
) -> io::Result<Vec<u8>> {
    shown.show("trace of steps: open", &trace.open("trace"));
    let told = if at_once {
        trace.add_steps(ActorId::Hart(3), 7000)
    } else {
        one_by_one(trace)
    };
    shown.show("trace of steps: add, finish", &(told, trace.finish()));
    fs::read(rt, "trace")
}

// Nothing where the trace was not opened, and else the line of each event.
fn show_events(
    rt: &HostRuntime,
    trace: &mut TraceFile<'_, HostRuntime>,
    shown: &mut Shown,
) -> io::Result<()> {
    let unopened = trace.add_events(&two_events());
    shown.show(
        "trace of events: add, open",
        &(unopened, trace.open("trace")),
    );
    let told = trace.add_events(&two_events());
    shown.show("trace of events: add, finish", &(told, trace.finish()));
    show_lines(rt, shown)
}

fn one_by_one(trace: &mut TraceFile<'_, HostRuntime>) -> Result<(), Failed> {
    for _step in 0..7000 {
        trace.add(&Item::Step {
            actor: ActorId::Hart(3),
            count: 1,
        })?;
    }
    Ok(())
}

// A line is held back; it is written where the trace is finished, and where another one is opened.
fn show_next(
    rt: &HostRuntime,
    trace: &mut TraceFile<'_, HostRuntime>,
    shown: &mut Shown,
) -> io::Result<()> {
    shown.show("next trace: open", &trace.open("trace"));
    shown.show("next trace: add", &added(trace, step()));
    shown.show("next trace: finish", &trace.finish());
    show_lines(rt, shown)?;
    shown.show("next trace: add", &added(trace, step()));
    shown.show("next trace: open", &trace.open("/dev/null"));
    show_lines(rt, shown)
}

// What can't be written is told once, and isn't tried again.
fn show_full(trace: &mut TraceFile<'_, HostRuntime>, shown: &mut Shown) {
    shown.show("trace on a full disk: open", &trace.open("/dev/full"));
    show_full_add(trace, step(), shown);
    show_finished(trace, shown);
    show_finished(trace, shown);
    show_full_add(trace, step(), shown);
    show_full_add(trace, Item::Console, shown);
    show_finished(trace, shown);
    show_full_add(trace, step(), shown);
    shown.show("trace on a full disk: open", &trace.open("trace"));
    show_finished(trace, shown);
}

fn show_full_add(trace: &mut TraceFile<'_, HostRuntime>, item: Item, shown: &mut Shown) {
    shown.show("trace on a full disk: add", &added(trace, item));
}

fn show_finished(trace: &mut TraceFile<'_, HostRuntime>, shown: &mut Shown) {
    let done = trace.finish();
    shown.show(
        "trace on a full disk: finish, failed",
        &(done, trace.faults()),
    );
}

fn show_lines(rt: &HostRuntime, shown: &mut Shown) -> io::Result<()> {
    let lines = fs::read(rt, "trace")?;
    shown.show("trace file: holds", &text_of(&lines));
    Ok(())
}

fn show_disks(rt: &HostRuntime, shown: &mut Shown) -> io::Result<()> {
    fs::write(rt, "disk", [7; 1024].as_slice())?;
    show_disk(&mut DiskFiles::new(rt), shown);
    show_attached(&mut DiskFiles::new(rt), shown);
    show_written(rt, shown)?;
    fs::remove_file(rt, "disk")
}

fn show_disk(disk: &mut DiskFiles<'_, HostRuntime>, shown: &mut Shown) {
    show_part("disk file: read (3, 0, 0)", disk, (3, 0, 0), shown);
    disk.attach(3, "disk");
    shown.show("disk file: write", &disk.write(3, 1, 2, &[9; 64]));
    shown.show("disk file: flush", &disk.flush(3));
    for part in [(3, 1, 1), (3, 1, 2), (3, 2, 0), (4, 0, 0), (3, u64::MAX, 7)] {
        shown.text("disk file: read ");
        shown.value(&part);
        show_part("", disk, part, shown);
    }
    shown.show("disk file: failed", &disk.faults());
}

// The same name again, one of no file, and the first again.
fn show_attached(disk: &mut DiskFiles<'_, HostRuntime>, shown: &mut Shown) {
    for name in ["disk", "disk", "none", "disk", ""] {
        shown.text("disk file: attached ");
        shown.value(&name);
        disk.attach(2, name);
        shown.show("", &part_of(disk.read(2, 1, 2)));
    }
}

fn show_written(rt: &HostRuntime, shown: &mut Shown) -> io::Result<()> {
    let bytes = fs::read(rt, "disk")?;
    let part = bytes.get(640..704).unwrap_or(&[]);
    shown.show("disk file: holds", &alike(part));
    Ok(())
}

fn show_words(words: &mut RandomWords<'_, HostRuntime>, shown: &mut Shown) {
    let is_other = words.next() != words.next();
    shown.show("random words: differ, failed", &(is_other, words.faults()));
    let is_own = words.word(0) != words.word(1);
    shown.show("guest words: differ, failed", &(is_own, words.faults()));
}

fn is_later(rt: &HostRuntime) -> bool {
    let bell = Bell::new(rt);
    let mut clock = SystemClock::new(rt, &bell);
    let before = clock.now();
    clock.rest(10_000_000_000);
    clock.now() > before
}
