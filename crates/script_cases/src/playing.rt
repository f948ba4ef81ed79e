// A trace that writes down what it takes, and the machine that this is played on.
ghost use Rattle.std.specs.Prelude.{◌≡◌, MatchBool};
ghost use Rattle.vm_types.specs.Causes.{IsCounted};

use crate::sessions::files_with;
use http_stream::Asked;
use monitor_machine::LiveMachine;
use outside_mem::{Failing, MemoryFiles};
use pause_gate::{Gate, HoldGate};
use responses::ResponseForm;
use script_text::{HostReply, Item, LineReader, Next, write_item};
use serve_host::{Trace, event_item};
use std::alloc::{AllocError, Global};
use vm_outside::Failed;
use vm_types::{ActorId, ByteList, Entry, PlaceId, TextList};
use vm_world::World;

/// Who decides a meeting with itself.
pub const NOBODY: ActorId = ActorId::Device(0);

const ONE_HART: &str = "{\"vcpu_count\":1,\"mem_size_mib\":4}";

const TWO_HARTS: &str = "{\"vcpu_count\":2,\"mem_size_mib\":4}";

const BOOT_SOURCE: &str = "{\"kernel_image_path\":\"image\"}";

/// An entropy device, which waits for what its driver asks.
const ENTROPY: &str = "{}";

const INSTANCE_START: &str = "{\"action_type\":\"InstanceStart\"}";

/// Writes down each item. After so many items it decides a meeting with itself, if the gate waits for one: then the gate is
/// closed to whoever asks. It may fail to take items.
#[derive(Drop)]
pub struct Player<'a> {
    alloc: Global,
    told: ByteList,
    moments: u64,
    taken: u64,
    is_mixed: bool,
    left: u64,
    gate: &'a HoldGate,
    failing: Failing,
    consoles_alone: bool,
}

impl<'a> Player<'a> {
    /// Of all items, or of the console's alone, those of these numbers fail.
    pub fn new(
        alloc: Global,
        left: u64,
        gate: &'a HoldGate,
        failing: Failing,
        consoles_alone: bool,
    ) -> Player<'a> {
        Player {
            alloc,
            told: ByteList::new(alloc),
            moments: 0,
            taken: 0,
            is_mixed: false,
            left,
            gate,
            failing,
            consoles_alone,
        }
    }

    /// The script of the items that it took.
    pub fn told(&self) -> &[u8] {
        self.told.as_slice()
    }

    /// How many moments of the clock it took.
    pub fn moments(&self) -> u64 {
        self.moments
    }

    /// How many items it took.
    pub fn taken(&self) -> u64 {
        self.taken
    }

    /// Whether events of harts and of a device were told together.
    pub fn is_mixed(&self) -> bool {
        self.is_mixed
    }

    // Whether this item is the next that is to fail.
    fn fails_at(&mut self, item: &Item) -> bool
        ensures { MatchBool result (IsCounted self.old.failing self.new.failing) (self.new.failing ≡ self.old.failing) }
    {
        (matches!(item, Item::Console) || !self.consoles_alone) && self.failing.fails()
    }
}

fn is_of_hart(event: &Entry) -> bool {
    matches!(event.actor, ActorId::Hart(_))
}

fn is_of_device(event: &Entry) -> bool {
    matches!(event.actor, ActorId::Device(_))
}

fn is_moment(item: &Item) -> bool {
    match item {
        Item::Reply { reply, .. } => matches!(reply, HostReply::Now { .. }),
        _ => false,
    }
}

// The line that the machine answers.
fn play(machine: &mut LiveMachine, item: &Item) -> Result<ByteList, AllocError> {
    match item {
        Item::Step { actor, count } => machine.step(*actor, *count),
        Item::Reply { actor, reply } => machine.reply(*actor, reply),
        _ => machine.take_console(),
    }
}

fn play_into(
    machine: &mut LiveMachine,
    item: &Item,
    answered: &mut ByteList,
) -> Result<(), AllocError> {
    let line = play(machine, item)?;
    answered.append(line.as_slice())
}

/// Plays a script on the machine, and gives the lines that it answers.
pub fn play_all(
    alloc: Global,
    machine: &mut LiveMachine,
    script: &[u8],
) -> Result<ByteList, AllocError> {
    let mut answered = ByteList::new(alloc);
    let mut reader = LineReader::new(alloc);
    reader.feed(script)?;
    for _line in 0..script.len() {
        match reader.next()? {
            Next::Line(item) => play_into(machine, &item, &mut answered)?,
            _ => return Ok(answered),
        }
    }
    Ok(answered)
}

fn write_into(alloc: Global, item: &Item, told: &mut ByteList) -> Result<(), AllocError> {
    let line = write_item(alloc, item)?;
    told.append(line.as_slice())
}

impl Trace for Player<'_> {
    ghost use Rattle.std.specs.Prelude.{false, [], None};

    ghost known = { λ t. record {
      health = record { tells = false; faults = t.failing };
      path = None;
      took = [];
      kept = [];
    } };

    fn open(&mut self, _path: &str) -> Result<(), Failed> {
        Ok(())
    }

    fn add(&mut self, item: &Item) -> Result<(), Failed> {
        if self.fails_at(item) {
            return Err(Failed);
        }
        if write_into(self.alloc, item, &mut self.told).is_err() {
            self.failing.count();
            return Err(Failed);
        }
        if is_moment(item) {
            self.moments = self.moments.wrapping_add(1);
        }
        self.taken = self.taken.wrapping_add(1);
        self.left = self.left.saturating_sub(1);
        if self.left == 0 {
            self.gate.inside(NOBODY, PlaceId::Out);
        }
        Ok(())
    }

    fn add_steps(&mut self, actor: ActorId, count: u64) -> Result<(), Failed> {
        for _taken in 0..count {
            self.add(&Item::Step { actor, count: 1 })?;
        }
        Ok(())
    }

    fn add_events(&mut self, events: &[Entry]) -> Result<(), Failed> {
        if events.iter().any(is_of_hart) && events.iter().any(is_of_device) {
            self.is_mixed = true;
        }
        for event in events {
            let Ok(item) = event_item(self.alloc, event) else {
                self.failing.count();
                return Err(Failed);
            };
            self.add(&item)?;
        }
        Ok(())
    }

    fn finish(&mut self) -> Result<(), Failed> {
        Ok(())
    }
}

// A PUT of this body.
fn put<'b>(path: &'b str, body: &'b str) -> Asked<'b> {
    Asked {
        method: "PUT",
        path,
        front: &[],
        headers: &[],
        body: body.as_bytes(),
    }
}

// The machine is asked for that, whatever it answers.
fn ask(
    alloc: Global,
    machine: &mut LiveMachine,
    files: &mut MemoryFiles,
    path: &str,
    body: &str,
) -> Result<(), AllocError> {
    let request = put(path, body);
    let mut text = ByteList::new(alloc);
    machine.answer_request(ResponseForm::Line, &request, files, &mut text)?;
    Ok(())
}

fn start(
    alloc: Global,
    machine: &mut LiveMachine,
    image: &[u8],
    harts: &str,
    has_device: bool,
) -> Result<(), AllocError> {
    let mut files = files_with(alloc, "image", image)?;
    ask(alloc, machine, &mut files, "/machine-config", harts)?;
    ask(alloc, machine, &mut files, "/boot-source", BOOT_SOURCE)?;
    if has_device {
        ask(alloc, machine, &mut files, "/entropy", ENTROPY)?;
    }
    ask(alloc, machine, &mut files, "/actions", INSTANCE_START)
}

/// A machine of 4 MiB that begins with this image, of which hart 0 has made so many steps. It is alone, or there are two. There is an
/// entropy device or none.
pub fn machine_of(
    alloc: Global,
    is_alone: bool,
    has_device: bool,
    image: &[u8],
    made: u64,
) -> Result<LiveMachine, AllocError> {
    let harts = if is_alone { ONE_HART } else { TWO_HARTS };
    let mut machine = LiveMachine::new(alloc, TextList::copy_of(alloc, "harts")?);
    start(alloc, &mut machine, image, harts, has_device)?;
    machine.step(ActorId::Hart(0), made)?;
    Ok(machine)
}

/// Whether both have the same registers, the same memory and the same console. Where a guest is off its registers may differ:
/// the slice goes on for the other actors behind that, and a step that is played doesn't.
pub fn are_alike(one: &World, other: &World) -> bool {
    one.is_off() == other.is_off()
        && (one.is_off() || have_same_registers(one, other))
        && have_same_memory(one, other)
        && one.console() == other.console()
}

fn have_same_registers(one: &World, other: &World) -> bool {
    for hart in 0..2 {
        for number in 0..33 {
            if one.reg(hart, number) != other.reg(hart, number) {
                return false;
            }
        }
    }
    true
}

fn have_same_memory(one: &World, other: &World) -> bool {
    let mut bytes = [0; 4096];
    let mut others = [0; 4096];
    for page in 0..1024 {
        let at = 0x8000_0000 + 4096 * page;
        if one.read_memory(at, &mut bytes).is_err() || other.read_memory(at, &mut others).is_err() {
            return false;
        }
        if bytes != others {
            return false;
        }
    }
    true
}

/// The doubleword there, if it is memory.
pub fn word_at(world: &World, address: u64) -> Option<u64> {
    let mut word = [0; 8];
    match world.read_memory(address, &mut word) {
        Ok(()) => Some(u64::from_le_bytes(word)),
        Err(_) => None,
    }
}
