// Worlds of two harts, and a clock for their slices.
use boot_loader::Loads;
use guest_devices::{NewDevice, NewDrive};
use rate_gate::RateGate;
use std::alloc::Global;
use vm_host::Clock;
use vm_types::{Entry, Op, is_same_op, is_same_place, is_same_reply};
use vm_world::World;

/// A clock whose answers rise by 1,000.
#[derive(Drop)]
pub struct Ticks {
    moment: u64,
}

impl Clock for Ticks {
    ghost use Rattle.std.specs.Prelude.{false};

    ghost known = { λ clock. record { tells = false; left = λ n. 0 } };

    fn now(&mut self) -> u64 {
        self.moment = self.moment.wrapping_add(1000);
        self.moment
    }

    fn rest(&mut self, _most: u64) {}
}

pub fn clock() -> Ticks {
    Ticks { moment: 0 }
}

pub fn two_harts(alloc: Global, image: &[u8]) -> Option<World> {
    World::start(alloc, 2, 4, &loads_of(image), &[]).ok()
}

/// The same with drives of 3 and of 5 sectors.
pub fn two_drives(alloc: Global, image: &[u8]) -> Option<World> {
    World::start(alloc, 2, 4, &loads_of(image), &[drive(3), drive(5)]).ok()
}

fn loads_of(image: &[u8]) -> Loads<'_> {
    Loads {
        image,
        initrd: None,
        tree: &[],
    }
}

fn drive(sectors: u64) -> NewDevice {
    NewDevice::Block(NewDrive {
        drive_id: [0; 20],
        sectors,
        is_read_only: false,
        offers_flush: false,
        limits: RateGate::new(None, None),
    })
}

/// Whether each step, one after the other, is as its event says.
pub fn replays(world: &mut World, events: &[Entry]) -> bool {
    for event in events {
        if !is_made(world, event) {
            return false;
        }
    }
    true
}

fn is_made(world: &mut World, event: &Entry) -> bool {
    let given = match event.op {
        Op::Out(_) => Some(event.reply.again()),
        _ => None,
    };
    match world.step(event.actor, given) {
        Ok(entry) => {
            is_same_op(&entry.op, &event.op)
                && is_same_reply(&entry.reply, &event.reply)
                && is_same_place(entry.place, event.place)
        }
        Err(_) => false,
    }
}

/// The doubleword there, if it is memory.
pub fn word_at(world: &World, address: u64) -> Option<u64> {
    let mut word = [0; 8];
    match world.read_memory(address, &mut word) {
        Ok(()) => Some(u64::from_le_bytes(word)),
        Err(_) => None,
    }
}
