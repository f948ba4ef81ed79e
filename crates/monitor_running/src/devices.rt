// Between turns: the devices act, one after another.
ghost use Rattle.std.specs.Prelude.{
  ℕ,
  ◌≡◌,
  ◌+◌,
  ◌<◌,
  ◌≤◌,
  ◌↔◌,
  true,
  [],
  All,
  IfOk,
  IsOk,
  IsOkAnd,
  OnErr,
  length,
  vec_capacity,
  vec_len,
};
ghost use Rattle.vm_types.specs.declared.op.Op.TheVariants.{Idle};
ghost use Rattle.port_table.specs.Window.{most_ports};
ghost use Rattle.flat_guest.specs.Guest.{Guest};
ghost use Rattle.vm_world.specs.Worlds.{IsWorld, WorldValue};
ghost use Rattle.slice_runner.specs.Slices.{IsSerial};
ghost use Rattle.monitor_machine.specs.Kinds.{DevicesKnown};
ghost use Rattle.monitor_running.specs.Devices.{HaveActed, IsDevices, WereAsked};
ghost use Rattle.monitor_running.specs.Objects.{with_devices};

use crate::asking::ask_host;
use crate::objects::TurnObjects;
use port_table::MOST_DEVICES;
use slice_runner::Devices;
use std::alloc::{AllocError, Global};
use vm_host::Disk;
use vm_types::{ActorId, Entry, Op};
use vm_world::World;

/// There is room for so many pages at least, before the devices act, that they make.
const ROOM: u64 = 256;

fn is_wait(op: &Op) -> bool
    ensures { (result ≡ true) ↔ (op.now ≡ Idle) }
{
    matches!(op, Op::Idle)
}

// The next event of a device, which is given its host object's answer where it asks for that. Whether one was made, and no wait.
fn step_device<W: TurnObjects>(
    world: &mut World,
    device: u8,
    with: &mut W,
    events: &mut Vec<Entry>,
) -> bool
    requires { vec_len events.old + 1 ≤ vec_capacity events.old }
    ensures acted { (first : WorldValue) (asked : DevicesKnown) → device < most_ports →
        HaveActed events.old.items first world.old asked (W.known with.old).host.devices →
        HaveActed events.new.items first world.new asked (W.known with.new).host.devices }
    ensures beside { W.known with.new ≡ with_devices (W.known with.old) (W.known with.new).host.devices }
    ensures room { vec_capacity events.new ≡ vec_capacity events.old }
    ensures most { vec_len events.new ≤ vec_len events.old + 1 }
{
    let actor = ActorId::Device(device);
    let Some(op) = world.want(actor) else {
        return false;
    };
    let waits = is_wait(&op);
    let given = ask_host(with, device, &op);
    match world.step_with(actor, op, given) {
        Ok(entry) => {
            events.push_reserved(entry);
            !waits
        }
        Err(_) => false,
    }
}

// Events of a device, until it has waited or so many are made.
fn run_device<W: TurnObjects>(
    world: &mut World,
    device: u8,
    with: &mut W,
    most: u32,
    events: &mut Vec<Entry>,
)
    requires { vec_len events.old + most ≤ vec_capacity events.old }
    ensures acted { (first : WorldValue) (asked : DevicesKnown) → device < most_ports →
        HaveActed events.old.items first world.old asked (W.known with.old).host.devices →
        HaveActed events.new.items first world.new asked (W.known with.new).host.devices }
    ensures beside { W.known with.new ≡ with_devices (W.known with.old) (W.known with.new).host.devices }
    ensures room { vec_capacity events.new ≡ vec_capacity events.old }
    ensures most { vec_len events.new ≤ vec_len events.old + most }
{
    for _made in 0..most {
        if !step_device(world, device, with, events) {
            return;
        }
    }
}

// Room for pages that so many devices make.
fn make_room(alloc: Global, world: &mut World, devices: usize) -> Result<(), AllocError>
    ensures ok { world.new ≡ record world.old { spare = world.new.spare } }
    ensures none { devices ≡ 0 → IsOk result }
    ensures err { OnErr result (world.new ≡ world.old) }
{
    if devices == 0 {
        return Ok(());
    }
    world.reserve(alloc, ROOM)?;
    Ok(())
}

fn settle_disks<W: TurnObjects>(with: &mut W)
    ensures { W.known with.new ≡ W.known with.old }
{
    with.disk().settle();
}

/// The disks settle where devices acted in a slice.
pub fn settle_behind<W: TurnObjects>(with: &mut W, how: Devices)
    ensures { W.known with.new ≡ W.known with.old }
{
    match how {
        Devices::Act => settle_disks(with),
        Devices::Rest => {}
    }
}

/// Events of each device, in order of their numbers: of each until it has waited, which is made too, or `most` are made.
/// What a device asks of its disk, its link, its socket or its words is answered by that, `Failed` where the call fails. At the end the disks
/// settle. Room for all events is made first, and for pages that they make; where there is no device none is needed. Nothing is said of
/// how far a device gets: one that lacks a page goes on in the next turn.
///
/// Errors: want of memory, which leaves everything as it was.
pub fn run_devices<W: TurnObjects>(
    alloc: Global,
    world: &mut World,
    with: &mut W,
    most: u32,
) -> Result<Vec<Entry>, AllocError>
    ensures gone { IfOk result (λ events. IsSerial world.old events.items world.new) }
    ensures made { IfOk result (λ events. (g : Guest) → IsWorld world.old g → All IsDevices events.items) }
    ensures asked { IfOk result (λ events. (g : Guest) → IsWorld world.old g →
        WereAsked (W.known with.old).host.devices events.items (W.known with.new).host.devices) }
    ensures none { world.old.devices ≡ [] → IsOkAnd result (λ events. events.items ≡ []) }
    ensures beside { W.known with.new ≡ with_devices (W.known with.old) (W.known with.new).host.devices }
    ensures world { OnErr result (world.new ≡ world.old) }
    ensures unasked { OnErr result ((W.known with.new).host.devices ≡ (W.known with.old).host.devices) }
{
    let devices = world.devices().len().min(MOST_DEVICES);
    let mut events = Vec::with_capacity(alloc, devices * most as usize)?;
    make_room(alloc, world, devices)?;
    for number in 0..devices {
        run_device(world, number as u8, with, most, &mut events);
    }
    settle_disks(with);
    Ok(events)
}
