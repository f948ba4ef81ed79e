// What the API changes of a world, and the Reset that comes before a create.
ghost use Rattle.std.specs.Prelude.{◌≡◌, ◌≤◌, length, slice_get};
ghost use Rattle.guest_devices.specs.Kept.{AreReset, devices_left};
ghost use Rattle.guest_devices.specs.Kinds.{FitsChange};
ghost use Rattle.flat_guest.specs.Body.{lefts_told};
ghost use Rattle.flat_guest.specs.Changes.{board_shown, ports_shown, ports_with, reset_guest, told};
ghost use Rattle.flat_guest.specs.Guest.{Guest};
ghost use Rattle.vm_world.specs.Worlds.{IsWorld, IsWorldReset};

use super::World;
use guest_devices::{Device, DeviceChange};
use line_board::Board;
use mmio_port::Port;
use vm_types::{ActorId, BoardOp, Op, Place};

// The device of this number is told of a change, if it is there.
fn tell_device(devices: &mut Vec<Device>, number: u8, change: DeviceChange)
    ensures told { devices_left devices.new.items ≡ lefts_told
        (slice_get (devices_left devices.old.items) number) (devices_left devices.old.items) number change }
    ensures none { length devices.old.items ≤ number → devices.new.items ≡ devices.old.items }
{
    let number = number as usize;
    if number < devices.len() {
        devices[number].change(change);
    }
}

// The port of this number shows these bytes as its configuration, if it is there.
fn show_bytes(ports: &mut Vec<Port>, number: u8, bytes: &[u8])
    ensures { ports.new.items ≡ ports_shown (slice_get ports.old.items number) ports.old.items number bytes.now }
{
    let number = number as usize;
    if number < ports.len() {
        ports[number].configure(bytes);
    }
}

// It shows them if there are any, and then the driver is told by the device's line.
fn show(ports: &mut Vec<Port>, board: &mut Board, number: u8, shown: Option<[u8; 8]>)
    ensures ports { ports.new.items ≡ ports_with shown ports.old.items number }
    ensures board { board.new ≡ board_shown shown board.old number }
{
    if let Some(bytes) = shown {
        show_bytes(ports, number, &bytes);
        board.act(ActorId::Device(number), &Op::Board(BoardOp::RaiseLine));
    }
}

// Each device is reset.
fn reset_all(devices: &mut [Device])
    ensures { AreReset devices.old devices.new }
{
    for device in devices.iter_mut() {
        device.reset();
    }
}

impl World {
    /// Each device is told of the Reset that comes before a create. It is no event, and leaves the marks of pages.
    pub fn reset(&mut self)
        ensures reset { IsWorldReset self.old self.new }
        ensures guest { (g : Guest) → IsWorld self.old g → IsWorld self.new (reset_guest g) }
    {
        reset_all(&mut self.devices);
    }

    /// The device of this number is told of a change, if it is of the kind that is changed so. Its port shows these bytes from now
    /// on, if there are any, and then the driver is told by the device's line. It is no event. Where there is no such device, only
    /// that line is raised, if the board has it.
    pub fn change(&mut self, device: u8, change: DeviceChange, shown: Option<[u8; 8]>)
        requires { FitsChange change }
        ensures guest { (g : Guest) → IsWorld self.old g → IsWorld self.new (told device change shown g) }
        ensures value { self.new ≡ record self.old {
          board = board_shown shown self.old.board device;
          ports = ports_with shown self.old.ports device;
          devices = self.new.devices;
        } }
        ensures devices { devices_left self.new.devices ≡ lefts_told
            (slice_get (devices_left self.old.devices) device) (devices_left self.old.devices) device change }
        ensures none { length self.old.devices ≤ device → self.new.devices ≡ self.old.devices }
    {
        tell_device(&mut self.devices, device, change);
        show(&mut self.ports, &mut self.board, device, shown);
    }
}
