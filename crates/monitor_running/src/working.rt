// Whether devices have something to do.
ghost use Rattle.std.specs.Prelude.{◌≡◌, ◌↔◌, true, slice_get};
ghost use Rattle.std.specs.List.{list_any};
ghost use Rattle.monitor_running.specs.Working.{HasWork, is_called, is_called_at, works_in};

use mmio_port::Port;
use port_table::{MOST_DEVICES, PortQueue};
use vm_types::{ActorId, Op, PortOp};
use vm_world::World;

/// Whether a device has something to do: one that is in the middle of it, or one whose port has a kick or a reset that its next look
/// finds.
pub fn device_works(world: &World) -> bool
    ensures { (result ≡ true) ↔ HasWork world.now }
{
    for number in 0..world.devices().len().min(MOST_DEVICES) {
        if works(world, number as u8) {
            return true;
        }
    }
    false
}

// One that waits, or looks at its port, has only what is there.
fn works(world: &World, device: u8) -> bool
    ensures { result ≡ works_in world.now device }
{
    match world.want(ActorId::Device(device)) {
        None => false,
        Some(Op::Idle) => is_called_at(world.ports(), device),
        Some(
            Op::Port {
                act: PortOp::Look,
                ..
            },
        ) => is_called_at(world.ports(), device),
        Some(_) => true,
    }
}

fn is_called_at(ports: &[Port], device: u8) -> bool
    ensures { result ≡ is_called_at (slice_get ports.now device) }
{
    match ports.get(device as usize) {
        Some(port) => is_called(port),
        None => false,
    }
}

fn is_called(port: &Port) -> bool
    ensures { result ≡ is_called port.now }
{
    let state = port.state();
    state.is_reset_asked || has_kick(&state.queues)
}

fn has_kick(queues: &[PortQueue]) -> bool
    ensures { result ≡ list_any (λ queue. queue.is_kicked) queues.now }
{
    queues.iter().any(|queue| queue.is_kicked)
}
