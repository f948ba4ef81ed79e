// The queues of a port, by their numbers.
ghost use Rattle.std.specs.Prelude.{◌≡◌, map};
ghost use Rattle.port_table.specs.Acts as acts;
ghost use Rattle.port_table.specs.Ports as ports;
ghost use Rattle.port_table.specs.Registers as registers;

use port_table::{PortQueue, PortState};
use vm_types::QueueShown;

/// A queue that the driver hasn't set up.
pub fn new_queue() -> PortQueue
    ensures { result ≡ ports.new_queue }
{
    PortQueue {
        descriptors: 0,
        available: 0,
        used: 0,
        size: 0,
        ready: 0,
        is_kicked: false,
    }
}

/// Whether the queue of this number is one of the device's.
pub fn is_queue(state: &PortState, number: u32) -> bool
    ensures { result ≡ ports.is_queue state.now number }
{
    number < state.kind.queue_count()
}

/// The queue of this number has buffers for the device.
pub fn notify(state: &mut PortState, number: u32)
    ensures { state.new ≡ registers.notified state.old number }
{
    if is_queue(state, number) {
        state.queues[number as usize].is_kicked = true;
    }
}

/// What a look shows of the queue of this number.
pub fn queue_shown(queue: &PortQueue) -> QueueShown
    ensures { result ≡ acts.queue_shown queue.now }
{
    QueueShown {
        descriptors: queue.descriptors,
        available: queue.available,
        used: queue.used,
        size: queue.size.min(0xffff) as u16,
        is_ready: queue.ready == 1,
        is_kicked: queue.is_kicked,
    }
}

fn take_all(queues: &mut [PortQueue])
    ensures { queues.new ≡ map acts.without_kick queues.old }
{
    for queue in queues.iter_mut() {
        queue.is_kicked = false;
    }
}

/// Takes the kicks.
pub fn take_kicks(state: &mut PortState)
    ensures { state.new ≡ acts.without_kicks state.old }
{
    take_all(&mut state.queues);
}
