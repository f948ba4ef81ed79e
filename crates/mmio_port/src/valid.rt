// Which states a port may be in.
ghost use Rattle.std.specs.Prelude.{◌≡◌, ◌≤◌, drop, length};
ghost use Rattle.std.specs.List.{list_all};
ghost use Rattle.port_table.specs.Kept as kept;

use crate::registers::has_bits;
use port_table::{DeviceKind, Feature, PortQueue, PortState};

fn is_new(queue: &PortQueue) -> bool
    ensures { result ≡ kept.is_new queue.now }
{
    queue.descriptors == 0
        && queue.available == 0
        && queue.used == 0
        && queue.size == 0
        && queue.ready == 0
        && !queue.is_kicked
}

fn are_new(queues: &[PortQueue]) -> bool
    ensures { result ≡ list_all kept.is_new queues.now }
{
    queues.iter().all(|queue| is_new(queue))
}

fn are_zeros(bytes: &[u8]) -> bool
    ensures { result ≡ list_all kept.is_zero bytes.now }
{
    bytes.iter().all(|b| *b == 0)
}

fn has_queues(kind: DeviceKind, queues: &[PortQueue; 3]) -> bool
    ensures { result ≡ kept.has_queues kind queues.now }
{
    are_new(&queues[kind.queue_count() as usize..])
}

fn has_config(kind: DeviceKind, config: &[u8; 8]) -> bool
    ensures { result ≡ kept.has_config kind config.now }
{
    are_zeros(&config[kind.config_length()..])
}

// Indirect descriptors and the event index are offered together, or neither is.
fn offers_alike(offered: u64) -> bool
    ensures { result ≡ kept.offers_alike offered }
{
    has_bits(offered, Feature::IndirectDescriptors.mask())
        == has_bits(offered, Feature::EventIndex.mask())
}

/// Whether a port may be in this state.
pub fn is_state(state: &PortState) -> bool
    ensures { result ≡ kept.is_state state.now }
{
    has_bits(state.offered, Feature::Version1.mask())
        && offers_alike(state.offered)
        && has_queues(state.kind, &state.queues)
        && has_config(state.kind, &state.config)
        && (!state.is_reset_asked || state.status != 0)
}
