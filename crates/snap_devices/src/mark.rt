// Which features the driver of a queue accepted, in the byte that says that the queue is there.
ghost use Rattle.std.specs.Prelude.{◌≡◌, ◌<◌, ◌+◌, ◌*◌, suc};
ghost use Rattle.snap_devices.specs.Marks.{accepted_at, accepted_code, queue_at, queue_code, which_at, which_code};

use queue_device::Which;
use vm_types::Accepted;

/// None of them, indirect descriptors, the event index, or both, as a number.
pub fn accepted_code(accepted: Accepted) -> u8
    ensures code { result ≡ accepted_code accepted }
    ensures few { result < 4 }
{
    match (accepted.indirect, accepted.event_index) {
        (false, false) => 0,
        (true, false) => 1,
        (false, true) => 2,
        (true, true) => 3,
    }
}

/// Those of a number, if it is one of them.
pub fn accepted_at(code: u8) -> Option<Accepted>
    ensures { result ≡ accepted_at code }
{
    let (indirect, event_index) = match code {
        0 => (false, false),
        1 => (true, false),
        2 => (false, true),
        3 => (true, true),
        _ => return None,
    };
    Some(Accepted {
        indirect,
        event_index,
    })
}

/// The number of a queue.
pub fn which_code(which: Which) -> u8
    ensures code { result ≡ which_code which }
    ensures few { result < 3 }
{
    match which {
        Which::First => 0,
        Which::Second => 1,
        Which::Third => 2,
    }
}

/// The queue of a number, if there is one.
pub fn which_at(code: u8) -> Option<Which>
    ensures { result ≡ which_at code }
{
    match code {
        0 => Some(Which::First),
        1 => Some(Which::Second),
        2 => Some(Which::Third),
        _ => None,
    }
}

/// The number of a queue with what was accepted of it.
pub fn queue_code(which: Which, accepted: Accepted) -> u8
    ensures { result ≡ queue_code which accepted }
{
    which_code(which) + 4 * accepted_code(accepted)
}

/// Both, by that number.
pub fn queue_at(code: u8) -> Option<(Which, Accepted)>
    ensures { result ≡ queue_at code }
{
    match which_at(code % 4) {
        None => None,
        Some(which) => match accepted_at(code / 4) {
            None => None,
            Some(accepted) => Some((which, accepted)),
        },
    }
}
