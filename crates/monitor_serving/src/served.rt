// How serving ends.
ghost use Rattle.std.specs.Prelude.{◌≡◌};
ghost use Rattle.monitor_serving.specs.Ends.{alone_end, end_of};

use monitor_running::Ran;
use vm_types::Object;

/// How a connection ends, or all of serving.
#[derive(Drop)]
pub enum Served {
    /// The connection was read to its end, or came to bytes that are no request, or a call on it failed; or no connection
    /// comes any more.
    Ended,
    /// The guest turned itself off.
    Off,
    /// A call of this object failed.
    Fault(Object),
    /// There was no memory.
    OutOfMemory,
}

/// The end of serving with which slices ended; `None` where the gate was closed or the guest is off, after which what was
/// heard meanwhile is still looked at.
pub(crate) fn end_of(ran: Ran) -> Option<Served>
    ensures { result ≡ end_of ran }
{
    match ran {
        Ran::Closed | Ran::Off => None,
        Ran::TraceFailed => Some(Served::Fault(Object::Trace)),
        Ran::SinkFailed => Some(Served::Fault(Object::Sink)),
        Ran::OutOfMemory => Some(Served::OutOfMemory),
    }
}

/// The same while nobody is connected, where slices go on, or have come to an end.
pub(crate) fn alone_end(ran: Option<Ran>) -> Option<Served>
    ensures { result ≡ alone_end ran }
{
    match ran {
        None => None,
        Some(Ran::Off) => Some(Served::Off),
        Some(ran) => end_of(ran),
    }
}
