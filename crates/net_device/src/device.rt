// A network device as an actor.
ghost use Rattle.std.specs.Prelude.{◌≡◌};
ghost use Rattle.device_trace.specs.Script.{Ends};
ghost use Rattle.net_device.specs.Net.{new_net};
ghost use Rattle.net_device.specs.States.{net_left};

use crate::kind::NetKind;
use queue_device::QueueDevice;
use rate_gate::RateGate;

/// A network device, which contracts see as all that it keeps.
pub type NetDevice = QueueDevice<NetKind>;

/// The network device of this port that has done nothing, in a guest of so many pages, with these limits.
pub fn new_net_device(port: u8, pages: u32, rx: RateGate, tx: RateGate) -> NetDevice
    ensures { net_left result ≡ Ends (new_net port pages rx tx) }
{
    QueueDevice::new(port, pages, NetKind::new(rx, tx))
}
