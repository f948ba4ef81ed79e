// An entropy device as an actor.
ghost use Rattle.std.specs.Prelude.{◌≡◌};
ghost use Rattle.device_trace.specs.Script.{Ends};
ghost use Rattle.entropy_device.specs.Entropy.{new_entropy};
ghost use Rattle.entropy_device.specs.States.{entropy_left};

use crate::kind::EntropyKind;
use queue_device::QueueDevice;
use rate_gate::RateGate;

/// An entropy device, which contracts see as all that it keeps.
pub type EntropyDevice = QueueDevice<EntropyKind>;

/// The entropy device of this port that has done nothing, in a guest of so many pages, with these limits.
pub fn new_entropy_device(port: u8, pages: u32, limits: RateGate) -> EntropyDevice
    ensures { entropy_left result ≡ Ends (new_entropy port pages limits) }
{
    QueueDevice::new(port, pages, EntropyKind::new(limits))
}
