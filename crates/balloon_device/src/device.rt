// A balloon as an actor.
ghost use Rattle.std.specs.Prelude.{◌≡◌};
ghost use Rattle.device_trace.specs.Script.{Ends};
ghost use Rattle.balloon_device.specs.Balloon.{new_balloon};
ghost use Rattle.balloon_device.specs.States.{balloon_left};

use crate::kind::BalloonKind;
use queue_device::QueueDevice;

/// A balloon, which contracts see as all that it keeps.
pub type BalloonDevice = QueueDevice<BalloonKind>;

/// The balloon of this port that has done nothing, in a guest of so many pages. Its statistics have this interval, in seconds; 0
/// where they are off.
pub fn new_balloon_device(port: u8, pages: u32, interval: u16) -> BalloonDevice
    ensures { balloon_left result ≡ Ends (new_balloon port pages interval) }
{
    QueueDevice::new(port, pages, BalloonKind::new(interval))
}
