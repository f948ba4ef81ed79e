// A vsock device as an actor.
ghost use Rattle.std.specs.Prelude.{◌≡◌};
ghost use Rattle.device_trace.specs.Script.{Ends};
ghost use Rattle.vsock_device.specs.Vsock.{new_vsock};
ghost use Rattle.vsock_device.specs.States.{vsock_left};

use crate::kind::VsockKind;
use queue_device::QueueDevice;

/// A vsock device, which contracts see as all that it keeps.
pub type VsockDevice = QueueDevice<VsockKind>;

/// The vsock device of this port that has done nothing, in a guest of so many pages and of this CID.
pub fn new_vsock_device(port: u8, pages: u32, guest_cid: u64) -> VsockDevice
    ensures { vsock_left result ≡ Ends (new_vsock port pages guest_cid) }
{
    QueueDevice::new(port, pages, VsockKind::new(guest_cid))
}
