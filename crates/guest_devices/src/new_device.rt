// What a machine starts a device with, by its kind.

use crate::drive::NewDrive;
use balloon_device::NewBalloon;
use entropy_device::NewEntropy;
use net_device::NewNet;
use vsock_device::NewVsock;

/// What a machine starts a device with, by its kind (VIRTIO 1.2, 5).
#[derive(Drop)]
pub enum NewDevice {
    Block(NewDrive),
    Net(NewNet),
    Vsock(NewVsock),
    Balloon(NewBalloon),
    Entropy(NewEntropy),
}
