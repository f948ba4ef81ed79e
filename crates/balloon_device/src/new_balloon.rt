// What a machine starts a balloon with.
ghost use Rattle.std.specs.Prelude.{◌≡◌};
ghost use Rattle.balloon_device.specs.Port.{config_of, offered};

use le_fields::put32;
use port_table::Feature;

/// What a machine starts a balloon with (VIRTIO 1.2, 5.5).
#[derive(Clone, Copy, Drop)]
pub struct NewBalloon {
    /// How many pages of 4,096 bytes the host wants.
    pub target: u32,
    /// The driver may take pages back when it is short of memory (VIRTIO_BALLOON_F_DEFLATE_ON_OOM).
    pub deflates_on_oom: bool,
    /// How many seconds there are between two chains of statistics; 0 where they are off (VIRTIO_BALLOON_F_STATS_VQ).
    pub interval: u16,
}

impl NewBalloon {
    /// What it offers beside VIRTIO_F_VERSION_1.
    pub fn features(&self) -> u64
        ensures { result ≡ offered self.now }
    {
        let statistics = if self.interval == 0 {
            0
        } else {
            Feature::BalloonStatistics.mask()
        };
        let deflates = if self.deflates_on_oom {
            Feature::BalloonDeflateOnOom.mask()
        } else {
            0
        };
        statistics | deflates
    }
}

/// The configuration of a balloon's port (5.5.4): how many pages the host wants, and how many the driver gave.
pub fn configuration(target: u32, actual: u32) -> [u8; 8]
    ensures { result ≡ config_of target actual }
{
    let mut bytes = [0; 8];
    put32(&mut bytes, 0, target);
    put32(&mut bytes, 4, actual);
    bytes
}
