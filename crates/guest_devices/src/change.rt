// What the API changes of a device, by its kind.
ghost use Rattle.std.specs.Prelude.{◌≡◌};
ghost use Rattle.guest_devices.specs.Kinds.{limits_change, receives_change, sectors_change, transmits_change};

use balloon_device::BalloonChange;
use block_device::BlockChange;
use net_device::NetChange;
use rate_gate::Bucket;

/// What the API changes of a device, by its kind. To a device of another kind it is none.
#[derive(Drop)]
pub enum DeviceChange {
    Block(BlockChange),
    Net(NetChange),
    Balloon(BalloonChange),
}

impl DeviceChange {
    /// The disk of a block device has another size, in sectors of 512 bytes.
    pub fn of_sectors(sectors: u64) -> DeviceChange
        ensures { result ≡ sectors_change sectors }
    {
        DeviceChange::Block(BlockChange::Sectors(sectors))
    }

    /// The gate of a block device has other buckets in place of those that are named. `Some(None)` removes a bucket.
    pub fn of_limits(bandwidth: Option<Option<Bucket>>, ops: Option<Option<Bucket>>) -> DeviceChange
        ensures { result ≡ limits_change bandwidth ops }
    {
        DeviceChange::Block(BlockChange::Limits(bandwidth, ops))
    }

    /// The gate of what a network device receives has other buckets in place of those that are named.
    pub fn of_receives(
        bandwidth: Option<Option<Bucket>>,
        ops: Option<Option<Bucket>>,
    ) -> DeviceChange
        ensures { result ≡ receives_change bandwidth ops }
    {
        DeviceChange::Net(NetChange::Receives(bandwidth, ops))
    }

    /// The gate of what a network device transmits has other buckets in place of those that are named.
    pub fn of_transmits(
        bandwidth: Option<Option<Bucket>>,
        ops: Option<Option<Bucket>>,
    ) -> DeviceChange
        ensures { result ≡ transmits_change bandwidth ops }
    {
        DeviceChange::Net(NetChange::Transmits(bandwidth, ops))
    }
}
