// The registers of a port.
ghost use Rattle.std.specs.Prelude.{◌≡◌};
ghost use Rattle.port_table.specs.Registers as registers;

/// A register of a port by its name (VIRTIO 1.2, 4.2.2).
#[derive(Clone, Copy, Drop)]
pub enum Register {
    MagicValue,
    Version,
    DeviceId,
    VendorId,
    DeviceFeatures,
    DeviceFeaturesSel,
    DriverFeatures,
    DriverFeaturesSel,
    QueueSel,
    QueueNumMax,
    QueueNum,
    QueueReady,
    QueueNotify,
    InterruptStatus,
    InterruptAck,
    Status,
    QueueDescLow,
    QueueDescHigh,
    QueueDriverLow,
    QueueDriverHigh,
    QueueDeviceLow,
    QueueDeviceHigh,
    ConfigGeneration,
}

/// The register at an offset from the start of the port, or `None` where there is none.
pub fn register_at(offset: u64) -> Option<Register>
    ensures { result ≡ registers.register_at offset }
{
    match offset {
        0x000 => Some(Register::MagicValue),
        0x004 => Some(Register::Version),
        0x008 => Some(Register::DeviceId),
        0x00c => Some(Register::VendorId),
        0x010 => Some(Register::DeviceFeatures),
        0x014 => Some(Register::DeviceFeaturesSel),
        0x020 => Some(Register::DriverFeatures),
        0x024 => Some(Register::DriverFeaturesSel),
        0x030 => Some(Register::QueueSel),
        0x034 => Some(Register::QueueNumMax),
        0x038 => Some(Register::QueueNum),
        0x044 => Some(Register::QueueReady),
        0x050 => Some(Register::QueueNotify),
        0x060 => Some(Register::InterruptStatus),
        0x064 => Some(Register::InterruptAck),
        0x070 => Some(Register::Status),
        0x080 => Some(Register::QueueDescLow),
        0x084 => Some(Register::QueueDescHigh),
        0x090 => Some(Register::QueueDriverLow),
        0x094 => Some(Register::QueueDriverHigh),
        0x0a0 => Some(Register::QueueDeviceLow),
        0x0a4 => Some(Register::QueueDeviceHigh),
        0x0fc => Some(Register::ConfigGeneration),
        _ => None,
    }
}
