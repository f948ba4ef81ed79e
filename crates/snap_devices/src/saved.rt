// Values of other crates.
ghost use Rattle.std.specs.Prelude.{◌≡◌, true};
ghost use Rattle.guest_devices.specs.Kept.{is_saved};

use guest_devices::Device;
use std::marker::Model;

/// A value, as files have it.
#[derive(Drop)]
pub struct Saved<T> {
    pub value: T,
}

impl<T> Model for Saved<T> {
    ghost Value = { T };

    ghost view = { λ s. s.value };
}

/// A device that a file may have: a vsock device without a connection.
#[derive(Drop)]
pub struct SavedDevice {
    value: Device,
}

impl Model for SavedDevice {
    ghost use Rattle.std.specs.Prelude.{◌≡◌, true};
    ghost use Rattle.guest_devices.specs.declared.device.Device.{Device};
    ghost use Rattle.guest_devices.specs.Kept.{is_saved};

    ghost Value = { Device };

    ghost view = { λ s. s.value };

    ghost invariant = { λ s. is_saved s.value ≡ true };
}

impl SavedDevice {
    /// This device, which a file may have.
    pub fn new(device: Device) -> SavedDevice
        requires { is_saved device ≡ true }
        ensures { result ≡ device }
    {
        SavedDevice { value: device }
    }

    pub fn device(&self) -> &Device
        ensures device { result.now ≡ self.now }
        ensures saved { is_saved result.now ≡ true }
    {
        &self.value
    }

    /// The device, which may go on.
    pub fn into_device(self) -> Device
        ensures { result ≡ self }
    {
        self.value
    }
}
