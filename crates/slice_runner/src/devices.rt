// Whether devices act in a slice.
ghost use Rattle.std.specs.Prelude.{◌≡◌, ◌+◌, ◌++◌, [], length};
ghost use Rattle.slice_runner.specs.Slices.{acting_of};

use guest_devices::Device;

/// Whether the devices of a world act in a slice, or rest in it.
#[derive(Clone, Copy, Drop)]
pub enum Devices {
    /// All of them act.
    Act,
    /// None acts, and each is as it was.
    Rest,
}

impl Devices {
    /// How many of so many act.
    pub fn acting(self, count: usize) -> usize
        ensures { result ≡ acting_of self count }
    {
        match self {
            Devices::Act => count,
            Devices::Rest => 0,
        }
    }

    /// Those that act and those that rest, with an empty list for the others.
    pub fn part(self, devices: Vec<Device>, none: Vec<Device>) -> (Vec<Device>, Vec<Device>)
        requires { none.items ≡ [] }
        ensures both { result.0.items ++ result.1.items ≡ devices.items }
        ensures acting { length result.0.items ≡ acting_of self (length devices.items) }
    {
        match self {
            Devices::Act => (devices, none),
            Devices::Rest => (none, devices),
        }
    }
}

/// All devices again, of which some acted and some rested: either all or none.
pub fn rejoin(how: Devices, acted: Vec<Device>, rested: Vec<Device>) -> Vec<Device>
    requires { length acted.items ≡ acting_of how (length acted.items + length rested.items) }
    ensures { result.items ≡ acted.items ++ rested.items }
{
    match how {
        Devices::Act => acted,
        Devices::Rest => rested,
    }
}
