//! The devices of a guest, by kind.
//!
//! `specs/Kinds.antt` has the kinds, a line a kind in each table. `specs/Devices.antt` says what a device of any kind has still
//! to do, and what it is in the flat machine: `devices_follow` and `sound_devices` have what holds of it, by what is owed of a
//! kind (`KindLaws`). `Device` is the actor, and `want_of_device` and `give_device` are what is asked of one of several.
//! `NewDevice` is what a device of any kind starts with, and `NewDrive` what a block device does; `DeviceChange` is what the API
//! changes of one, and `specs/Ports.antt` what its port shows.
#![tactic(auto)]

mod balloon;
mod block;
mod change;
mod device;
mod drive;
mod entropy;
mod law;
mod net;
mod new_device;
mod port;
mod several;
mod timely;
mod vsock;

pub use change::DeviceChange;
pub use device::Device;
pub use drive::NewDrive;
pub use law::{devices_follow, narrow_devices, sound_devices, timely_devices};
pub use new_device::NewDevice;
pub use port::port_at_start;
pub use several::{give_device, want_of_device};
