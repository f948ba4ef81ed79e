//! The port of a device: its registers and its configuration space (VIRTIO 1.2, 4.2, "Virtio Over MMIO").
//!
//! `specs/` says what each access and each act of the device is answered and what it leaves, one row a register, and
//! that the answer fits. `mmio_port::Port` is the place that does it.
#![tactic(auto)]

mod kind;
mod law;
mod register;
mod state;
mod window;

pub use kind::{DeviceKind, Feature};
pub use law::{port_kept, port_stays};
pub use register::{Register, register_at};
pub use state::{PortQueue, PortState};
pub use window::{MOST_DEVICES, PORT_SIZE, PORTS_START, port_at};
