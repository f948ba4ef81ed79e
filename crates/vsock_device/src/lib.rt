//! A vsock device (VIRTIO 1.2, 5.10) as a kind of device on the rounds of `queue_device`.
//!
//! `Vsock` is what it keeps: at most 64 connections with their credit, what waits for the guest, and the chain in hand as far as
//! it matters to a reset of the connections. `VsockKind` asks the vsock host what happened, and serves the chains of its three
//! queues. `VsockDevice` is the actor, which is in a state that it may be in, and `NewVsock` what a machine starts one with.
#![tactic(auto)]

mod calls;
mod connection;
mod connections;
mod data;
mod device;
mod fetching;
mod guest;
mod host;
mod kind;
mod law;
mod leading;
mod line;
mod new_vsock;
mod packet;

pub use connection::{Connection, Standing};
pub use connections::Connections;
pub use data::{InHand, Vsock, VsockChange};
pub use device::{VsockDevice, new_vsock_device};
pub use fetching::Fetching;
pub use kind::{Stage, VsockKind};
pub use law::{vsock_does, vsock_goes_on, vsock_kept, vsock_stays};
pub use new_vsock::{NewVsock, configuration};
pub use packet::{Head, HostBytes, Packet};
