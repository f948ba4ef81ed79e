//! A network device (VIRTIO 1.2, 5.1), on the rounds of `queue_device`.
//!
//! `specs/Net.antt` says what it does beside its rounds, over `Frames.antt`, how a frame is taken from its link in pieces and sent
//! to it. A frame that the link has waits for the driver's queue, and for its limit; so does one that the driver sends. `NetDevice`
//! is the actor, which is in a state that it may be in, and `NewNet` what a machine starts one with.
#![tactic(auto)]

mod calls;
mod device;
mod kind;
mod law;
mod new_net;
mod text;
mod valid;

pub use device::{NetDevice, new_net_device};
pub use kind::{NetChange, NetKind, Stage};
pub use law::{net_goes_on, net_kept, net_sequences, net_stays};
pub use new_net::{NewNet, configuration};
pub use text::Text;
