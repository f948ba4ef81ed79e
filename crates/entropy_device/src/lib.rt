//! An entropy device (VIRTIO 1.2, 5.4), on the rounds of `queue_device`.
//!
//! `specs/Entropy.antt` says what it does beside its rounds, over `Words.antt`, how a chain is filled with words of random bits, each
//! written before the next is asked for. `specs/Written.antt` says what the chain then has: the words that were given, in their
//! order, cut at its length. `EntropyDevice` is the actor, which is in a state that it may be in, and `NewEntropy` what a machine
//! starts one with.
#![tactic(auto)]

mod calls;
mod device;
mod kind;
mod law;
mod new_entropy;

pub use device::{EntropyDevice, new_entropy_device};
pub use kind::{EntropyChange, EntropyKind, Stage};
pub use law::{entropy_does, entropy_goes_on, entropy_kept, entropy_sequences, entropy_stays};
pub use new_entropy::NewEntropy;
