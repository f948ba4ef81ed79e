//! One lock round each place, under which the history of its acts is kept.
//!
//! Each act under the lock adds one entry to the history, with the stamp after the larger of the actor's last and the
//! place's last. Whenever the lock is free the history replays, by the place's own function, from how the place
//! stood at first to how it stands. A history's entry says what its act replied, so none can be invented.
//! Nothing is said of waiting: not that a lock is got, nor in which order.
#![tactic(auto)]

mod kept;
mod locked;

pub use kept::Kept;
pub use locked::Locked;
