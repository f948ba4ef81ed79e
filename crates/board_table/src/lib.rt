//! The board: the console ring, whether the guest is off, guest time, interrupt lines, and the state of each hart.
//!
//! `specs/` says what an act on the board is answered and what it leaves, and that the answer fits the act.
//! `line_board::Board` is the place that does it.
#![tactic(auto)]

mod hart_state;
mod law;
mod window;

pub use hart_state::HartState;
pub use law::{board_kept, board_long};
pub use window::{RING_SIZE, WINDOW_SIZE, WINDOW_START, is_window};
