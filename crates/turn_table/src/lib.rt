//! Places that pass from thread to thread by turns.
//!
//! A place lies in a slot of a table, beside a word. The word is even where nobody has the place, and odd where one thread has it.
//! Who has the turn at a place acts on it where it lies, writes the act down in a journal of its own, and gives the place back by
//! one store. For each place there is a history, which has the entries of all seats, each once, and leads from how the place stood
//! when the round began to how it stands. The table's rule says so, and no code keeps it: there is nothing to compare at run time.
//! A round ends by `settle`, and the next one begins with the places as they stand, so one table serves many slices.
//! Nothing is said of waiting: not that a turn is got, nor in which order.
#![tactic(auto)]

mod acting;
mod fed;
mod held;
mod law;
mod note;
mod turns;
mod view;

pub use fed::Fed;
pub use held::{Held, Opening};
pub use law::Law;
pub use note::Note;
pub use turns::{TurnSeat, Turns};
pub use view::{Noted, Round, Turn, View};
