//! Guest memory in pages of 4,096 bytes: each with its bytes, what harts have reserved in it, and a mark.
//!
//! A page is a place, and marked exactly where an act has written it since the mark was cleared. `PageSet` is all of
//! them, and the one memory of the definition: an act on the page that has its bytes is the act on that memory, and
//! a block that is loaded into pages is put there, and what is copied out is read there. `law` has what holds of marks, and of room.
//!
//! A page that nobody wrote or reserved in isn't made: it takes no memory and reads as zeros. The set makes one from memory that was
//! reserved before, so an act takes none. `specs/Made.antt` says what there has to be for an act, and for several. Pages can be taken out of
//! the set as they are (`Slot`), with blanks for them (`Blank`), and put back.
#![tactic(auto)]

mod blank;
mod law;
mod openings;
mod page;
mod page_set;
mod reading;
mod slot;
mod word_bytes;
mod zeros;

pub use blank::Blank;
pub use law::marks_follow_acts;
pub use page::Page;
pub use page_set::{CodePage, PageSet, mark_made};
pub use slot::Slot;
