//! What a start puts into guest memory: the image, the initial RAM disk and the device tree.
//!
//! `load` puts them where the definition of boot memory has them, or nothing where they don't fit. It is no act of the
//! guest's: nothing is marked, and a page that holds nothing of them is as it was. `boot` makes the memory for them.
#![tactic(auto)]

mod booting;
mod loading;
mod loads;

pub use booting::{BootError, Booted, boot};
pub use loading::{Start, load};
pub use loads::Loads;
