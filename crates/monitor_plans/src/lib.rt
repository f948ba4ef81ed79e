//! What comes of a request, as a plan: which answer it has, and what is to be done before it is given.
//!
//! A `Plan` has all that the answer needs in memory, so what it asks for is done without taking any. `start` plans a
//! start by the files of its kernel image, its disk and its drives, `create` a snapshot of a guest, `restore` what goes on
//! from the files of one, `put_drive`, `patch_drive` and `put_interface` what is configured of drives and interfaces, and
//! `put_metadata` and `patch_metadata` what is stored. `limits_told`, `interval_told` and `target_shown` are what a PATCH tells of limits and of the balloon, and `device_number`, `interface_number` and
//! `balloon_number` whom. `TakenConfig` is what is configured, as the API takes it.
#![tactic(auto)]

mod balloon;
mod creating;
mod devices;
mod disk;
mod drive_changes;
mod drives;
mod heading;
mod interface_changes;
mod limits;
mod nets;
mod plan;
mod restoring;
mod starting;
mod storing;
mod taken_config;

pub use balloon::{amount_patched, balloon_number, interval_patched, interval_told, target_shown};
pub use creating::{Creation, create, pages_of};
pub use drive_changes::{Resize, device_number, patch_drive, put_drive};
pub use interface_changes::put_interface;
pub use limits::{LimitsOf, limits_told};
pub use nets::interface_number;
pub use plan::{Plan, Task};
pub use restoring::{Restored, restore};
pub use starting::start;
pub use storing::{patch_metadata, put_metadata};
pub use taken_config::TakenConfig;
