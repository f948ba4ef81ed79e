//! What is configured, what becomes of a part of it that is put or patched, and the texts that GET tells.
//!
//! `MachineView::json` gives a part as compact JSON. What is configured by ids is a `NamedList`: `Drives`, which tells their
//! order as devices too, and `Interfaces`. `specs/Changes.antt` has what there is before the first call, and what a PATCH leaves
//! of the machine and of the balloon; `specs/Named.antt`, `specs/Drives.antt`, `specs/Interfaces.antt` and `specs/Limits.antt` what
//! a PUT and a PATCH leave of a list; `specs/Devices.antt` which devices there are, by their numbers. `specs/Texts.antt` has each
//! part as a tree, whose keys are in byte order.
#![tactic(auto)]

mod balloon;
mod config;
mod devices;
mod drives;
mod interfaces;
mod law;
mod limits;
mod machine;
mod machine_view;
mod named;
mod statistics;
mod text;
mod values;

pub use balloon::{with_amount, with_interval};
pub use config::{Config, Phase};
pub use drives::Drives;
pub use interfaces::Interfaces;
pub use law::{devices_are_numbered, ids_stay_apart};
pub use machine::with_fields;
pub use machine_view::MachineView;
pub use named::{Named, NamedList};
pub use statistics::Statistics;
pub use values::version_text;
