//! Which calls are allowed, and what each changes.
//!
//! The table is `specs/Table.antt`: of each call when it is allowed, its own refusals, whether it asks files, and what it leaves of
//! what is configured. `decide` refuses a call by the phase, then by the refusals of its own, each in the table's order. It takes no
//! memory, and asks no file: what a start is refused by its files, `boot_refusal` says. `apply` takes what an accepted call changes.
//! `specs/Answers.antt` has what a call is answered.
#![tactic(auto)]

mod ids;
mod room;

// The resources that have rules of their own, in the order of the API's table: PUT and PATCH /drives/{id},
mod drives;

// PUT and PATCH /network-interfaces/{id},
mod interfaces;

// PUT /entropy,
mod entropy;

// PUT /vsock,
mod vsock;

// PUT and PATCH /machine-config,
mod machine_config;

// PUT, GET and PATCH /balloon, GET and PATCH /balloon/statistics,
mod balloon;

// PUT /mmds/config,
mod mmds;

// PUT /actions,
mod actions;

// PUT /snapshot/create and PUT /snapshot/load.
mod snapshot;

// A call, by all of them, and what it is answered.
mod answer;
mod applying;
mod deciding;

pub use actions::{InitrdFile, boot_refusal, initrd_len};
pub use answer::{Answer, accepted_answer, done_answer, fault_answer};
pub use applying::apply;
pub use deciding::{When, decide};
pub use ids::Ids;
pub use vm_config::{Config, Phase};
