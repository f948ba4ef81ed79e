//! Reads requests as calls of the API.
//!
//! `read` gives the call that a request asks for, or its first refusal: by its path, by its method, then by its
//! body. The paths are a table in `routes`, and the fields of each body are a table in the module of its resource.
//! One function judges all bodies, by their tables. The definitions are in `api_calls`.
#![tactic(auto)]

mod error;

// What is asked of fields, by tables.
mod addresses;
mod form;
mod ids;
mod levels;

// The parts of a request, and the limits in its body.
mod body;
mod limits;
mod routes;

// The resources, in the order of the API's table: PUT /boot-source,
mod boot_source;

// PUT and PATCH /drives/{id},
mod drives;

// PUT and PATCH /network-interfaces/{id},
mod interfaces;

// PUT /vsock,
mod vsock;

// PUT and PATCH /machine-config,
mod machine_config;

// PUT and PATCH /balloon, PATCH /balloon/statistics,
mod balloon;

// PUT /entropy,
mod entropy;

// PUT /mmds/config,
mod mmds;

// PUT and PATCH /mmds,
mod metadata;

// PUT /actions,
mod actions;

// PATCH /vm,
mod vm;

// PUT /snapshot/create and PUT /snapshot/load.
mod snapshot;

// A request as a call.
mod reading;

pub use error::ReadError;
pub use reading::read;
