//! What a request asks of the API: the calls as plain data, and the tables by which a request is read as one.
//!
//! `specs/Routes.antt` has the paths and their methods, `specs/Fields.antt` the fields of each body, and
//! `specs/Form.antt` what is asked of fields and which refusal comes first. `specs/Call.antt` puts them together:
//! the call that a request is, or its first refusal. But for `CacheType::text`, tests of addresses and lists of ids there is no body here:
//! `api_json` reads requests by these tables, and the flat machine cites them. `specs/Drives.antt`, `specs/Interfaces.antt` and
//! `specs/Limits.antt` say of a drive, of an interface and of limits what others need too.
#![tactic(auto)]

mod addresses;
mod balloon;
mod call;
mod endpoint;
mod entropy;
mod id_list;
mod interface;
mod law;
mod limiter;
mod mmds;
mod test;
mod vsock;

pub use addresses::{is_mac, is_metadata_address};
pub use balloon::{Balloon, BalloonPatch, StatisticsPatch};
pub use call::{
    ApiCall, BootSource, CacheType, Drive, DrivePatch, MachineConfig, MachinePatch, Part,
    SnapshotCreate, SnapshotFiles, SnapshotLoad, SnapshotType, VmState,
};
pub use endpoint::{Body, Endpoint};
pub use entropy::Entropy;
pub use id_list::IdList;
pub use interface::{Interface, InterfacePatch};
pub use law::{
    drives_are_named, interfaces_are_named, limits_are_bounded, machines_are_in_range,
    metadata_have_a_place, paths_differ, reports_are_near, sockets_are_named, sources_are_short,
};
pub use limiter::{BucketConfig, Limiter};
pub use mmds::MmdsConfig;
pub use test::Test;
pub use vsock::Vsock;
