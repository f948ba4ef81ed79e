// What a path with a method leads to.
use crate::call::Part;

/// The bodies that calls have, in the table's order.
#[derive(Clone, Copy, Drop)]
pub enum Body {
    BootSource,
    Drive,
    DrivePatch,
    Interface,
    InterfacePatch,
    Vsock,
    MachineConfig,
    MachinePatch,
    Balloon,
    BalloonPatch,
    StatisticsPatch,
    Entropy,
    MmdsConfig,
    Metadata,
    MetadataPatch,
    Action,
    VmState,
    SnapshotCreate,
    SnapshotLoad,
}

/// A method on a path.
#[derive(Clone, Copy, Drop)]
pub enum Endpoint {
    /// A PUT or PATCH, by the body that it has.
    Send(Body),
    /// A GET, whose body is ignored.
    Get(Part),
}
