// How turns end.
/// How turns end.
#[derive(Drop)]
pub enum Ran {
    /// The gate was closed.
    Closed,
    /// The guest turned itself off.
    Off,
    /// The trace failed: it lacks the last events of a turn, or has all of them and no item of the drain behind it.
    TraceFailed,
    /// The sink failed, and took a front of what the console held.
    SinkFailed,
    /// There was no memory for a turn.
    OutOfMemory,
}
