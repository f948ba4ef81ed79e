// Why an actor stopped in a slice.
use vm_types::ActorId;

/// Why an actor makes no further step in a slice.
#[derive(Clone, Copy, Debug, Drop)]
pub enum Stop {
    /// It made as many steps as the slice has for each.
    Steps,
    /// The gate was closed.
    Gate,
    /// It made a step, and now it wants to wait.
    Idle,
    /// The console ring was full.
    Full,
    /// Its last stamp is 2^63 or more.
    Stamp,
    /// Its want is on a page that wasn't made when the slice began, and its blanks are used up.
    Blanks,
    /// Nothing answers its want: its port isn't there, or no object that is lent answers such a call.
    Unanswered,
}

/// An actor's stop.
#[derive(Clone, Copy, Drop)]
pub struct Stopped {
    pub actor: ActorId,
    pub stop: Stop,
}
