// Connections that are over.
use crate::passed::Passed;

/// The connections that are over, the newest first. Each brought the room that it is kept in.
#[derive(Drop)]
pub enum Past {
    Nothing,
    Conn {
        passed: Passed,
        faults: u64,
        before: Box<Past>,
    },
}
