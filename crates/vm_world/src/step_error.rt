// Why an event isn't made, and why bytes aren't read.
ghost use Rattle.std.specs.Prelude.{◌≡◌};
ghost use Rattle.vm_world.specs.Refusing.{refusal_of};

use vm_types::{Op, Reply, is_fit};

/// Why an event isn't made.
#[derive(Clone, Copy, Drop)]
pub enum StepError {
    /// There is no such actor.
    NoActor,
    /// A host object's reply is given, and the actor wants no act on one.
    NotWaiting,
    /// The actor wants an act on a host object, and no reply is given.
    Waits,
    /// The reply that is given doesn't fit the act on a host object that the actor wants.
    Unfit,
    /// The page of the actor's want isn't made, and none is spare.
    NoSpare,
}

/// There is no such actor.
#[derive(Clone, Copy, Drop)]
pub struct NoActor;

/// Not all of these bytes are RAM.
#[derive(Clone, Copy, Drop)]
pub struct NotRam;

/// Why an op isn't done with what is given, if it isn't: a host object's reply is to be there, and to fit, exactly
/// where the op is an act on one.
pub fn refusal_of(op: &Op, given: &Option<Reply>) -> Option<StepError>
    ensures { result ≡ refusal_of op.now given.now }
{
    match op {
        Op::Out(_) => match given {
            None => Some(StepError::Waits),
            Some(reply) => if is_fit(op, reply) {
                None
            } else {
                Some(StepError::Unfit)
            },
        },
        _ => match given {
            None => None,
            Some(_) => Some(StepError::NotWaiting),
        },
    }
}
