// The gate beside slices, and who has a pass of it.
ghost use Rattle.std.specs.Prelude.{◌≡◌, IfOk};
ghost use Rattle.monitor_serving.specs.Gating.{IsGated};

use monitor_running::{Pace, Steering};
use pause_gate::{FlagGate, Pass};
use std::alloc::{AllocError, Global};

/// A pass for each of 32 harts, the timer and a device, one for who asks before each slice, and one for the reader.
const PASSES: usize = 36;

/// A gate, what steers the turns that ask it, and the pass of the reader, who closes it. In a slice each actor makes so many steps at most.
/// The pace goes on, whoever makes the turns.
#[derive(Drop)]
pub struct Gating {
    pub gate: FlagGate,
    pub steering: Steering<Pass>,
    pub reader: Pass,
    pub steps: u32,
}

impl Gating {
    /// An open gate with all its passes.
    pub fn new(alloc: Global, steps: u32) -> Result<Gating, AllocError>
        ensures gated { IfOk result (λ it. IsGated it) }
        ensures steps { IfOk result (λ it. it.steps ≡ steps) }
    {
        let (gate, mut passes) = FlagGate::new(alloc, PASSES)?;
        let Some(reader) = passes.pop() else {
            unreachable!()
        };
        let pace = Pace::new(steps);
        Ok(Gating {
            gate,
            steering: Steering { passes, pace },
            reader,
            steps,
        })
    }
}
