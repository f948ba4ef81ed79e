// From an answer of the system to one of the traits.
ghost use Rattle.std.specs.Prelude.{◌≡◌, Ok, IfOk};
ghost use Rattle.vm_outside.specs.Known.{Called};
ghost use Rattle.outside_real.specs.Counting.{CountsFailure, untold};

use std::io;
use vm_outside::Failed;

/// Counts the failure, if it is one. Why it failed isn't kept.
pub fn counted<T>(faults: &mut u64, done: io::Result<T>) -> Result<T, Failed>
    ensures value { IfOk result (λ value. done ≡ Ok value) }
    ensures counts { CountsFailure faults.old faults.new result }
    ensures called { Called (untold faults.old) (untold faults.new) result }
{
    match done {
        Ok(value) => Ok(value),
        Err(_) => {
            *faults = faults.saturating_add(1);
            Err(Failed)
        }
    }
}
