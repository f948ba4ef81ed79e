// The whole script.
ghost use Rattle.std.specs.Prelude.{◌≡◌};
ghost use Rattle.vm_outside.specs.Known.{Called, Tells};
ghost use Rattle.vm_outside.specs.Passing.{TakesAll};
ghost use Rattle.load_gen.specs.Load.{load_script};

use crate::beginning::write_opening;
use crate::rounds::write_rounds;
use vm_outside::{Failed, Sink};

/// Writes the script of a number, without taking memory.
///
/// Errors: the sink failed, and took a front of the script and not all.
pub fn generate<K: Sink>(number: u32, sink: &mut K) -> Result<(), Failed>
    ensures takes { Tells (K.known sink.old).health →
        TakesAll (K.known sink.old).taken (K.known sink.new).taken result (load_script number) }
    ensures called { Called (K.known sink.old).health (K.known sink.new).health result }
{
    let Ok(()) = write_opening(sink, number as u64) else {
        return Err(Failed);
    };
    write_rounds(sink, number)
}
