// The last line of a run.
ghost use Rattle.std.specs.Prelude.{◌≡◌};
ghost use Rattle.responses.specs.Output.{last_line};
ghost use Rattle.vm_outside.specs.Known.{Called, Tells};
ghost use Rattle.vm_outside.specs.Passing.{TakesAll};
ghost use Rattle.monitor_cli.specs.Taking.{IsQuiet};

use itoa::Buffer;
use vm_outside::{Failed, Sink, write_all, write_three};
use vm_types::{Exit, Object};

/// Writes the last line of a run that ended so, without taking memory. After an `Err` the sink has taken a
/// front of it, and not all.
pub fn write_last<K: Sink>(sink: &mut K, exit: Exit) -> Result<(), Failed>
    ensures takes { Tells (K.known sink.old).health →
        TakesAll (K.known sink.old).taken (K.known sink.new).taken result (last_line exit) }
    ensures quiet { IsQuiet exit → sink.new ≡ sink.old }
    ensures called { Called (K.known sink.old).health (K.known sink.new).health result }
{
    match exit {
        Exit::Done => Ok(()),
        Exit::Usage => write_all(sink, b". usage\n"),
        Exit::Script { line } => write_script_line(sink, line),
        Exit::Fault(name) => write_fault_line(sink, name),
        Exit::OutOfMemory => write_all(sink, b". memory\n"),
    }
}

fn write_script_line<K: Sink>(sink: &mut K, line: u64) -> Result<(), Failed>
    ensures takes { Tells (K.known sink.old).health →
        TakesAll (K.known sink.old).taken (K.known sink.new).taken result (last_line (Exit.Script line)) }
    ensures called { Called (K.known sink.old).health (K.known sink.new).health result }
{
    let mut buffer = Buffer::new();
    let number = buffer.format(line).as_bytes();
    write_three(sink, b". script ", number, b"\n")
}

fn write_fault_line<K: Sink>(sink: &mut K, name: Object) -> Result<(), Failed>
    ensures takes { Tells (K.known sink.old).health →
        TakesAll (K.known sink.old).taken (K.known sink.new).taken result (last_line (Exit.Fault name)) }
    ensures quiet { IsQuiet (Exit.Fault name) → sink.new ≡ sink.old }
    ensures called { Called (K.known sink.old).health (K.known sink.new).health result }
{
    match name {
        Object::Source => write_all(sink, b". fault Source\n"),
        Object::Sink => Ok(()),
        Object::Files => write_all(sink, b". fault Files\n"),
        Object::Trace => write_all(sink, b". fault Trace\n"),
        Object::Listener => write_all(sink, b". fault Listener\n"),
        Object::Words => write_all(sink, b". fault Words\n"),
    }
}
