// What is written when a script is done.
ghost use Rattle.std.specs.Prelude.{◌≡◌, IfOk};
ghost use Rattle.vm_outside.specs.Known.{FilesKnown, Lasts, Tells};
ghost use Rattle.flat_machine.specs.Machine.{Machine};
ghost use Rattle.flat_machine.specs.Replay.{closing};
ghost use Rattle.monitor_core.specs.State.{IsMonitor};
ghost use Rattle.monitor_cli.specs.Answering.{ClosesBy, IsClosing};
ghost use Rattle.monitor_cli.specs.Known.{SinkCause};

use monitor_core::Monitor;
use responses::console_line;
use std::alloc::{AllocError, Global};
use vm_outside::{Failed, Sink, write_all};
use vm_types::{ByteList, Exit, Object};

/// Writes what the console holds, and that the guest is off where it is. The answer is how the replay ends: `Done`,
/// `Fault` of a sink that failed, or `OutOfMemory`.
pub fn write_closing<K: Sink>(alloc: Global, monitor: &Monitor, sink: &mut K) -> Exit
    ensures closes { Tells (K.known sink.old).health → (known : FilesKnown) (m : Machine) → IsMonitor monitor.now known m →
        ClosesBy result (closing Exit.Done m) (K.known sink.old).taken (K.known sink.new).taken }
    ensures some { IsClosing result }
    ensures cause { SinkCause result (K.known sink.old).health.faults (K.known sink.new).health.faults }
    ensures lasts { Lasts (K.known sink.old).health (K.known sink.new).health }
{
    let Ok(text) = closing_text(alloc, monitor) else {
        return Exit::OutOfMemory;
    };
    match write_all(sink, text.as_slice()) {
        Ok(()) => Exit::Done,
        Err(Failed) => Exit::Fault(Object::Sink),
    }
}

fn closing_text(alloc: Global, monitor: &Monitor) -> Result<ByteList, AllocError>
    ensures { IfOk result (λ text. (known : FilesKnown) (m : Machine) → IsMonitor monitor.now known m →
        text ≡ closing Exit.Done m) }
{
    let mut text = console_line(alloc, monitor.console())?;
    if monitor.is_off() {
        text.append(b". off\n")?;
        return Ok(text);
    }
    Ok(text)
}
