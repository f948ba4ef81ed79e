// The end of serving: what the trace and the sink are told last.
ghost use Rattle.std.specs.Prelude.{◌≡◌, ◌≤◌, IfErr, OnOk};
ghost use Rattle.vm_outside.specs.Known.{Called, FilesKnown, Lasts, Tells};
ghost use Rattle.vm_outside.specs.Passing.{TakesAll};
ghost use Rattle.serve_host.specs.Drawing.{WordsKnown};
ghost use Rattle.serve_host.specs.Listening.{ListenerKnown};
ghost use Rattle.serve_host.specs.Tracing.{TraceStays};
ghost use Rattle.command_line.specs.Commands.{ServeWords};
ghost use Rattle.flat_machine.specs.Machine.{Machine, console_of};
ghost use Rattle.monitor_core.specs.State.{IsMonitor};
ghost use Rattle.monitor_running.specs.Asked.{HostKnown};
ghost use Rattle.monitor_running.specs.Reached.{known};
ghost use Rattle.monitor_serving.specs.Views.{hosts};
ghost use Rattle.firecracker_cli.specs.Closing.{CloseFault, Drains, EndsOr, last_shown};
ghost use Rattle.firecracker_cli.specs.Serving.{ServeKnown, closing_line, serve_known};
ghost use Rattle.firecracker_cli.specs.SoFar.{LeftBy, ServedSoFar};

use monitor_core::Monitor;
use script_text::Item;
use serve_host::Trace;
use vm_outside::{Failed, Sink, write_all};
use vm_types::{Exit, Object};

// What the console still holds is drained, as a slice drains it: its item goes to the trace, and then its bytes to the sink.
fn drain_rest<T: Trace, K: Sink>(
    monitor: &Monitor,
    trace: &mut T,
    sink: &mut K,
) -> Result<(), Object>
    ensures drains { Tells (T.known trace.old).health → Tells (K.known sink.old).health →
        (known : FilesKnown) (m : Machine) → IsMonitor monitor.now known m →
        Drains result m (console_of m) (T.known trace.old).took (K.known sink.old).taken
        (T.known trace.new).took (K.known sink.new).taken }
    ensures cause { IfErr result (λ object. CloseFault object
        (T.known trace.old).health (T.known trace.new).health (K.known sink.old).health (K.known sink.new).health) }
    ensures trace_lasts { Lasts (T.known trace.old).health (T.known trace.new).health }
    ensures trace_stays { TraceStays (T.known trace.old) (T.known trace.new) }
    ensures sink_lasts { Lasts (K.known sink.old).health (K.known sink.new).health }
{
    if monitor.console().is_empty() {
        return Ok(());
    }
    let Ok(()) = trace.add(&Item::Console) else {
        return Err(Object::Trace);
    };
    let Ok(()) = write_all(sink, monitor.console()) else {
        return Err(Object::Sink);
    };
    Ok(())
}

// Tells the sink that the guest is off, where it is.
fn write_off<K: Sink>(monitor: &Monitor, sink: &mut K) -> Result<(), Failed>
    ensures takes { Tells (K.known sink.old).health →
        (known : FilesKnown) (m : Machine) → IsMonitor monitor.now known m →
        TakesAll (K.known sink.old).taken (K.known sink.new).taken result (closing_line m) }
    ensures called { Called (K.known sink.old).health (K.known sink.new).health result }
{
    if monitor.is_off() {
        return write_all(sink, b". off\n");
    }
    Ok(())
}

// Puts all that the trace took where it is kept.
fn finish_trace<T: Trace>(trace: &mut T) -> Result<(), Failed>
    ensures keeps { OnOk result (Tells (T.known trace.old).health → (T.known trace.new).kept ≡ (T.known trace.new).took) }
    ensures same { Tells (T.known trace.old).health → (T.known trace.new).took ≡ (T.known trace.old).took }
    ensures stays { TraceStays (T.known trace.old) (T.known trace.new) }
    ensures called { Called (T.known trace.old).health (T.known trace.new).health result }
{
    trace.finish()
}

// All that is left to be told where serving came to its end. The trace is finished before the last line is there.
fn tell_end<T: Trace, K: Sink>(monitor: &Monitor, trace: &mut T, sink: &mut K) -> Result<(), Object>
    ensures keeps { OnOk result (Tells (T.known trace.old).health → (T.known trace.new).kept ≡ (T.known trace.new).took) }
    ensures drains { Tells (T.known trace.old).health → Tells (K.known sink.old).health →
        (known : FilesKnown) (m : Machine) → IsMonitor monitor.now known m →
        Drains result m (last_shown m) (T.known trace.old).took (K.known sink.old).taken
        (T.known trace.new).took (K.known sink.new).taken }
    ensures cause { IfErr result (λ object. CloseFault object
        (T.known trace.old).health (T.known trace.new).health (K.known sink.old).health (K.known sink.new).health) }
    ensures trace_lasts { Lasts (T.known trace.old).health (T.known trace.new).health }
    ensures trace_stays { TraceStays (T.known trace.old) (T.known trace.new) }
    ensures sink_lasts { Lasts (K.known sink.old).health (K.known sink.new).health }
{
    if let Err(object) = drain_rest(monitor, trace, sink) {
        return Err(object);
    }
    let Ok(()) = finish_trace(trace) else {
        return Err(Object::Trace);
    };
    let Ok(()) = write_off(monitor, sink) else {
        return Err(Object::Sink);
    };
    Ok(())
}

/// Where serving came to its end, drains the console, finishes the trace, and tells the sink that the guest is off, if it is.
/// Where serving broke off, or that can't be told, the trace is finished as far as it can be. How the command ends then.
pub fn close<T: Trace, K: Sink>(exit: Exit, monitor: &Monitor, trace: &mut T, sink: &mut K) -> Exit
    ensures so_far { Tells (T.known trace.old).health → Tells (K.known sink.old).health →
        (it : ServeWords) (before : ServeKnown) (host : HostKnown) (files : FilesKnown) (words : WordsKnown)
        (listener : ListenerKnown) →
        before.hosts.slices.trace.health.faults ≤ (T.known trace.old).health.faults →
        LeftBy exit monitor.now it before
        (serve_known (hosts (known (T.known trace.old) (K.known sink.old) host) files) words listener) →
        ServedSoFar result it before
        (serve_known (hosts (known (T.known trace.new) (K.known sink.new) host) files) words listener) }
    ensures cause { EndsOr exit result
        (T.known trace.old).health (T.known trace.new).health (K.known sink.old).health (K.known sink.new).health }
    ensures trace_lasts { Lasts (T.known trace.old).health (T.known trace.new).health }
    ensures trace_stays { TraceStays (T.known trace.old) (T.known trace.new) }
    ensures sink_lasts { Lasts (K.known sink.old).health (K.known sink.new).health }
{
    match exit {
        Exit::Done => match tell_end(monitor, trace, sink) {
            Ok(()) => Exit::Done,
            Err(object) => {
                let _ = finish_trace(trace);
                Exit::Fault(object)
            }
        },
        other => {
            let _ = trace.finish();
            other
        }
    }
}
