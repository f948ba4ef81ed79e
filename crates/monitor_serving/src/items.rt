// Items of connections.
ghost use Rattle.std.specs.Prelude.{◌≡◌};
ghost use Rattle.serve_host.specs.Tracing.{Adds, TraceStays};
ghost use Rattle.vm_outside.specs.Known.{Called, Tells};
ghost use Rattle.monitor_running.specs.Objects.{with_trace};

use monitor_running::TurnObjects;
use script_text::Item;
use serve_host::Trace;
use vm_outside::Failed;

/// Tells an item to the trace.
pub fn tell_item<W: TurnObjects>(with: &mut W, item: &Item) -> Result<(), Failed>
    ensures adds { Tells (W.known with.old).trace.health →
        Adds (W.known with.old).trace.took (W.known with.new).trace.took result item.now }
    ensures stays { TraceStays (W.known with.old).trace (W.known with.new).trace }
    ensures called { Called (W.known with.old).trace.health (W.known with.new).trace.health result }
    ensures beside { W.known with.new ≡ with_trace (W.known with.old) (W.known with.new).trace }
{
    with.trace().add(item)
}
