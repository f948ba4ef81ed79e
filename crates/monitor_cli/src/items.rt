// One item, and its text to the sink.
ghost use Rattle.std.specs.Prelude.{◌≡◌, IfErr, MatchResult, OnOk};
ghost use Rattle.vm_outside.specs.Known.{Lasts};
ghost use Rattle.monitor_cli.specs.Answering.{ItemDone, ItemEnds};
ghost use Rattle.monitor_cli.specs.Known.{FilesCause, SinkCause};

use monitor_core::{ItemError, Monitor};
use script_text::Item;
use vm_outside::{Failed, Files, Sink, write_all};
use vm_types::{Exit, Object};

/// One item, and what it writes to the sink.
///
/// Errors: `Fault` of the files where they failed at a file line, and of the sink where it failed;
/// `OutOfMemory`. The sink took all of the text, none of it, or, where it failed, a part.
pub fn run_item<F: Files, K: Sink>(
    item: Item,
    monitor: &mut Monitor,
    files: &mut F,
    sink: &mut K,
) -> Result<(), Exit>
    ensures done { OnOk result (ItemDone item monitor.old monitor.new (F.known files.old) (F.known files.new)
        (K.known sink.old) (K.known sink.new)) }
    ensures ends { IfErr result (λ exit.
        ItemEnds exit item monitor.old monitor.new (F.known files.old) (F.known files.new) (K.known sink.old)
        (K.known sink.new)) }
    ensures sink { MatchResult result (λ _. (K.known sink.new).health.faults ≡ (K.known sink.old).health.faults)
        (λ exit. SinkCause exit (K.known sink.old).health.faults (K.known sink.new).health.faults) }
    ensures files { IfErr result (λ exit.
        FilesCause exit (F.known files.old).health.faults (F.known files.new).health.faults) }
    ensures lasts { Lasts (F.known files.old).health (F.known files.new).health
        × Lasts (K.known sink.old).health (K.known sink.new).health }
{
    let text = match monitor.item(item, files) {
        Ok(text) => text,
        Err(ItemError::FilesFailed) => {
            return Err(Exit::Fault(Object::Files));
        }
        Err(ItemError::OutOfMemory) => return Err(Exit::OutOfMemory),
    };
    match write_all(sink, text.as_slice()) {
        Ok(()) => Ok(()),
        Err(Failed) => Err(Exit::Fault(Object::Sink)),
    }
}
