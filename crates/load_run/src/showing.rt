// What a machine shows.
ghost use Rattle.std.specs.Prelude.{IfOk};
ghost use Rattle.vm_outside.specs.Known.{Lasts, Tells};
ghost use Rattle.flat_machine.specs.Machine.{Machine};
ghost use Rattle.monitor_core.specs.Going.{ItemGoes};
ghost use Rattle.monitor_core.specs.State.{IsMonitor};
ghost use Rattle.load_run.specs.Line.{Shows};

use crate::line::{append_number_said, said};
use crate::no_line::NoLine;
use monitor_core::Monitor;
use script_text::Item;
use std::alloc::Global;
use vm_outside::Files;
use vm_types::ByteList;

// The guest physical address of the word to which both harts add.
const WORD: u64 = 0x8021_0018;

// What the machine shows, which stays as it is.
pub fn words_of<F: Files>(
    alloc: Global,
    monitor: &mut Monitor,
    files: &mut F,
) -> Result<ByteList, NoLine>
    ensures shows { IfOk result (λ words. Tells (F.known files.old).health →
        (m : Machine) → IsMonitor monitor.old (F.known files.old) m →
        Shows m words × IsMonitor monitor.new (F.known files.new) m) }
    ensures lasts { Lasts (F.known files.old).health (F.known files.new).health }
{
    let x7 = Item::Register { hart: 0, number: 7 };
    let register = answer(monitor, x7, files)?;
    let word = Item::Memory {
        address: WORD,
        length: 8,
    };
    let memory = answer(monitor, word, files)?;
    let mut words = ByteList::copy_of(alloc, said(register.as_slice()))?;
    words.append(b" ")?;
    append_number_said(&mut words, memory.as_slice())?;
    Ok(words)
}

// What an item writes.
fn answer<F: Files>(monitor: &mut Monitor, item: Item, files: &mut F) -> Result<ByteList, NoLine>
    ensures goes { IfOk result (λ text.
        ItemGoes item text monitor.old monitor.new (F.known files.old) (F.known files.new)) }
    ensures lasts { Lasts (F.known files.old).health (F.known files.new).health }
{
    match monitor.item(item, files) {
        Ok(text) => Ok(text),
        Err(_) => Err(NoLine),
    }
}
