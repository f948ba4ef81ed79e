// The monitor.
ghost use Rattle.std.specs.Prelude.{◌≡◌, IfOk, IfErr, List, ℕ};
ghost use Rattle.vm_outside.specs.Known.{FilesKnown, Lasts};
ghost use Rattle.flat_machine.specs.Machine.{Machine, is_off, console_of, new_machine};

use crate::item_error::ItemError;
use gate_file::save_file;
use http_front::Front;
use monitor_machine::LiveMachine;
use responses::ResponseForm;
use script_text::Item;
use std::alloc::{AllocError, Global};
use vm_outside::{Failed, Files};
use vm_types::{ByteList, TextList};

mod replying;
mod serving;

/// A machine, and the connection on which requests come to it.
#[derive(Drop)]
pub struct Monitor {
    alloc: Global,
    front: Front,
    machine: LiveMachine,
}

impl Monitor {
    ghost use Rattle.monitor_core.specs.Going.{ItemGoes, ItemStops};
    ghost use Rattle.monitor_core.specs.State.{IsMonitor};

    /// A machine that has not started, with a new connection.
    pub fn new(alloc: Global, id: TextList) -> Result<Monitor, AllocError>
        ensures { IfOk result (λ monitor. (known : FilesKnown) →
            IsMonitor monitor known (new_machine id known.saved known.calls)) }
    {
        let front = Front::new(alloc)?;
        Ok(Monitor {
            alloc,
            front,
            machine: LiveMachine::new(alloc, id),
        })
    }

    /// One item of a script, over these files: what it writes. Everything that the connection gives with the item's bytes
    /// is answered in order; what comes to a failed call on the files, or has no memory, is answered so. After an
    /// `Err` the machine is as what was answered before left it, and what is still due stays on the connection; of the
    /// files a file line's own name may hold anything.
    ///
    /// Errors: `FilesFailed` where a call on the files failed at a file line; `OutOfMemory` where there was
    /// no memory, not even for an answer that says so.
    pub fn item<F: Files>(&mut self, item: Item, files: &mut F) -> Result<ByteList, ItemError>
        ensures goes { IfOk result (λ text.
            ItemGoes item text self.old self.new (F.known files.old) (F.known files.new)) }
        ensures stops { IfErr result (λ why.
            ItemStops why item self.old self.new (F.known files.old) (F.known files.new)) }
        ensures lasts { Lasts (F.known files.old).health (F.known files.new).health }
    {
        match item {
            Item::Nothing => Ok(ByteList::new(self.alloc)),
            Item::File { name, content } => {
                match save_file(files, name.as_str(), content.as_slice()) {
                    Ok(()) => Ok(ByteList::new(self.alloc)),
                    Err(Failed) => Err(ItemError::FilesFailed),
                }
            }
            Item::Lineage { lineage } => {
                self.set_lineage(lineage);
                Ok(ByteList::new(self.alloc))
            }
            Item::Connect => {
                self.connect();
                Ok(ByteList::new(self.alloc))
            }
            Item::Bytes { bytes } => Ok(self.take_bytes(
                ResponseForm::Line,
                bytes.as_slice(),
                files,
            )?),
            Item::Api { method, path, body } => Ok(self.take_request(
                method.as_slice(),
                path.as_slice(),
                body.as_slice(),
                files,
            )?),
            Item::Step { actor, count } => Ok(self.machine.step(actor, count)?),
            Item::Reply { actor, reply } => Ok(self.machine.reply(actor, &reply)?),
            Item::Console => Ok(self.machine.take_console()?),
            Item::Register { hart, number } => Ok(self.machine.register(hart, number)?),
            Item::Memory { address, length } => Ok(self.machine.memory(address, length)?),
        }
    }

    /// Whether the guest is off.
    pub fn is_off(&self) -> bool
        ensures { (known : FilesKnown) (m : Machine) → IsMonitor self.now known m → result ≡ is_off m }
    {
        self.machine.is_off()
    }

    /// The console's bytes that were not drained.
    pub fn console(&self) -> &[u8]
        ensures { (known : FilesKnown) (m : Machine) → IsMonitor self.now known m → result.now ≡ console_of m }
    {
        self.machine.console()
    }
}
