// The machine.
ghost use Rattle.std.specs.Prelude.{◌≡◌};
ghost use Rattle.vm_outside.specs.Known.{FilesKnown};
ghost use Rattle.flat_machine.specs.Machine.{Machine, is_off, console_of, new_machine};

use api_rules::Ids;
pub use lines::drain_all;
use metadata_store::Store;
use monitor_plans::TakenConfig;
use std::alloc::Global;
use std::marker::Model;
use vm_types::TextList;
use vm_world::World;

mod creating;
mod drives;
mod lines;
mod objects;
mod planning;
mod replying;
mod running;
mod telling;

/// A machine: its id, its lineage with the snapshots that it knows, what was configured, the metadata, the guest once it
/// has started, and whether that stands still. Each is a ready machine (`IsReadyLive`): its guest has what is configured, each
/// copy of it is one that a state file can have, and its snapshots have numbers.
#[derive(Drop)]
pub struct LiveMachine {
    alloc: Global,
    id: TextList,
    ids: Ids,
    config: TakenConfig,
    metadata: Store,
    guest: Option<World>,
    paused: bool,
}

impl Model for LiveMachine {
    ghost use Rattle.std.specs.Coded.{codes};
    ghost use Rattle.metadata_store.specs.Code.{data_code};
    ghost use Rattle.monitor_machine.specs.Live.{Live};

    ghost Value = { Live };

    ghost coded = { Prim.hlevel (codes, data_code) };

    ghost use Rattle.monitor_machine.specs.Seen.{live_of};
    ghost use Rattle.monitor_machine.specs.Ready.{IsReadyLive};

    ghost view = { live_of };

    ghost invariant = { λ m. IsReadyLive (live_of m) };
}

impl LiveMachine {
    ghost use Rattle.monitor_machine.specs.State.{IsMachine};

    /// A machine of this id that has not started.
    pub fn new(alloc: Global, id: TextList) -> LiveMachine
        ensures { (known : FilesKnown) → IsMachine result known (new_machine id known.saved known.calls) }
    {
        LiveMachine {
            alloc,
            id,
            ids: Ids {
                lineage: 0,
                base: None,
                next: 1,
            },
            config: TakenConfig::new(alloc),
            metadata: Store::new(alloc),
            guest: None,
            paused: false,
        }
    }

    /// Takes this lineage.
    pub fn set_lineage(&mut self, lineage: u64)
        ensures { (known : FilesKnown) (m : Machine) → IsMachine self.old known m →
            IsMachine self.new known (record m { ids = record m.ids { lineage = lineage } }) }
    {
        self.ids.lineage = lineage;
    }

    /// Whether the guest is off.
    pub fn is_off(&self) -> bool
        ensures { (known : FilesKnown) (m : Machine) → IsMachine self.now known m → result ≡ is_off m }
    {
        match &self.guest {
            None => false,
            Some(guest) => guest.is_off(),
        }
    }

    /// The console's bytes that were not drained.
    pub fn console(&self) -> &[u8]
        ensures { (known : FilesKnown) (m : Machine) → IsMachine self.now known m → result.now ≡ console_of m }
    {
        match &self.guest {
            None => &[],
            Some(guest) => guest.console(),
        }
    }
}
