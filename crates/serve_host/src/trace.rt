// Where what happened goes, item by item.
ghost use Rattle.std.specs.Prelude.{◌≡◌, OnOk};
ghost use Rattle.serve_host.specs.Events.{event_items};
ghost use Rattle.serve_host.specs.Tracing.{Adds, AddsAll, KeepsSame, Opens, TraceStays, steps_of};
ghost use Rattle.vm_outside.specs.Known.{Called, Tells};

use script_text::Item;
use vm_outside::Failed;
use vm_types::{ActorId, Entry};

/// Takes items in order.
pub trait Trace: Drop {
    ghost use Rattle.serve_host.specs.Tracing.{TraceKnown};

    ghost known: { Self → TraceKnown };

    /// Opens a new trace under this path, in the place of what is there. What it takes from now on goes there.
    fn open(&mut self, path: &str) -> Result<(), Failed>
        ensures opens { Tells (known self.old).health → Opens (known self.old) path.now result (known self.new) }
        ensures called { Called (known self.old).health (known self.new).health result };

    /// Takes an item. After an `Err` it has taken none.
    fn add(&mut self, item: &Item) -> Result<(), Failed>
        ensures adds { Tells (known self.old).health →
            Adds (known self.old).took (known self.new).took result item.now }
        ensures keeps { KeepsSame (known self.old) (known self.new) }
        ensures stays { TraceStays (known self.old) (known self.new) }
        ensures called { Called (known self.old).health (known self.new).health result };

    /// Takes so many items `step ACTOR 1`, one after another. After an `Err` it has taken the first of them, or none.
    fn add_steps(&mut self, actor: ActorId, count: u64) -> Result<(), Failed>
        ensures adds { Tells (known self.old).health →
            AddsAll (known self.old).took (known self.new).took result (steps_of actor count) }
        ensures keeps { KeepsSame (known self.old) (known self.new) }
        ensures stays { TraceStays (known self.old) (known self.new) }
        ensures called { Called (known self.old).health (known self.new).health result };

    /// Takes the items of these events, one after another. After an `Err` it has taken the first of them, or none. That there is no
    /// memory for an item is a failure.
    fn add_events(&mut self, events: &[Entry]) -> Result<(), Failed>
        ensures adds { Tells (known self.old).health →
            AddsAll (known self.old).took (known self.new).took result (event_items events.now) }
        ensures keeps { KeepsSame (known self.old) (known self.new) }
        ensures stays { TraceStays (known self.old) (known self.new) }
        ensures called { Called (known self.old).health (known self.new).health result };

    /// Puts what it holds still where it is kept, and takes nothing.
    fn finish(&mut self) -> Result<(), Failed>
        ensures keeps { OnOk result (Tells (known self.old).health → (known self.new).kept ≡ (known self.old).took) }
        ensures same { Tells (known self.old).health → (known self.new).took ≡ (known self.old).took }
        ensures stays { TraceStays (known self.old) (known self.new) }
        ensures called { Called (known self.old).health (known self.new).health result };
}
