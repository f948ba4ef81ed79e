// A trace in memory.
ghost use Rattle.std.specs.Prelude.{◌≡◌, ◌≤◌, ◌∷◌, ◌++◌, [], length, option_map, take, true, None, OnOk, OnErr};
ghost use Rattle.vm_outside.specs.Known.{Called};
ghost use Rattle.serve_host.specs.Events.{item_of};
ghost use Rattle.serve_host.specs.Tracing.{Adds};

use crate::failing::Failing;
use crate::item_copy::item_copy;
use script_text::Item;
use serve_host::{Trace, event_item};
use std::alloc::{AllocError, Global};
use vm_outside::Failed;
use vm_types::{ActorId, Entry, TextList};

/// Takes copies of items, under any path, and before it is opened too. That there is no memory is a failure, and a failed call
/// changes nothing.
#[derive(Drop)]
pub struct MemoryTrace {
    alloc: Global,
    path: Option<TextList>,
    took: Vec<Item>,
    // How many of those that it took are kept.
    kept: usize,
    failing: Failing,
    ghost within: { kept ≤ length took.items },
}

impl MemoryTrace {
    pub fn new(alloc: Global, failing: Failing) -> MemoryTrace
        ensures { ⟦<MemoryTrace as Trace>⟧.known result ≡ record {
          health = record { tells = true; faults = failing };
          path = None;
          took = [];
          kept = [];
        } }
    {
        MemoryTrace {
            alloc,
            path: None,
            took: Vec::new(alloc),
            kept: 0,
            failing,
        }
    }

    /// The path under which it was opened last. That made a new trace.
    pub fn path(&self) -> Option<&str>
        ensures { option_map (λ text. text.now) result ≡ (⟦<MemoryTrace as Trace>⟧.known self.now).path }
    {
        match &self.path {
            Some(path) => Some(path.as_str()),
            None => None,
        }
    }

    /// All items that it took, the oldest first.
    pub fn took(&self) -> &[Item]
        ensures { result.now ≡ (⟦<MemoryTrace as Trace>⟧.known self.now).took }
    {
        &self.took
    }

    /// Those that it took before the last `finish` that didn't fail.
    pub fn kept(&self) -> &[Item]
        ensures { result.now ≡ (⟦<MemoryTrace as Trace>⟧.known self.now).kept }
    {
        &self.took[..self.kept]
    }

    /// How many calls have failed.
    pub fn faults(&self) -> u64
        ensures { result ≡ (⟦<MemoryTrace as Trace>⟧.known self.now).health.faults }
    {
        self.failing.faults()
    }

    // The item of an event, as by `add`.
    fn add_event(&mut self, event: &Entry) -> Result<(), Failed>
        ensures adds { Adds self.old.took.items self.new.took.items result (item_of event.now) }
        ensures keeps { take self.new.kept self.new.took.items ≡ take self.old.kept self.old.took.items }
        ensures path { self.new.path ≡ self.old.path }
        ensures called { Called (⟦<MemoryTrace as Trace>⟧.known self.old).health
            (⟦<MemoryTrace as Trace>⟧.known self.new).health result }
    {
        let Ok(item) = event_item(self.alloc, event) else {
            self.failing.count();
            return Err(Failed);
        };
        self.add(&item)
    }
}

impl Trace for MemoryTrace {
    ghost use Rattle.std.specs.Prelude.{take, true};

    ghost known = { λ t. record {
      health = record { tells = true; faults = t.failing };
      path = t.path;
      took = t.took.items;
      kept = take t.kept t.took.items;
    } };

    /// The items of the trace before it are dropped.
    fn open(&mut self, path: &str) -> Result<(), Failed> {
        if self.failing.fails() {
            return Err(Failed);
        }
        let Ok(path) = TextList::copy_of(self.alloc, path) else {
            self.failing.count();
            return Err(Failed);
        };
        self.path = Some(path);
        self.kept = 0;
        self.took = Vec::new(self.alloc);
        Ok(())
    }

    fn add(&mut self, item: &Item) -> Result<(), Failed> {
        if self.failing.fails() {
            return Err(Failed);
        }
        if push_copy(self.alloc, &mut self.took, item).is_err() {
            self.failing.count();
            return Err(Failed);
        }
        Ok(())
    }

    /// Each item is a call of its own among those that may fail.
    fn add_steps(&mut self, actor: ActorId, count: u64) -> Result<(), Failed> {
        for _taken in 0..count {
            self.add(&Item::Step { actor, count: 1 })?;
        }
        Ok(())
    }

    /// Each item is a call of its own among those that may fail.
    fn add_events(&mut self, events: &[Entry]) -> Result<(), Failed> {
        let mut at = 0;
        while at < events.len() {
            self.add_event(&events[at])?;
            at += 1;
        }
        Ok(())
    }

    fn finish(&mut self) -> Result<(), Failed> {
        if self.failing.fails() {
            return Err(Failed);
        }
        self.kept = self.took.len();
        Ok(())
    }
}

fn push_copy(alloc: Global, took: &mut Vec<Item>, item: &Item) -> Result<(), AllocError>
    ensures ok { OnOk result (took.new.items ≡ took.old.items ++ item.now ∷ []) }
    ensures err { OnErr result (took.new.items ≡ took.old.items) }
{
    let copy = item_copy(alloc, item)?;
    took.push(copy)?;
    Ok(())
}
