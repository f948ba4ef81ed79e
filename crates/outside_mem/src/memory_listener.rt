// A listener in memory.
ghost use Rattle.std.specs.Prelude.{◌≡◌, [], option_map, true, None};
ghost use Rattle.outside_mem.specs.Pasts.{coming_in, ended_in};

use crate::failing::Failing;
use crate::memory_conn::{MemoryCaller, MemoryConn};
use crate::past::Past;
use serve_host::{Accepted, Listener};
use std::alloc::Global;
use std::collections::VecDeque;
use std::mem::replace;
use vm_outside::Failed;
use vm_types::TextList;

/// Gives the connections of its callers in order, none yet before each. That there is no memory is a failure.
#[derive(Drop)]
pub struct MemoryListener {
    alloc: Global,
    path: Option<TextList>,
    callers: VecDeque<MemoryCaller>,
    is_next: bool,
    ended: Past,
    failing: Failing,
}

impl MemoryListener {
    pub fn new(alloc: Global, callers: VecDeque<MemoryCaller>, failing: Failing) -> MemoryListener
        ensures { ⟦<MemoryListener as Listener<MemoryConn>>⟧.known result ≡ record {
          health = record { tells = true; faults = failing };
          path = None;
          coming = coming_in callers.items;
          ended = [];
        } }
    {
        MemoryListener {
            alloc,
            path: None,
            callers,
            is_next: false,
            ended: Past::Nothing,
            failing,
        }
    }

    /// The path under which it listens.
    pub fn path(&self) -> Option<&str>
        ensures { option_map (λ text. text.now) result ≡ (⟦<MemoryListener as Listener<MemoryConn>>⟧.known self.now).path }
    {
        match &self.path {
            Some(path) => Some(path.as_str()),
            None => None,
        }
    }

    /// The connections that are over, the newest first.
    pub fn ended(&self) -> &Past
        ensures { ended_in result.now ≡ (⟦<MemoryListener as Listener<MemoryConn>>⟧.known self.now).ended }
    {
        &self.ended
    }

    /// How many calls have failed.
    pub fn faults(&self) -> u64
        ensures { result ≡ (⟦<MemoryListener as Listener<MemoryConn>>⟧.known self.now).health.faults }
    {
        self.failing.faults()
    }
}

impl Listener<MemoryConn> for MemoryListener {
    ghost use Rattle.std.specs.Prelude.{true};
    ghost use Rattle.outside_mem.specs.Pasts.{coming_in, ended_in};

    ghost known = { λ l. record {
      health = record { tells = true; faults = l.failing };
      path = l.path;
      coming = coming_in l.callers.items;
      ended = ended_in l.ended;
    } };

    fn listen(&mut self, path: &str) -> Result<(), Failed> {
        if self.failing.fails() {
            return Err(Failed);
        }
        let Ok(path) = TextList::copy_of(self.alloc, path) else {
            self.failing.count();
            return Err(Failed);
        };
        self.path = Some(path);
        Ok(())
    }

    fn accept(&mut self) -> Result<Accepted<MemoryConn>, Failed> {
        if self.failing.fails() {
            return Err(Failed);
        }
        let is_nobody_left = self.callers.is_empty();
        if is_nobody_left {
            return Ok(Accepted::Ended);
        }
        self.is_next = !self.is_next;
        if self.is_next {
            return Ok(Accepted::NotYet);
        }
        // The room is made before the caller is taken, so that none is lost.
        let Ok(room) = Box::new(self.alloc, Past::Nothing) else {
            self.failing.count();
            return Err(Failed);
        };
        let caller = self.callers.pop_front().unwrap();
        Ok(Accepted::Conn(MemoryConn::with_room(self.alloc, caller, room)))
    }

    fn end(&mut self, conn: MemoryConn) {
        let MemoryConn {
            passed,
            failing,
            room,
            ..
        } = conn;
        let mut before = room;
        *before = replace(&mut self.ended, Past::Nothing);
        self.ended = Past::Conn {
            passed,
            faults: failing.faults(),
            before,
        };
    }
}
