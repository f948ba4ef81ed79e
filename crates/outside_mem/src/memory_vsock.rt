// The host's end of the vsock device in memory.
ghost use Rattle.std.specs.Prelude.{◌≡◌, ◌∷◌, [], true};
ghost use Rattle.vm_host.specs.declared.attached.Attached.TheVariants as attached;
ghost use Rattle.vm_host.specs.declared.vsock_host.HostEvent.TheVariants as event;
ghost use Rattle.vm_host.specs.Hosting.{Does, IsEvent, OrRests};
ghost use Rattle.vm_outside.specs.Known.{Called};

use crate::failing::Failing;
use crate::names::named;
use std::alloc::Global;
use std::collections::VecDeque;
use vm_host::{Attached, HostAct, HostEvent, VsockHost};
use vm_outside::Failed;
use vm_types::Piece;

/// Tells these events in order, nothing before each, and gives who dials these answers in order, then none. What is no
/// event, as bytes without a byte, ends what is told. That there is no memory is a failure.
#[derive(Drop)]
pub struct MemoryVsock {
    alloc: Global,
    sockets: Attached,
    coming: VecDeque<HostEvent>,
    is_next: bool,
    answers: VecDeque<Option<u32>>,
    done: Vec<HostAct>,
    failing: Failing,
}

impl MemoryVsock {
    /// No sockets are attached so far.
    pub fn new(
        alloc: Global,
        coming: VecDeque<HostEvent>,
        answers: VecDeque<Option<u32>>,
        failing: Failing,
    ) -> MemoryVsock
        ensures { ⟦<MemoryVsock as VsockHost>⟧.known result ≡ record {
          health = record { tells = true; faults = failing };
          sockets = attached.Nothing;
          coming = coming.items;
          answers = answers.items;
          done = [];
        } }
    {
        MemoryVsock {
            alloc,
            sockets: Attached::Nothing,
            coming,
            is_next: false,
            answers,
            done: Vec::new(alloc),
            failing,
        }
    }

    /// The sockets that the host's end is.
    pub fn sockets(&self) -> &Attached
        ensures { result.now ≡ (⟦<MemoryVsock as VsockHost>⟧.known self.now).sockets }
    {
        &self.sockets
    }

    /// What was done, the oldest first.
    pub fn done(&self) -> &[HostAct]
        ensures { result.now ≡ (⟦<MemoryVsock as VsockHost>⟧.known self.now).done }
    {
        &self.done
    }

    /// How many calls have failed.
    pub fn faults(&self) -> u64
        ensures { result ≡ (⟦<MemoryVsock as VsockHost>⟧.known self.now).health.faults }
    {
        self.failing.faults()
    }

    // Writes down what is done.
    fn does(&mut self, act: HostAct) -> Result<(), Failed>
        ensures does { OrRests (⟦<MemoryVsock as VsockHost>⟧.known self.old) (⟦<MemoryVsock as VsockHost>⟧.known self.new) result
            (λ _. Does act (⟦<MemoryVsock as VsockHost>⟧.known self.old) (⟦<MemoryVsock as VsockHost>⟧.known self.new)) }
        ensures called { Called (⟦<MemoryVsock as VsockHost>⟧.known self.old).health
            (⟦<MemoryVsock as VsockHost>⟧.known self.new).health result }
    {
        if self.failing.fails() {
            return Err(Failed);
        }
        if self.done.push(act).is_err() {
            self.failing.count();
            return Err(Failed);
        }
        Ok(())
    }
}

impl VsockHost for MemoryVsock {
    ghost use Rattle.std.specs.Prelude.{true};

    ghost known = { λ v. record {
      health = record { tells = true; faults = v.failing };
      sockets = v.sockets;
      coming = v.coming.items;
      answers = v.answers.items;
      done = v.done.items;
    } };

    /// What it tells and answers stays.
    fn attach(&mut self, device: u8, name: &str) {
        self.sockets = named(self.alloc, name);
    }

    fn next(&mut self) -> Result<HostEvent, Failed> {
        if self.failing.fails() {
            return Err(Failed);
        }
        self.is_next = !self.is_next;
        if self.is_next {
            return Ok(HostEvent::Nothing);
        }
        Ok(next_event(&mut self.coming))
    }

    fn dial(&mut self, port: u32) -> Result<Option<u32>, Failed> {
        if self.failing.fails() {
            return Err(Failed);
        }
        if self.done.reserve(1).is_err() {
            self.failing.count();
            return Err(Failed);
        }
        let answer = self.answers.pop_front().unwrap_or(None);
        self.done.push_reserved(HostAct::Dialled { port, answer });
        Ok(answer)
    }

    fn send(&mut self, connection: u32, piece: Piece) -> Result<(), Failed> {
        self.does(HostAct::Sent { connection, piece })
    }

    fn close(&mut self, connection: u32) -> Result<(), Failed> {
        self.does(HostAct::Closed { connection })
    }
}

// Takes the next event, if it is one.
fn next_event(coming: &mut VecDeque<HostEvent>) -> HostEvent
    ensures event { IsEvent result }
    ensures nothing { result ≡ event.Nothing → coming.new.items ≡ coming.old.items }
    ensures some { (result ≡ event.Nothing → ⊥) → coming.old.items ≡ result ∷ coming.new.items }
{
    let Some(event) = coming.front() else {
        return HostEvent::Nothing;
    };
    let event = *event;
    let is_some = match &event {
        HostEvent::Nothing => false,
        HostEvent::Bytes { piece, .. } => !piece.is_empty(),
        HostEvent::New { .. } | HostEvent::Ended { .. } => true,
    };
    if !is_some {
        return HostEvent::Nothing;
    }
    let _event = coming.pop_front();
    event
}
