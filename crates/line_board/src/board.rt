// The board: its parts, how it is made, and what is told of it.
ghost use Rattle.std.specs.Prelude.{◌≡◌, ◌≤◌, ◌-◌, ◌++◌, IfOk, false, length, min, take, drop, replicate};
ghost use Rattle.board_table.specs.Board.{new_board};

mod acts;
mod console;
mod harts;
mod registers;

use crate::board::console::move_out;
use board_table::HartState;
use std::alloc::{AllocError, Global};
use std::marker::Model;

/// Guest time that no deadline is behind at the start.
const LAST_MOMENT: u64 = 0xffff_ffff_ffff_ffff;

/// The console's bytes that were not drained, whether the guest is off, guest time, interrupt lines, and for each hart
/// the lines that it takes, its software interrupt, its deadline and its state. There are at most 32 harts.
///
/// The bytes are the first `held` of the array, so that they can be lent in one piece.
#[derive(Drop)]
pub struct Board {
    ring: Box<[u8; 4096]>,
    held: usize,
    off: bool,
    moment: u64,
    pending: u16,
    enables: Vec<u16>,
    software: Vec<bool>,
    deadlines: Vec<u64>,
    states: Vec<HartState>,
}

impl Model for Board {
    ghost use Rattle.std.specs.Prelude.{◌≡◌, ◌≤◌, length, take};
    ghost use Rattle.board_table.specs.Board.{Board as BoardValue};

    ghost Value = { BoardValue };

    ghost view = { λ b. record {
      console = take b.held b.ring.value;
      off = b.off;
      now = b.moment;
      pending = b.pending;
      enables = b.enables.items;
      software = b.software.items;
      deadlines = b.deadlines.items;
      states = b.states.items;
    } };

    ghost invariant = { λ b.
        (b.held ≤ 4096) × (length b.ring.value ≡ 4096)
        × (length b.enables.items ≡ length b.states.items)
        × (length b.software.items ≡ length b.states.items)
        × (length b.deadlines.items ≡ length b.states.items)
        × (length b.states.items ≤ 32) };
}

/// What a board keeps of each hart, in lists of one length.
#[derive(Drop)]
pub struct HartParts {
    pub enables: Vec<u16>,
    pub software: Vec<bool>,
    pub deadlines: Vec<u64>,
    pub states: Vec<HartState>,
}

impl Board {
    /// A board as a machine of so many harts starts with it.
    pub fn new(alloc: Global, harts: usize) -> Result<Board, AllocError>
        requires { harts ≤ 32 }
        ensures { IfOk result (λ board. board ≡ new_board harts) }
    {
        Ok(Board {
            ring: zeros(alloc)?,
            held: 0,
            off: false,
            moment: 0,
            pending: 0,
            enables: vec![in alloc; 0; harts]?,
            software: vec![in alloc; false; harts]?,
            deadlines: vec![in alloc; LAST_MOMENT; harts]?,
            states: first_started(alloc, harts)?,
        })
    }

    /// The board that has these parts, with the guest on: the console's bytes that were not drained, guest time in
    /// nanoseconds, the lines that are pending, and the parts of at most 32 harts.
    pub fn from_parts(
        alloc: Global,
        console: &[u8],
        now: u64,
        pending: u16,
        harts: HartParts,
    ) -> Result<Board, AllocError>
        requires console { length console.now ≤ 4096 }
        requires harts { length harts.states.items ≤ 32 }
        requires enables { length harts.enables.items ≡ length harts.states.items }
        requires software { length harts.software.items ≡ length harts.states.items }
        requires deadlines { length harts.deadlines.items ≡ length harts.states.items }
        ensures { IfOk result (λ board. board ≡ record {
          console = console.now;
          off = false;
          now = now;
          pending = pending;
          enables = harts.enables.items;
          software = harts.software.items;
          deadlines = harts.deadlines.items;
          states = harts.states.items;
        }) }
    {
        let ring = ring_of(alloc, console)?;
        Ok(Board {
            ring,
            held: console.len(),
            off: false,
            moment: now,
            pending,
            enables: harts.enables,
            software: harts.software,
            deadlines: harts.deadlines,
            states: harts.states,
        })
    }

    /// Whether the guest is off.
    pub fn is_off(&self) -> bool
        ensures { result ≡ self.now.off }
    {
        self.off
    }

    /// Guest time, in nanoseconds.
    pub fn now(&self) -> u64
        ensures { result ≡ self.now.now }
    {
        self.moment
    }

    /// The interrupt lines that are pending, line k by bit k.
    pub fn pending(&self) -> u16
        ensures { result ≡ self.now.pending }
    {
        self.pending
    }

    /// For each hart the lines that it takes, by the same bits.
    pub fn enables(&self) -> &[u16]
        ensures { result.now ≡ self.now.enables }
    {
        &self.enables
    }

    /// For each hart whether its software interrupt is pending.
    pub fn software(&self) -> &[bool]
        ensures { result.now ≡ self.now.software }
    {
        &self.software
    }

    /// For each hart the moment from which on its timer interrupt is pending, in nanoseconds of guest time.
    pub fn deadlines(&self) -> &[u64]
        ensures { result.now ≡ self.now.deadlines }
    {
        &self.deadlines
    }

    /// For each hart whether it runs.
    pub fn states(&self) -> &[HartState]
        ensures { result.now ≡ self.now.states }
    {
        &self.states
    }

    /// What was not drained of the console.
    pub fn console(&self) -> &[u8]
        ensures { result.now ≡ self.now.console }
    {
        let ring: &[u8; 4096] = &self.ring;
        &ring[..self.held]
    }

    /// Moves the ring's oldest bytes to the front of `out`, as many as ring and `out` hold, and answers how many.
    pub fn drain(&mut self, out: &mut [u8]) -> usize
        ensures count { result ≡ min (length out.old) (length self.old.console) }
        ensures bytes { out.new ≡ take result self.old.console ++ drop result out.old }
        ensures left { self.new ≡ record self.old { console = drop result self.old.console } }
    {
        let ring: &mut [u8; 4096] = &mut self.ring;
        let count = move_out(ring, self.held, out);
        self.held -= count;
        count
    }
}

fn zeros(alloc: Global) -> Result<Box<[u8; 4096]>, AllocError>
    ensures { IfOk result (λ bytes. bytes.value ≡ replicate 4096 0) }
{
    let Ok(bytes) = Box::new(alloc, [0; 4096]) else {
        return Err(AllocError);
    };
    Ok(bytes)
}

// A ring that begins with these bytes.
fn ring_of(alloc: Global, console: &[u8]) -> Result<Box<[u8; 4096]>, AllocError>
    requires { length console.now ≤ 4096 }
    ensures bytes { IfOk result (λ ring. take (length console.now) ring.value ≡ console.now) }
    ensures size { IfOk result (λ ring. length ring.value ≡ 4096) }
{
    let mut bytes = [0; 4096];
    bytes[..console.len()].copy_from_slice(console);
    let Ok(ring) = Box::new(alloc, bytes) else {
        return Err(AllocError);
    };
    Ok(ring)
}

// The states of so many harts, of which the first runs.
fn first_started(alloc: Global, harts: usize) -> Result<Vec<HartState>, AllocError>
    ensures { IfOk result (λ states. states.items ≡ (new_board harts).states) }
{
    let mut states = vec![in alloc; HartState::Stopped; harts]?;
    if harts > 0 {
        states[0] = HartState::Started;
    }
    Ok(states)
}
