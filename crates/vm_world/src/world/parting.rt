// A world's parts, and the world that has them.
ghost use Rattle.std.specs.Prelude.{◌≡◌, ◌+◌, ◌≤◌, ◌^◌, [], OnErr, OnOk, length, max, vec_capacity};
ghost use Rattle.guest_pages.specs.Flat.{ArePages};
ghost use Rattle.timer_trace.specs.States.{new_timer};
ghost use Rattle.vm_world.specs.Worlds.{world_with};

use super::World;
use decoded_words::DecodedWords;
use guest_devices::Device;
use guest_pages::{Blank, Slot};
use hart_rv64::Hart;
use line_board::Board;
use mmio_port::Port;
use std::alloc::{AllocError, Global};
use std::mem::replace;
use timer_trace::Timer;

/// What a world is made of: its pages, made or not, the board, its ports, the timer, its harts and its devices, each by their numbers.
#[derive(Drop)]
pub struct WorldParts {
    pub pages: Vec<Slot>,
    pub board: Board,
    pub ports: Vec<Port>,
    pub timer: Timer,
    pub harts: Vec<Hart>,
    pub devices: Vec<Device>,
}

impl World {
    /// Makes so many pages spare, if there are fewer.
    ///
    /// Errors: want of memory, and then everything is as it was.
    pub fn reserve_spare(&mut self, alloc: Global, count: usize) -> Result<(), AllocError>
        ensures ok { OnOk result (self.new ≡ record self.old { spare = max count self.old.spare }) }
        ensures err { OnErr result (self.new ≡ self.old) }
    {
        self.pages.reserve(alloc, count)?;
        Ok(())
    }

    /// Moves so many spare pages into an empty list with room for them. It takes no memory.
    pub fn take_spare(&mut self, count: usize, pool: &mut Vec<Blank>)
        requires enough { count ≤ self.old.spare }
        requires empty { pool.old.items ≡ [] }
        requires room { count ≤ vec_capacity pool.old }
        ensures count { length pool.new.items ≡ count }
        ensures left { self.new ≡ record self.old { spare = self.new.spare } }
        ensures spare { self.new.spare + count ≡ self.old.spare }
    {
        self.pages.take_spare(count, pool);
    }

    /// These are spare again, as many of them as there is room for. It takes no memory.
    pub fn give_spare(&mut self, pool: Vec<Blank>)
        ensures left { self.new ≡ record self.old { spare = self.new.spare } }
        ensures more { self.old.spare ≤ self.new.spare }
    {
        self.pages.give_spare(pool);
    }

    /// Takes all parts out, the pages as they are, and leaves a world without pages, ports and harts and with this board. It takes no
    /// memory.
    pub fn take(&mut self, alloc: Global, board: Board) -> WorldParts
        ensures parts { record (world_with result.pages.items result.board result.ports.items result.timer result.harts.items
            result.devices.items) { spare = self.old.spare } ≡ self.old }
        ensures pages { ArePages 0 result.pages.items }
        ensures few { length result.pages.items ≤ 2 ^ 28 }
        ensures few_ports { length result.ports.items ≤ 16 }
        ensures left { self.new ≡ record (world_with [] board [] new_timer [] []) { spare = self.old.spare } }
    {
        WorldParts {
            pages: self.pages.take_pages(alloc),
            board: replace(&mut self.board, board),
            ports: replace(&mut self.ports, Vec::new(alloc)),
            timer: replace(&mut self.timer, Timer::new()),
            harts: replace(&mut self.harts, Vec::new(alloc)),
            devices: replace(&mut self.devices, Vec::new(alloc)),
        }
    }

    /// Puts these parts in the place of all that there are. It takes no memory.
    pub fn put_back(&mut self, parts: WorldParts)
        requires pages { ArePages 0 parts.pages.items }
        requires few { length parts.pages.items ≤ 2 ^ 28 }
        requires few_ports { length parts.ports.items ≤ 16 }
        ensures { self.new ≡ record (world_with parts.pages.items parts.board parts.ports.items parts.timer parts.harts.items
            parts.devices.items) { spare = self.old.spare } }
    {
        self.pages.put_pages(parts.pages);
        self.board = parts.board;
        self.ports = parts.ports;
        self.timer = parts.timer;
        self.harts = parts.harts;
        self.devices = parts.devices;
        self.words = DecodedWords::new();
    }
}
