// The memory that a create takes.
ghost use Rattle.std.specs.Prelude.{◌≡◌, IfOk, length};
ghost use Rattle.snap_writer.specs.Blocks.{block_size};

use crate::pages::BLOCK_SIZE;
use gate_file::zeros;
use std::alloc::{AllocError, Global};
use std::marker::Model;

/// Room for the bytes of one write, which is all the memory that a create takes.
#[derive(Drop)]
pub struct Room {
    bytes: Vec<u8>,
}

impl Model for Room {
    ghost use Rattle.std.specs.Prelude.{◌≡◌, List, ℕ, length};
    ghost use Rattle.snap_writer.specs.Blocks.{block_size};

    ghost Value = { List ℕ };

    ghost view = { λ r. r.bytes.items };

    ghost invariant = { λ r. length r.bytes.items ≡ block_size };
}

impl Room {
    /// Room of a block of `BLOCK_SIZE` bytes.
    pub fn new(alloc: Global) -> Result<Room, AllocError>
        ensures { IfOk result (λ room. length room ≡ block_size) }
    {
        Ok(Room {
            bytes: zeros(alloc, BLOCK_SIZE)?,
        })
    }

    pub(crate) fn block(&mut self) -> &mut [u8]
        ensures { length result.now ≡ block_size }
    {
        &mut self.bytes
    }
}
