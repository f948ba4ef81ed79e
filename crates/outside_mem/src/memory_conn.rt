// A connection in memory.
ghost use Rattle.std.specs.Prelude.{◌≡◌, true, IfOk};
ghost use Rattle.outside_mem.specs.Pasts.{conn_known};
ghost use Rattle.serve_host.specs.Listening.{IsFresh};

use crate::failing::Failing;
use crate::passed::Passed;
use crate::past::Past;
use serve_host::{Conn, Got};
use std::alloc::{AllocError, Global};
use vm_outside::Failed;

/// What is given on a connection, and how: each read gives at most as many bytes as its size says, none yet where that
/// is 0, and those past the last size as many as there is room for. A write takes at most `most` bytes, and at least 1.
/// The calls of the numbers `failing`, counted from 0, are to fail.
#[derive(Drop)]
pub struct MemoryCaller {
    pub bytes: Vec<u8>,
    pub sizes: Vec<usize>,
    pub most: usize,
    pub failing: Vec<u64>,
}

/// Gives what its caller says, and takes all bytes. That there is no memory is a failure.
#[derive(Drop)]
pub struct MemoryConn {
    pub(crate) passed: Passed,
    sizes: Vec<usize>,
    reads: usize,
    most: usize,
    pub(crate) failing: Failing,
    // Where it is kept when it is over.
    pub(crate) room: Box<Past>,
}

impl MemoryConn {
    pub fn new(alloc: Global, caller: MemoryCaller) -> Result<MemoryConn, AllocError>
        ensures { IfOk result (λ conn. IsFresh (⟦<MemoryConn as Conn>⟧.known conn) caller.bytes.items) }
    {
        let room = Box::new(alloc, Past::Nothing)?;
        Ok(MemoryConn::with_room(alloc, caller, room))
    }

    // One that is kept in this room when it is over.
    pub(crate) fn with_room(alloc: Global, caller: MemoryCaller, room: Box<Past>) -> MemoryConn
        ensures { IsFresh (⟦<MemoryConn as Conn>⟧.known result) caller.bytes.items }
    {
        let MemoryCaller {
            bytes,
            sizes,
            most,
            failing,
        } = caller;
        MemoryConn {
            passed: Passed {
                bytes,
                at: 0,
                took: Vec::new(alloc),
            },
            sizes,
            reads: 0,
            most,
            failing: Failing::new(failing),
            room,
        }
    }

    /// What passed so far.
    pub fn passed(&self) -> &Passed
        ensures { ⟦<MemoryConn as Conn>⟧.known self.now ≡
            conn_known result.now (⟦<MemoryConn as Conn>⟧.known self.now).health.faults }
    {
        &self.passed
    }

    /// How many calls have failed.
    pub fn faults(&self) -> u64
        ensures { result ≡ (⟦<MemoryConn as Conn>⟧.known self.now).health.faults }
    {
        self.failing.faults()
    }
}

impl Conn for MemoryConn {
    ghost use Rattle.outside_mem.specs.Pasts.{conn_known};

    ghost known = { λ c. conn_known c.passed c.failing };

    fn read(&mut self, buf: &mut [u8]) -> Result<Got, Failed> {
        if self.failing.fails() {
            return Err(Failed);
        }
        let most = next_size(&self.sizes, &mut self.reads);
        Ok(self.passed.give(most, buf))
    }

    fn write(&mut self, bytes: &[u8]) -> Result<usize, Failed> {
        if self.failing.fails() {
            return Err(Failed);
        }
        let count = bytes.len().min(self.most.max(1));
        if self.passed.took.extend_from_slice(&bytes[..count]).is_err() {
            self.failing.count();
            return Err(Failed);
        }
        Ok(count)
    }
}

// How many bytes the next read may give.
fn next_size(sizes: &[usize], reads: &mut usize) -> usize {
    let size = sizes.get(*reads).copied();
    *reads = reads.saturating_add(1);
    size.unwrap_or(usize::MAX)
}
