// A connection.
ghost use Rattle.std.specs.Prelude.{◌≡◌, ◌≤◌, ◌<◌, length, IfOk};
ghost use Rattle.serve_host.specs.Passing.{IsWithin, Reads, Waits};
ghost use Rattle.vm_outside.specs.Known.{Called, Tells};
ghost use Rattle.vm_outside.specs.Passing.{Writes};

use vm_outside::Failed;

/// What a read found.
#[derive(Clone, Copy, Debug, Drop)]
pub enum Got {
    /// So many bytes, at least one.
    Bytes(usize),
    /// No byte has come so far, or there is no room for one.
    NotYet,
    /// No byte comes any more.
    End,
}

/// Gives bytes in order, each once, and takes bytes in order.
pub trait Conn: Drop {
    ghost use Rattle.serve_host.specs.Passing.{ConnKnown};

    ghost known: { Self → ConnKnown };

    /// Puts some of the next bytes at the front of `buf`. It doesn't wait for them.
    fn read(&mut self, buf: &mut [u8]) -> Result<Got, Failed>
        ensures within { IfOk result (λ got. IsWithin got (length buf.new)) }
        ensures bytes { Tells (known self.old).health → Reads (known self.old) (known self.new) result buf.new }
        ensures took { Tells (known self.old).health → (known self.new).took ≡ (known self.old).took }
        ensures called { Called (known self.old).health (known self.new).health result };

    /// Takes some of the first bytes, at least one where there are any, and answers how many.
    fn write(&mut self, bytes: &[u8]) -> Result<usize, Failed>
        ensures bound { IfOk result (λ n. n ≤ length bytes.now) }
        ensures some { IfOk result (λ n. 0 < length bytes.now → 0 < n) }
        ensures bytes { Tells (known self.old).health →
            Writes (known self.old).took (known self.new).took result bytes.now }
        ensures waits { Tells (known self.old).health → Waits (known self.old) (known self.new) }
        ensures called { Called (known self.old).health (known self.new).health result };
}
