// All of some bytes to a connection that may take any number of them at a time.
ghost use Rattle.serve_host.specs.Passing.{Waits};
ghost use Rattle.vm_outside.specs.Known.{Called, Tells};
ghost use Rattle.vm_outside.specs.Passing.{TakesAll};

use crate::conn::Conn;
use vm_outside::Failed;

/// Writes all of these bytes. After an `Err` the connection has taken a front of them, and not all.
pub fn put_all<C: Conn>(conn: &mut C, bytes: &[u8]) -> Result<(), Failed>
    ensures takes { Tells (C.known conn.old).health →
        TakesAll (C.known conn.old).took (C.known conn.new).took result bytes.now }
    ensures waits { Tells (C.known conn.old).health → Waits (C.known conn.old) (C.known conn.new) }
    ensures called { Called (C.known conn.old).health (C.known conn.new).health result }
{
    let mut sent = 0;
    while sent < bytes.len() {
        let count = conn.write(&bytes[sent..])?;
        sent += count;
    }
    Ok(())
}
