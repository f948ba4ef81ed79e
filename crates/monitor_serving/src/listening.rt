// The reader of a connection, beside the slices.
ghost use Rattle.std.specs.Prelude.{◌≡◌, length, IfOk};
ghost use Rattle.serve_host.specs.Passing as passing;
ghost use Rattle.serve_host.specs.Passing.{Reads};
ghost use Rattle.vm_outside.specs.Known.{Called, Lasts, Tells};
ghost use Rattle.monitor_serving.specs.Hearing.{HeardCause, HearsBy, IsWithin};

use pause_gate::{FlagGate, Gate, Pass};
use serve_host::{Conn, Got};
use std::sync::Wait;
use vm_outside::Failed;

/// What the reader heard.
#[derive(Clone, Copy, Drop)]
pub enum Heard {
    /// So many bytes, at the front of the buffer.
    Bytes(usize),
    /// The end of the connection.
    End,
    /// A read failed.
    Fault,
    /// Nothing, before the gate was closed, or in one read.
    Nothing,
}

// One read that fills the front of the buffer.
fn read_into<N: Conn>(conn: &mut N, buf: &mut Vec<u8>) -> Result<Got, Failed>
    ensures within { IfOk result (λ got. passing.IsWithin got (length buf.new.items)) }
    ensures bytes { Tells (N.known conn.old).health →
        Reads (N.known conn.old) (N.known conn.new) result buf.new.items }
    ensures took { Tells (N.known conn.old).health → (N.known conn.new).took ≡ (N.known conn.old).took }
    ensures called { Called (N.known conn.old).health (N.known conn.new).health result }
    ensures room { length buf.new.items ≡ length buf.old.items }
{
    conn.read(buf.as_mut_slice())
}

/// One read.
pub fn hear<N: Conn>(conn: &mut N, buf: &mut Vec<u8>) -> Heard
    ensures heard { Tells (N.known conn.old).health → HearsBy result (N.known conn.old) (N.known conn.new) buf.new.items }
    ensures within { IsWithin result (length buf.new.items) }
    ensures took { Tells (N.known conn.old).health → (N.known conn.new).took ≡ (N.known conn.old).took }
    ensures cause { HeardCause result (N.known conn.old).health.faults (N.known conn.new).health.faults }
    ensures lasts { Lasts (N.known conn.old).health (N.known conn.new).health }
    ensures room { length buf.new.items ≡ length buf.old.items }
{
    match read_into(conn, buf) {
        Err(Failed) => Heard::Fault,
        Ok(Got::End) => Heard::End,
        Ok(Got::Bytes(count)) => Heard::Bytes(count),
        Ok(Got::NotYet) => Heard::Nothing,
    }
}

/// Reads until something comes on the connection, or the gate is closed.
pub fn listen<N: Conn, R: Wait>(
    rt: &R,
    gate: &FlagGate,
    pass: &mut Pass,
    conn: &mut N,
    buf: &mut Vec<u8>,
) -> Heard
    requires { pass.old.0 ≡ gate.now }
    ensures heard { Tells (N.known conn.old).health → HearsBy result (N.known conn.old) (N.known conn.new) buf.new.items }
    ensures within { IsWithin result (length buf.new.items) }
    ensures took { Tells (N.known conn.old).health → (N.known conn.new).took ≡ (N.known conn.old).took }
    ensures cause { HeardCause result (N.known conn.old).health.faults (N.known conn.new).health.faults }
    ensures lasts { Lasts (N.known conn.old).health (N.known conn.new).health }
    ensures pass { pass.new.0 ≡ gate.now }
    ensures opened { pass.new.1.openings ≡ pass.old.1.openings }
    ensures room { length buf.new.items ≡ length buf.old.items }
{
    for _ in rt.forever() {
        match read_into(conn, buf) {
            Err(Failed) => return Heard::Fault,
            Ok(Got::End) => return Heard::End,
            Ok(Got::Bytes(count)) => return Heard::Bytes(count),
            Ok(Got::NotYet) => {
                if !gate.ask(pass) {
                    return Heard::Nothing;
                }
            }
        }
    }
    unreachable!()
}
