// A turn in which nothing runs, and the reader behind it: no thread is needed.
ghost use Rattle.std.specs.Prelude.{◌≡◌, Some, length};
ghost use Rattle.vm_outside.specs.Known.{Lasts, Tells};
ghost use Rattle.monitor_machine.specs.State.{IsLive};
ghost use Rattle.monitor_running.specs.Objects.{known_with};
ghost use Rattle.monitor_running.specs.Ran.{Went};
ghost use Rattle.monitor_serving.specs.Gating.{IsGated, StaysGated};
ghost use Rattle.monitor_serving.specs.Hearing.{HeardCause, HearsBy, IsWithin};

use crate::gating::Gating;
use crate::listening::{Heard, hear};
use monitor_machine::LiveMachine;
use monitor_running::{Ran, TurnObjects, end_of_closed, is_quiet, run_once};
use serve_host::Conn;
use std::alloc::Global;
use std::sync::Wait;
use std::thread::Threads;
use vm_outside::Sink;

// One read, unless the machine has something to do: who reads might wait.
fn hear_if_quiet<N: Conn>(machine: &LiveMachine, conn: &mut N, buf: &mut Vec<u8>) -> Heard
    ensures heard { Tells (N.known conn.old).health → HearsBy result (N.known conn.old) (N.known conn.new) buf.new.items }
    ensures within { IsWithin result (length buf.new.items) }
    ensures took { Tells (N.known conn.old).health → (N.known conn.new).took ≡ (N.known conn.old).took }
    ensures cause { HeardCause result (N.known conn.old).health.faults (N.known conn.new).health.faults }
    ensures lasts { Lasts (N.known conn.old).health (N.known conn.new).health }
    ensures room { length buf.new.items ≡ length buf.old.items }
{
    if is_quiet(machine) {
        hear(conn, buf)
    } else {
        Heard::Nothing
    }
}

/// One turn, in which the clock may rest until something comes on the connection, and then one read, if nothing runs still.
pub fn run_quiet<W: TurnObjects + Send, N: Conn, K: Sink + Send, R: Threads + Wait + Sync>(
    rt: &R,
    alloc: Global,
    gating: &mut Gating,
    machine: &mut LiveMachine,
    with: &mut W,
    sink: &mut K,
    conn: &mut N,
    buf: &mut Vec<u8>,
) -> (Heard, Ran)
    requires { IsGated gating.old }
    ensures heard { Tells (N.known conn.old).health →
        HearsBy result.0 (N.known conn.old) (N.known conn.new) buf.new.items }
    ensures within { IsWithin result.0 (length buf.new.items) }
    ensures took { Tells (N.known conn.old).health → (N.known conn.new).took ≡ (N.known conn.old).took }
    ensures conn_cause { HeardCause result.0 (N.known conn.old).health.faults (N.known conn.new).health.faults }
    ensures conn_lasts { Lasts (N.known conn.old).health (N.known conn.new).health }
    ensures room { length buf.new.items ≡ length buf.old.items }
    ensures went { Went IsLive (Some result.1)
        (known_with (W.known with.old) (K.known sink.old)) machine.old
        (known_with (W.known with.new) (K.known sink.new)) machine.new }
    ensures gated { StaysGated gating.old gating.new }
    ensures opened { gating.new.reader.1.openings ≡ gating.old.reader.1.openings }
{
    let gate = &gating.gate;
    let steering = &mut gating.steering;
    let end = run_once(rt, alloc, machine, with, gate, steering, sink);
    match end {
        Some(end) => (Heard::Nothing, end),
        None => {
            let heard = hear_if_quiet(machine, conn, buf);
            (heard, end_of_closed(machine))
        }
    }
}
