// Slices in a thread of their own, and the reader in this one; or both in this one, where nothing runs.
ghost use Rattle.std.specs.Prelude.{◌≡◌, Some, length};
ghost use Rattle.vm_outside.specs.Known.{Lasts, Tells};
ghost use Rattle.monitor_machine.specs.State.{IsLive};
ghost use Rattle.monitor_running.specs.Objects.{known_with};
ghost use Rattle.monitor_running.specs.Ran.{Went};
ghost use Rattle.monitor_serving.specs.Gating.{ArePasses, IsGated, StaysGated};
ghost use Rattle.monitor_serving.specs.Hearing.{HeardCause, HearsBy, IsWithin};

use crate::gating::Gating;
use crate::listening::{Heard, listen};
use crate::quiet::run_quiet;
use monitor_machine::LiveMachine;
use monitor_running::{Ran, TurnObjects, is_quiet, run_while};
use serve_host::Conn;
use std::alloc::Global;
use std::sync::Wait;
use std::thread::{Threads, join_mut};
use vm_outside::Sink;

// Slices until something is heard of the connection, or they end by themselves. Whichever ends first closes the gate. Where no
// thread can be made for the slices, something is heard first, and they find the gate closed: the guest stands still, and
// requests are answered.
fn run_in_threads<W: TurnObjects + Send, N: Conn, K: Sink + Send, R: Threads + Wait + Sync>(
    rt: &R,
    alloc: Global,
    gating: &mut Gating,
    machine: &mut LiveMachine,
    with: &mut W,
    sink: &mut K,
    conn: &mut N,
    buf: &mut Vec<u8>,
) -> (Heard, Ran)
    requires { IsGated gating.old }
    ensures heard { Tells (N.known conn.old).health →
        HearsBy result.0 (N.known conn.old) (N.known conn.new) buf.new.items }
    ensures within { IsWithin result.0 (length buf.new.items) }
    ensures took { Tells (N.known conn.old).health → (N.known conn.new).took ≡ (N.known conn.old).took }
    ensures conn_cause { HeardCause result.0 (N.known conn.old).health.faults (N.known conn.new).health.faults }
    ensures conn_lasts { Lasts (N.known conn.old).health (N.known conn.new).health }
    ensures room { length buf.new.items ≡ length buf.old.items }
    ensures went { Went IsLive (Some result.1)
        (known_with (W.known with.old) (K.known sink.old)) machine.old
        (known_with (W.known with.new) (K.known sink.new)) machine.new }
    ensures gated { StaysGated gating.old gating.new }
    ensures opened { gating.new.reader.1.openings ≡ gating.old.reader.1.openings }
{
    let gate = &gating.gate;
    let steering = &mut gating.steering;
    let reader = &mut gating.reader;
    let mut read = || -> Heard
        requires { reader.now.0 ≡ gate.now }
        ensures heard { Tells (N.known conn.entry.now).health →
            HearsBy result (N.known conn.entry.now) (N.known conn.exit.now) buf.exit.now.items }
        ensures within { IsWithin result (length buf.exit.now.items) }
        ensures took { Tells (N.known conn.entry.now).health →
            (N.known conn.exit.now).took ≡ (N.known conn.entry.now).took }
        ensures cause { HeardCause result
            (N.known conn.entry.now).health.faults (N.known conn.exit.now).health.faults }
        ensures lasts { Lasts (N.known conn.entry.now).health (N.known conn.exit.now).health }
        ensures room { length buf.exit.now.items ≡ length buf.entry.now.items }
        ensures reader { reader.exit.now.0 ≡ gate.entry.now }
        ensures opened { reader.exit.now.1.openings ≡ reader.entry.now.1.openings }
    {
        let heard = listen(rt, gate, reader, conn, buf);
        gate.close(reader);
        heard
    };
    let also_rt = rt;
    let also_gate = gate;
    let mut run = || -> Ran
        requires { ArePasses also_gate.now steering.now.passes.items }
        ensures went { Went IsLive (Some result)
            (known_with (W.known with.entry.now) (K.known sink.entry.now)) machine.entry.now
            (known_with (W.known with.exit.now) (K.known sink.exit.now)) machine.exit.now }
        ensures passes { ArePasses also_gate.entry.now steering.exit.now.passes.items }
    {
        let ran = run_while(also_rt, alloc, machine, with, also_gate, steering, sink);
        let passes = &mut steering.passes;
        also_gate.close(&mut passes[0]);
        ran
    };
    let (ran, heard) = join_mut(rt, &mut run, &mut read);
    (heard, ran)
}

/// Turns, and what is heard of the connection meanwhile. Where nothing runs it is one turn with a read behind it. Else turns are made
/// in a thread of their own until something is heard, or they end by themselves.
pub fn run_beside<W: TurnObjects + Send, N: Conn, K: Sink + Send, R: Threads + Wait + Sync>(
    rt: &R,
    alloc: Global,
    gating: &mut Gating,
    machine: &mut LiveMachine,
    with: &mut W,
    sink: &mut K,
    conn: &mut N,
    buf: &mut Vec<u8>,
) -> (Heard, Ran)
    requires { IsGated gating.old }
    ensures heard { Tells (N.known conn.old).health →
        HearsBy result.0 (N.known conn.old) (N.known conn.new) buf.new.items }
    ensures within { IsWithin result.0 (length buf.new.items) }
    ensures took { Tells (N.known conn.old).health → (N.known conn.new).took ≡ (N.known conn.old).took }
    ensures conn_cause { HeardCause result.0 (N.known conn.old).health.faults (N.known conn.new).health.faults }
    ensures conn_lasts { Lasts (N.known conn.old).health (N.known conn.new).health }
    ensures room { length buf.new.items ≡ length buf.old.items }
    ensures went { Went IsLive (Some result.1)
        (known_with (W.known with.old) (K.known sink.old)) machine.old
        (known_with (W.known with.new) (K.known sink.new)) machine.new }
    ensures gated { StaysGated gating.old gating.new }
    ensures opened { gating.new.reader.1.openings ≡ gating.old.reader.1.openings }
{
    if is_quiet(machine) {
        return run_quiet(rt, alloc, gating, machine, with, sink, conn, buf);
    }
    run_in_threads(rt, alloc, gating, machine, with, sink, conn, buf)
}
