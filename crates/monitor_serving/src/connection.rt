// One connection, from its first byte to its end.
ghost use Rattle.vm_outside.specs.Known.{Lasts, Tells};
ghost use Rattle.monitor_serving.specs.Causes.{ServedCause};
ghost use Rattle.monitor_serving.specs.Gating.{IsGated};
ghost use Rattle.monitor_serving.specs.Turns.{ServedAs};
ghost use Rattle.monitor_serving.specs.Views.{AllLast, AllTell, hosts_of, view_of};

use crate::gating::Gating;
use crate::served::Served;
use crate::turning::turn;
use monitor_core::Monitor;
use monitor_running::TurnObjects;
use serve_host::Conn;
use std::alloc::Global;
use std::sync::Wait;
use std::thread::Threads;
use vm_outside::{Files, Sink};

// Turns until the connection is over.
fn serve_turns<W: TurnObjects + Send, N: Conn, F: Files, K: Sink + Send, R: Threads + Wait + Sync>(
    rt: &R,
    alloc: Global,
    gating: &mut Gating,
    monitor: &mut Monitor,
    files: &mut F,
    with: &mut W,
    conn: &mut N,
    sink: &mut K,
) -> Served
    requires { IsGated gating.old }
    ensures served { AllTell (hosts_of W.known K.known F.known with.old sink.old files.old) →
        Tells (N.known conn.old).health → ServedAs result
        (view_of W.known K.known F.known N.known monitor.old with.old sink.old files.old conn.old)
        (view_of W.known K.known F.known N.known monitor.new with.new sink.new files.new conn.new) }
    ensures cause { ServedCause result
        (view_of W.known K.known F.known N.known monitor.old with.old sink.old files.old conn.old)
        (view_of W.known K.known F.known N.known monitor.new with.new sink.new files.new conn.new) }
    ensures lasts { AllLast
        (hosts_of W.known K.known F.known with.old sink.old files.old)
        (hosts_of W.known K.known F.known with.new sink.new files.new) }
    ensures conn_lasts { Lasts (N.known conn.old).health (N.known conn.new).health }
{
    for _ in rt.forever() {
        let end = turn(rt, alloc, gating, monitor, files, with, conn, sink);
        if let Some(end) = end {
            return end;
        }
    }
    unreachable!()
}

/// Serves a connection until it is over or the guest is off, with slices of `steps` steps at most of each actor meanwhile.
///
/// What comes goes to the trace before it is answered; all replies to the requests in it are written then. The connection
/// is over where it was read to its end, where its bytes are no request, which is answered and closes it, and where a call
/// on it fails. No fault of the files ends it: that is answered 500.
pub fn serve_connection<
    W: TurnObjects + Send,
    N: Conn,
    F: Files,
    K: Sink + Send,
    R: Threads + Wait + Sync,
>(
    rt: &R,
    alloc: Global,
    steps: u32,
    monitor: &mut Monitor,
    files: &mut F,
    with: &mut W,
    conn: &mut N,
    sink: &mut K,
) -> Served
    ensures served { AllTell (hosts_of W.known K.known F.known with.old sink.old files.old) →
        Tells (N.known conn.old).health → ServedAs result
        (view_of W.known K.known F.known N.known monitor.old with.old sink.old files.old conn.old)
        (view_of W.known K.known F.known N.known monitor.new with.new sink.new files.new conn.new) }
    ensures cause { ServedCause result
        (view_of W.known K.known F.known N.known monitor.old with.old sink.old files.old conn.old)
        (view_of W.known K.known F.known N.known monitor.new with.new sink.new files.new conn.new) }
    ensures lasts { AllLast
        (hosts_of W.known K.known F.known with.old sink.old files.old)
        (hosts_of W.known K.known F.known with.new sink.new files.new) }
    ensures conn_lasts { Lasts (N.known conn.old).health (N.known conn.new).health }
{
    let Ok(mut gating) = Gating::new(alloc, steps) else {
        return Served::OutOfMemory;
    };
    serve_turns(rt, alloc, &mut gating, monitor, files, with, conn, sink)
}
