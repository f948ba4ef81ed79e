// Connections one after another, with slices between them.
ghost use Rattle.std.specs.Prelude.{◌≡◌, ℕ, List, Some};
ghost use Rattle.serve_host.specs.Listening.{IsFresh, ListenerKnown, ListenerStays, TakesBack};
ghost use Rattle.serve_host.specs.Tracing.{TraceStays};
ghost use Rattle.vm_outside.specs.Known.{FilesKnown, Health, Lasts, Tells};
ghost use Rattle.monitor_running.specs.Objects.{known_with};
ghost use Rattle.monitor_serving.specs.Connections.{EndCause, GoCause, Goes, Serves, going, place, place_of, still_coming};
ghost use Rattle.monitor_serving.specs.Gating.{IsGated, StaysGated};
ghost use Rattle.monitor_serving.specs.Views.{AllLast, AllTell, hosts, hosts_of};

use crate::connection::serve_connection;
use crate::gating::Gating;
use crate::items::tell_item;
use crate::served::{Served, alone_end};
use monitor_core::Monitor;
use monitor_running::{TurnObjects, run_once};
use script_text::Item;
use serve_host::{Accepted, Conn, Listener};
use std::alloc::Global;
use std::sync::Wait;
use std::thread::Threads;
use vm_outside::{Failed, Files, Sink};
use vm_types::Object;

// Serves a connection that was accepted, unless the trace fails before.
fn serve_one<W: TurnObjects + Send, N: Conn, F: Files, K: Sink + Send, R: Threads + Wait + Sync>(
    rt: &R,
    alloc: Global,
    steps: u32,
    monitor: &mut Monitor,
    files: &mut F,
    with: &mut W,
    conn: &mut N,
    sink: &mut K,
) -> Served
    ensures serves { AllTell (hosts_of W.known K.known F.known with.old sink.old files.old) →
        (bytes : List ℕ) → IsFresh (N.known conn.old) bytes →
        (listener left : ListenerKnown) → TakesBack (N.known conn.new) listener left → Serves result
        (place monitor.old (hosts_of W.known K.known F.known with.old sink.old files.old) (still_coming bytes listener))
        (place monitor.new (hosts_of W.known K.known F.known with.new sink.new files.new) left) }
    ensures cause { (before now : Health) → EndCause result
        (hosts_of W.known K.known F.known with.old sink.old files.old)
        (hosts_of W.known K.known F.known with.new sink.new files.new) before now }
    ensures lasts { AllLast
        (hosts_of W.known K.known F.known with.old sink.old files.old)
        (hosts_of W.known K.known F.known with.new sink.new files.new) }
{
    let Ok(()) = tell_item(with, &Item::Connect) else {
        return Served::Fault(Object::Trace);
    };
    monitor.connect();
    serve_connection(rt, alloc, steps, monitor, files, with, conn, sink)
}

// The connection's end alone is no end of serving.
fn going(end: Served) -> Option<Served>
    ensures { result ≡ going end }
{
    match end {
        Served::Ended => None,
        end => Some(end),
    }
}

// A slice while nobody is connected, or a rest where nothing can run.
fn run_alone<W: TurnObjects, K: Sink, R: Threads + Wait + Sync>(
    rt: &R,
    alloc: Global,
    gating: &mut Gating,
    monitor: &mut Monitor,
    with: &mut W,
    sink: &mut K,
) -> Option<Served>
    requires { IsGated gating.old }
    ensures goes { (files : FilesKnown) (listener : ListenerKnown) →
        AllTell (hosts (known_with (W.known with.old) (K.known sink.old)) files) →
        Goes result
        (place monitor.old (hosts (known_with (W.known with.old) (K.known sink.old)) files) listener)
        (place monitor.new (hosts (known_with (W.known with.new) (K.known sink.new)) files) listener) }
    ensures cause { (files : FilesKnown) (listener : Health) → GoCause result
        (hosts (known_with (W.known with.old) (K.known sink.old)) files)
        (hosts (known_with (W.known with.new) (K.known sink.new)) files) listener listener }
    ensures trace_lasts { Lasts (W.known with.old).trace.health (W.known with.new).trace.health }
    ensures trace_stays { TraceStays (W.known with.old).trace (W.known with.new).trace }
    ensures sink_lasts { Lasts (K.known sink.old).health (K.known sink.new).health }
    ensures gated { StaysGated gating.old gating.new }
{
    let gate = &gating.gate;
    let steering = &mut gating.steering;
    alone_end(run_once(rt, alloc, monitor.machine(), with, gate, steering, sink))
}

// A connection, where one has come, or a slice.
fn serve_next<
    W: TurnObjects + Send,
    N: Conn,
    F: Files,
    M: Listener<N>,
    K: Sink + Send,
    R: Threads + Wait + Sync,
>(
    rt: &R,
    alloc: Global,
    gating: &mut Gating,
    monitor: &mut Monitor,
    files: &mut F,
    with: &mut W,
    listener: &mut M,
    sink: &mut K,
) -> Option<Served>
    requires { IsGated gating.old }
    ensures goes { AllTell (hosts_of W.known K.known F.known with.old sink.old files.old) →
        Tells (M.known listener.old).health → Goes result
        (place_of W.known K.known F.known M.known
        monitor.old with.old sink.old files.old listener.old)
        (place_of W.known K.known F.known M.known
        monitor.new with.new sink.new files.new listener.new) }
    ensures cause { GoCause result
        (hosts_of W.known K.known F.known with.old sink.old files.old)
        (hosts_of W.known K.known F.known with.new sink.new files.new)
        (M.known listener.old).health (M.known listener.new).health }
    ensures lasts { AllLast
        (hosts_of W.known K.known F.known with.old sink.old files.old)
        (hosts_of W.known K.known F.known with.new sink.new files.new) }
    ensures listener_lasts { Lasts (M.known listener.old).health (M.known listener.new).health }
    ensures listener_stays { ListenerStays (M.known listener.old) (M.known listener.new) }
    ensures gated { StaysGated gating.old gating.new }
{
    match listener.accept() {
        Err(Failed) => Some(Served::Fault(Object::Listener)),
        Ok(Accepted::Ended) => Some(Served::Ended),
        Ok(Accepted::NotYet) => run_alone(rt, alloc, gating, monitor, with, sink),
        Ok(Accepted::Conn(mut conn)) => {
            let steps = gating.steps;
            let end = serve_one(rt, alloc, steps, monitor, files, with, &mut conn, sink);
            listener.end(conn);
            going(end)
        }
    }
}

// Connections, with slices between them, until serving ends.
fn serve_all<
    W: TurnObjects + Send,
    N: Conn,
    F: Files,
    M: Listener<N>,
    K: Sink + Send,
    R: Threads + Wait + Sync,
>(
    rt: &R,
    alloc: Global,
    gating: &mut Gating,
    monitor: &mut Monitor,
    files: &mut F,
    with: &mut W,
    listener: &mut M,
    sink: &mut K,
) -> Served
    requires { IsGated gating.old }
    ensures serves { AllTell (hosts_of W.known K.known F.known with.old sink.old files.old) →
        Tells (M.known listener.old).health → Goes (Some result)
        (place_of W.known K.known F.known M.known
        monitor.old with.old sink.old files.old listener.old)
        (place_of W.known K.known F.known M.known
        monitor.new with.new sink.new files.new listener.new) }
    ensures cause { EndCause result
        (hosts_of W.known K.known F.known with.old sink.old files.old)
        (hosts_of W.known K.known F.known with.new sink.new files.new)
        (M.known listener.old).health (M.known listener.new).health }
    ensures lasts { AllLast
        (hosts_of W.known K.known F.known with.old sink.old files.old)
        (hosts_of W.known K.known F.known with.new sink.new files.new) }
    ensures listener_lasts { Lasts (M.known listener.old).health (M.known listener.new).health }
    ensures listener_stays { ListenerStays (M.known listener.old) (M.known listener.new) }
{
    for _ in rt.forever() {
        let end = serve_next(rt, alloc, gating, monitor, files, with, listener, sink);
        if let Some(end) = end {
            return end;
        }
    }
    unreachable!()
}

/// Serves connections one after another, as they come, until none comes any more or the guest is off. A connection that ends
/// or fails ends alone. Between two of them the machine runs in slices of `steps` steps at most of each actor, and where
/// nothing can run the clock rests.
pub fn serve<
    W: TurnObjects + Send,
    N: Conn,
    F: Files,
    M: Listener<N>,
    K: Sink + Send,
    R: Threads + Wait + Sync,
>(
    rt: &R,
    alloc: Global,
    steps: u32,
    monitor: &mut Monitor,
    files: &mut F,
    with: &mut W,
    listener: &mut M,
    sink: &mut K,
) -> Served
    ensures serves { AllTell (hosts_of W.known K.known F.known with.old sink.old files.old) →
        Tells (M.known listener.old).health → Goes (Some result)
        (place_of W.known K.known F.known M.known
        monitor.old with.old sink.old files.old listener.old)
        (place_of W.known K.known F.known M.known
        monitor.new with.new sink.new files.new listener.new) }
    ensures cause { EndCause result
        (hosts_of W.known K.known F.known with.old sink.old files.old)
        (hosts_of W.known K.known F.known with.new sink.new files.new)
        (M.known listener.old).health (M.known listener.new).health }
    ensures lasts { AllLast
        (hosts_of W.known K.known F.known with.old sink.old files.old)
        (hosts_of W.known K.known F.known with.new sink.new files.new) }
    ensures listener_lasts { Lasts (M.known listener.old).health (M.known listener.new).health }
    ensures listener_stays { ListenerStays (M.known listener.old) (M.known listener.new) }
{
    let Ok(mut gating) = Gating::new(alloc, steps) else {
        return Served::OutOfMemory;
    };
    serve_all(rt, alloc, &mut gating, monitor, files, with, listener, sink)
}
