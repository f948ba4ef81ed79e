// The command `serve`.
ghost use Rattle.std.specs.Prelude.{◌≡◌, IfErr, OnErr, OnOk, Some};
ghost use Rattle.vm_outside.specs.Known.{FilesKnown, Health, Lasts, Tells};
ghost use Rattle.serve_host.specs.Listening.{SameConnections};
ghost use Rattle.serve_host.specs.Tracing.{TraceStays};
ghost use Rattle.command_line.specs.Said.{words_said};
ghost use Rattle.flat_machine.specs.Machine.{new_machine};
ghost use Rattle.monitor_core.specs.State.{IsMonitor};
ghost use Rattle.firecracker_cli.specs.Serving.{OpensPart, ServeCause, Serves, ServersLast, ServersTell, serve_known_of, took_before, traced_at};
ghost use Rattle.firecracker_cli.specs.SoFar.{BeginCause, ServedSoFar, TakesLineage, exit_of};

use crate::closing::close;
use crate::outside::ServeOutside;
use command_line::ServeWords;
use monitor_cli::write_last;
use monitor_core::Monitor;
use monitor_serving::{Served, serve};
use script_text::Item;
use serve_host::{Conn, Listener, Trace, Words};
use std::alloc::Global;
use std::sync::Wait;
use std::thread::Threads;
use vm_host::{Clock, Disk, GuestWords, Link, VsockHost};
use vm_outside::{Failed, Files, Sink};
use vm_types::{Exit, Object, TextList};

// Listens, and then opens the trace, if one is kept. Where another serves under this path, its trace is left as it is.
fn open<N: Conn, M: Listener<N>, T: Trace>(
    words: ServeWords<'_>,
    listener: &mut M,
    trace: &mut T,
) -> Result<(), Object>
    ensures part { OnErr result (Tells (M.known listener.old).health → Tells (T.known trace.old).health →
        OpensPart (words_said words.entry) (M.known listener.old) (T.known trace.old) (M.known listener.new) (T.known trace.new)) }
    ensures same { Tells (M.known listener.old).health → SameConnections (M.known listener.old) (M.known listener.new) }
    ensures listens { OnOk result (Tells (M.known listener.old).health →
        (M.known listener.new).path ≡ Some (words_said words.entry).socket) }
    ensures opens { OnOk result (Tells (T.known trace.old).health →
        (T.known trace.new).path ≡ traced_at (words_said words.entry).trace (T.known trace.old).path) }
    ensures empties { OnOk result (Tells (T.known trace.old).health →
        (T.known trace.new).took ≡ took_before (words_said words.entry).trace (T.known trace.old).took) }
    ensures unopened { IfErr result (λ object. object ≡ Object.Listener → trace.new ≡ trace.old) }
    ensures cause { IfErr result (λ object. (words : Health) → BeginCause object
        (T.known trace.old).health (T.known trace.new).health words words
        (M.known listener.old).health (M.known listener.new).health) }
    ensures trace_lasts { Lasts (T.known trace.old).health (T.known trace.new).health }
    ensures listener_lasts { Lasts (M.known listener.old).health (M.known listener.new).health }
{
    let Ok(()) = listener.listen(words.socket) else {
        return Err(Object::Listener);
    };
    if let Some(path) = words.trace {
        let Ok(()) = trace.open(path) else {
            return Err(Object::Trace);
        };
    }
    Ok(())
}

// Draws the lineage, which the trace has before anything else.
fn draw_lineage<W: Words, T: Trace>(
    words: &mut W,
    trace: &mut T,
    monitor: &mut Monitor,
) -> Result<(), Object>
    ensures drawn { OnOk result (Tells (T.known trace.old).health →
        TakesLineage (W.known words.old) (T.known trace.old).took monitor.old
        (W.known words.new) (T.known trace.new).took monitor.new) }
    ensures err { OnErr result ((Tells (T.known trace.old).health →
        (T.known trace.new).took ≡ (T.known trace.old).took) × (monitor.new ≡ monitor.old)) }
    ensures cause { IfErr result (λ object. (listener : Health) → BeginCause object
        (T.known trace.old).health (T.known trace.new).health
        (W.known words.old).health (W.known words.new).health listener listener) }
    ensures trace_lasts { Lasts (T.known trace.old).health (T.known trace.new).health }
    ensures trace_stays { TraceStays (T.known trace.old) (T.known trace.new) }
    ensures words_last { Lasts (W.known words.old).health (W.known words.new).health }
{
    let Ok(lineage) = words.next() else {
        return Err(Object::Words);
    };
    let Ok(()) = trace.add(&Item::Lineage { lineage }) else {
        return Err(Object::Trace);
    };
    monitor.set_lineage(lineage);
    Ok(())
}

// How the command ends where serving ended so, but for a trace or a sink that fails at its end.
fn exit_of(served: &Served) -> Exit
    ensures { result ≡ exit_of served.now }
{
    match served {
        Served::Ended | Served::Off => Exit::Done,
        Served::Fault(object) => Exit::Fault(*object),
        Served::OutOfMemory => Exit::OutOfMemory,
    }
}

// Connections until serving ends, and what is told last, on a machine that has not started.
fn serve_on<
    D: Disk + Send,
    L: Link + Send,
    V: VsockHost + Send,
    G: GuestWords + Send,
    C: Clock + Send,
    N: Conn,
    F: Files,
    M: Listener<N>,
    T: Trace + Send,
    W: Words,
    K: Sink + Send,
    R: Threads + Wait + Sync,
>(
    rt: &R,
    alloc: Global,
    words: ServeWords<'_>,
    steps: u32,
    mut monitor: Monitor,
    files: &mut F,
    sink: &mut K,
    with: &mut ServeOutside<D, L, V, G, C, W, M, T>,
) -> Exit
    ensures so_far { ServersTell
        (serve_known_of T.known K.known C.known D.known L.known V.known G.known F.known W.known M.known sink.old files.old with.old) →
        ((known : FilesKnown) → IsMonitor monitor known (new_machine (words_said words.entry).id known.saved known.calls)) →
        ServedSoFar result (words_said words.entry)
        (serve_known_of T.known K.known C.known D.known L.known V.known G.known F.known W.known M.known sink.old files.old with.old)
        (serve_known_of T.known K.known C.known D.known L.known V.known G.known F.known W.known M.known sink.new files.new with.new) }
    ensures told { ServeCause result
        (serve_known_of T.known K.known C.known D.known L.known V.known G.known F.known W.known M.known sink.old files.old with.old)
        (serve_known_of T.known K.known C.known D.known L.known V.known G.known F.known W.known M.known sink.new files.new with.new) }
    ensures lasts { ServersLast
        (serve_known_of T.known K.known C.known D.known L.known V.known G.known F.known W.known M.known sink.old files.old with.old)
        (serve_known_of T.known K.known C.known D.known L.known V.known G.known F.known W.known M.known sink.new files.new with.new) }
{
    if let Err(object) = open(words, &mut with.listener, &mut with.turns.trace) {
        return Exit::Fault(object);
    }
    if let Err(object) = draw_lineage(&mut with.words, &mut with.turns.trace, &mut monitor) {
        return Exit::Fault(object);
    }
    let served = serve(
        rt,
        alloc,
        steps,
        &mut monitor,
        files,
        &mut with.turns,
        &mut with.listener,
        sink,
    );
    close(exit_of(&served), &monitor, &mut with.turns.trace, sink)
}

// Serves a machine of the id that the words give, all but the last line.
fn run_serve<
    D: Disk + Send,
    L: Link + Send,
    V: VsockHost + Send,
    G: GuestWords + Send,
    C: Clock + Send,
    N: Conn,
    F: Files,
    M: Listener<N>,
    T: Trace + Send,
    W: Words,
    K: Sink + Send,
    R: Threads + Wait + Sync,
>(
    rt: &R,
    alloc: Global,
    words: ServeWords<'_>,
    steps: u32,
    files: &mut F,
    sink: &mut K,
    with: &mut ServeOutside<D, L, V, G, C, W, M, T>,
) -> Exit
    ensures so_far { ServersTell
        (serve_known_of T.known K.known C.known D.known L.known V.known G.known F.known W.known M.known sink.old files.old with.old) →
        ServedSoFar result (words_said words.entry)
        (serve_known_of T.known K.known C.known D.known L.known V.known G.known F.known W.known M.known sink.old files.old with.old)
        (serve_known_of T.known K.known C.known D.known L.known V.known G.known F.known W.known M.known sink.new files.new with.new) }
    ensures told { ServeCause result
        (serve_known_of T.known K.known C.known D.known L.known V.known G.known F.known W.known M.known sink.old files.old with.old)
        (serve_known_of T.known K.known C.known D.known L.known V.known G.known F.known W.known M.known sink.new files.new with.new) }
    ensures lasts { ServersLast
        (serve_known_of T.known K.known C.known D.known L.known V.known G.known F.known W.known M.known sink.old files.old with.old)
        (serve_known_of T.known K.known C.known D.known L.known V.known G.known F.known W.known M.known sink.new files.new with.new) }
{
    let Ok(id) = TextList::copy_of(alloc, words.id) else {
        return Exit::OutOfMemory;
    };
    match Monitor::new(alloc, id) {
        Ok(monitor) => serve_on(rt, alloc, words, steps, monitor, files, sink, with),
        Err(_) => Exit::OutOfMemory,
    }
}

/// Serves a machine over connections to a socket, one after another, until none comes any more or its guest is off. It
/// runs in slices of `steps` steps at most of each actor.
///
/// `Fault`: a call on the trace, the sink, the words or the listener failed. `OutOfMemory`: there was no memory. Files that
/// fail are answered 500, and a connection that fails ends alone.
pub fn serve_main<
    D: Disk + Send,
    L: Link + Send,
    V: VsockHost + Send,
    G: GuestWords + Send,
    C: Clock + Send,
    N: Conn,
    F: Files,
    M: Listener<N>,
    T: Trace + Send,
    W: Words,
    K: Sink + Send,
    R: Threads + Wait + Sync,
>(
    rt: &R,
    alloc: Global,
    words: ServeWords<'_>,
    steps: u32,
    files: &mut F,
    sink: &mut K,
    with: &mut ServeOutside<D, L, V, G, C, W, M, T>,
) -> Exit
    ensures { Serves result (words_said words.entry)
        (serve_known_of T.known K.known C.known D.known L.known V.known G.known F.known W.known M.known sink.old files.old with.old)
        (serve_known_of T.known K.known C.known D.known L.known V.known G.known F.known W.known M.known sink.new files.new with.new) }
{
    let exit = run_serve(rt, alloc, words, steps, files, sink, with);
    let last = exit;
    let _ = write_last(sink, last);
    exit
}
