// A turn: slices until something is heard, and its answers.
ghost use Rattle.std.specs.Prelude.{◌≡◌, ◌⊎◌, ◌+◌, ◌++◌, ◌∷◌, [], length, IfOk, IfSome, None, OnErr, OnOk, Some};
ghost use Rattle.script_text.specs.declared.item.Item.TheVariants as item;
ghost use Rattle.serve_host.specs.Passing.{ConnKnown, Waits};
ghost use Rattle.serve_host.specs.Tracing.{TraceKnown, TraceStays};
ghost use Rattle.vm_outside.specs.Known.{Called, FilesKnown, Lasts, SinkKnown, Tells};
ghost use Rattle.flat_machine.specs.Machine.{Machine};
ghost use Rattle.monitor_core.specs.State.{IsMonitor};
ghost use Rattle.monitor_serving.specs.Causes.{AnswerCause, ReplyCause, TurnedCause};
ghost use Rattle.monitor_serving.specs.Gating.{IsGated, StaysGated};
ghost use Rattle.monitor_serving.specs.Hearing.{Gave, HeardCause, HearsBy, IsWithin, bytes_in};
ghost use Rattle.monitor_serving.specs.Turns.{TurnedAs};
ghost use Rattle.monitor_running.specs.Objects.{known_with, with_trace};
ghost use Rattle.monitor_running.specs.Reached.{known};
ghost use Rattle.monitor_serving.specs.Views.{AllLast, AllTell, Hosts, hosts, hosts_of, view, view_of};

use crate::attaching::attach;
use crate::beside::run_beside;
use crate::gating::Gating;
use crate::items::tell_item;
use crate::listening::Heard;
use crate::served::{Served, end_of};
use gate_file::zeros;
use monitor_core::Monitor;
use monitor_running::TurnObjects;
use script_text::Item;
use serve_host::{Conn, put_all};
use std::alloc::Global;
use std::sync::Wait;
use std::thread::Threads;
use vm_outside::{Failed, Files, Sink};
use vm_types::{ByteList, Object};

/// So many bytes of a connection are read at a time.
const PIECE: usize = 4_096;

// Tells the trace these bytes, in an item that is given back.
fn tell_bytes<W: TurnObjects>(with: &mut W, bytes: ByteList) -> Result<Item, Failed>
    ensures item { IfOk result (λ told. told ≡ item.Bytes bytes) }
    ensures told { OnOk result (Tells (W.known with.old).trace.health →
        (W.known with.new).trace.took ≡ (W.known with.old).trace.took ++ item.Bytes bytes ∷ []) }
    ensures untold { OnErr result (Tells (W.known with.old).trace.health →
        (W.known with.new).trace.took ≡ (W.known with.old).trace.took) }
    ensures stays { TraceStays (W.known with.old).trace (W.known with.new).trace }
    ensures called { Called (W.known with.old).trace.health (W.known with.new).trace.health result }
    ensures beside { W.known with.new ≡ with_trace (W.known with.old) (W.known with.new).trace }
{
    let item = Item::Bytes { bytes };
    match tell_item(with, &item) {
        Ok(()) => Ok(item),
        Err(Failed) => Err(Failed),
    }
}

fn bytes_in(item: &Item) -> &[u8]
    ensures { result.now ≡ bytes_in item.now }
{
    match item {
        Item::Bytes { bytes } => bytes.as_slice(),
        _ => &[],
    }
}

// Bytes that are in the trace: what is due is answered. It may have changed which files the disks are, and they are attached before
// the answer is sent, so that who has it may move them; so are links and sockets. Once the guest is off nothing is answered.
fn reply<N: Conn, F: Files, W: TurnObjects>(
    monitor: &mut Monitor,
    files: &mut F,
    with: &mut W,
    conn: &mut N,
    bytes: &[u8],
) -> Option<Served>
    ensures replied { (trace : TraceKnown) (sink : SinkKnown) (before : ConnKnown) →
        (W.known with.old).trace.took ≡ trace.took ++ item.Bytes bytes.now ∷ [] → Tells (F.known files.old).health →
        Tells (N.known conn.old).health → Gave before (N.known conn.old) bytes.now →
        TurnedAs result (view monitor.old (hosts (known trace sink (W.known with.old).host) (F.known files.old)) before)
        (view monitor.new (hosts (known_with (W.known with.new) sink) (F.known files.new)) (N.known conn.new)) }
    ensures cause { IfSome result (λ end. ReplyCause end monitor.new (N.known conn.old) (N.known conn.new)) }
    ensures files_last { Lasts (F.known files.old).health (F.known files.new).health }
    ensures conn_lasts { Lasts (N.known conn.old).health (N.known conn.new).health }
    ensures trace { (W.known with.new).trace ≡ (W.known with.old).trace }
{
    if monitor.is_off() {
        return Some(Served::Off);
    }
    let Ok(text) = monitor.hear(bytes, files) else {
        return Some(Served::OutOfMemory);
    };
    attach(monitor, with);
    let Ok(()) = put_all(conn, text.as_slice()) else {
        return Some(Served::Ended);
    };
    if monitor.is_failed() {
        return Some(Served::Ended);
    }
    None
}

// Bytes that the connection gave: they go to the trace, and what is due is answered.
fn answer<N: Conn, F: Files, W: TurnObjects>(
    monitor: &mut Monitor,
    files: &mut F,
    with: &mut W,
    conn: &mut N,
    piece: Vec<u8>,
) -> Option<Served>
    ensures answered { (sink : SinkKnown) (before : ConnKnown) →
        AllTell (hosts (known_with (W.known with.old) sink) (F.known files.old)) → Tells (N.known conn.old).health →
        Gave before (N.known conn.old) piece.items →
        TurnedAs result (view monitor.old (hosts (known_with (W.known with.old) sink) (F.known files.old)) before)
        (view monitor.new (hosts (known_with (W.known with.new) sink) (F.known files.new)) (N.known conn.new)) }
    ensures cause { IfSome result (λ end. AnswerCause end monitor.new
        (W.known with.old).trace.health (W.known with.new).trace.health (N.known conn.old) (N.known conn.new)) }
    ensures trace_lasts { Lasts (W.known with.old).trace.health (W.known with.new).trace.health }
    ensures trace_stays { TraceStays (W.known with.old).trace (W.known with.new).trace }
    ensures files_last { Lasts (F.known files.old).health (F.known files.new).health }
    ensures conn_lasts { Lasts (N.known conn.old).health (N.known conn.new).health }
{
    let Ok(item) = tell_bytes(with, ByteList::from_vec(piece)) else {
        return Some(Served::Fault(Object::Trace));
    };
    reply(monitor, files, with, conn, bytes_in(&item))
}

// The connection is over, unless the guest is off.
fn close(monitor: &Monitor) -> Option<Served>
    ensures closes { (hosts : Hosts) (before conn : ConnKnown) → Waits before conn → conn.took ≡ before.took →
        TurnedAs result (view monitor.now hosts before) (view monitor.now hosts conn) }
    ensures which { (result ≡ Some Served.Off) ⊎ (result ≡ Some Served.Ended) }
{
    if monitor.is_off() {
        return Some(Served::Off);
    }
    Some(Served::Ended)
}

// The connection goes on, unless the guest is off.
fn go_on(monitor: &Monitor) -> Option<Served>
    ensures goes { (hosts : Hosts) (before conn : ConnKnown) → Waits before conn → conn.took ≡ before.took →
        TurnedAs result (view monitor.now hosts before) (view monitor.now hosts conn) }
    ensures which { (result ≡ Some Served.Off) ⊎ (result ≡ None) }
{
    if monitor.is_off() {
        return Some(Served::Off);
    }
    None
}

// What the reader heard, and the bytes in front of which it has put what came.
#[derive(Drop)]
struct Came {
    heard: Heard,
    piece: Vec<u8>,
}

// What comes of what the reader heard, which the connection gave.
fn settle<N: Conn, F: Files, W: TurnObjects>(
    monitor: &mut Monitor,
    files: &mut F,
    with: &mut W,
    conn: &mut N,
    came: Came,
) -> Option<Served>
    requires { IsWithin came.heard (length came.piece.items) }
    ensures settled { (sink : SinkKnown) (before : ConnKnown) →
        AllTell (hosts (known_with (W.known with.old) sink) (F.known files.old)) → Tells (N.known conn.old).health →
        HearsBy came.heard before (N.known conn.old) came.piece.items → (N.known conn.old).took ≡ before.took →
        Lasts before.health (N.known conn.old).health →
        TurnedAs result (view monitor.old (hosts (known_with (W.known with.old) sink) (F.known files.old)) before)
        (view monitor.new (hosts (known_with (W.known with.new) sink) (F.known files.new)) (N.known conn.new)) }
    ensures cause { IfSome result (λ end. (before : ConnKnown) → Lasts before.health (N.known conn.old).health →
        (Tells before.health → HearsBy came.heard before (N.known conn.old) came.piece.items) →
        HeardCause came.heard before.health.faults (N.known conn.old).health.faults →
        AnswerCause end monitor.new (W.known with.old).trace.health (W.known with.new).trace.health before (N.known conn.new)) }
    ensures trace_lasts { Lasts (W.known with.old).trace.health (W.known with.new).trace.health }
    ensures trace_stays { TraceStays (W.known with.old).trace (W.known with.new).trace }
    ensures files_last { Lasts (F.known files.old).health (F.known files.new).health }
    ensures conn_lasts { Lasts (N.known conn.old).health (N.known conn.new).health }
{
    let Came { heard, mut piece } = came;
    match heard {
        Heard::Bytes(count) => {
            piece.truncate(count);
            answer(monitor, files, with, conn, piece)
        }
        Heard::End => close(monitor),
        Heard::Fault => close(monitor),
        Heard::Nothing => go_on(monitor),
    }
}

/// Slices until something is heard of the connection, which is answered then. Each turn opens the gate once, which the one before
/// it closed. `None` where the connection goes on.
pub fn turn<W: TurnObjects + Send, N: Conn, F: Files, K: Sink + Send, R: Threads + Wait + Sync>(
    rt: &R,
    alloc: Global,
    gating: &mut Gating,
    monitor: &mut Monitor,
    files: &mut F,
    with: &mut W,
    conn: &mut N,
    sink: &mut K,
) -> Option<Served>
    requires { IsGated gating.old }
    ensures turned { AllTell (hosts_of W.known K.known F.known with.old sink.old files.old) →
        Tells (N.known conn.old).health → TurnedAs result
        (view_of W.known K.known F.known N.known monitor.old with.old sink.old files.old conn.old)
        (view_of W.known K.known F.known N.known monitor.new with.new sink.new files.new conn.new) }
    ensures cause { TurnedCause result
        (view_of W.known K.known F.known N.known monitor.old with.old sink.old files.old conn.old)
        (view_of W.known K.known F.known N.known monitor.new with.new sink.new files.new conn.new) }
    ensures lasts { AllLast
        (hosts_of W.known K.known F.known with.old sink.old files.old)
        (hosts_of W.known K.known F.known with.new sink.new files.new) }
    ensures conn_lasts { Lasts (N.known conn.old).health (N.known conn.new).health }
    ensures gated { StaysGated gating.old gating.new }
    ensures opened { gating.new.reader.1.openings ≡ gating.old.reader.1.openings + 1 }
{
    gating.gate.open(&mut gating.reader);
    let Ok(mut piece) = zeros(alloc, PIECE) else {
        return Some(Served::OutOfMemory);
    };
    let (heard, ran) = run_beside(
        rt,
        alloc,
        gating,
        monitor.machine(),
        with,
        sink,
        conn,
        &mut piece,
    );
    match end_of(ran) {
        Some(end) => Some(end),
        None => {
            let came = Came { heard, piece };
            settle(monitor, files, with, conn, came)
        }
    }
}
