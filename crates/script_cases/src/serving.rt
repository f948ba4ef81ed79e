// Machines that are served over objects in memory. What a trace has is proved; that a guest comes to its end so, that a
// replay of its trace answers the same, and which object is named, is shown here.
use crate::images::{ADDS_AND_ENDS, ENDS, WRITES_AND_ENDS};
use crate::requests::{CONFIGURE, LOAD, START, START_AND_SAVE};
use crate::sessions::{
    NOBODY_CALLS, Out, Session, With, files_with, out_of, replay, run, script_of, with_of,
};
use crate::showing::{text_of, words_of};
use monitor_cli::replay_main;
use outside_mem::{MemoryFiles, read_bytes};
use script_text::Item;
use std::alloc::{AllocError, Global};
use std::io;
use std::sync::Wait;
use std::thread::Threads;

// One caller configures and leaves, and another starts the guest and stays until it is off.
const SERVED: Session = Session {
    name: "served",
    image: &ADDS_AND_ENDS,
    first: Some(CONFIGURE),
    second: Some(START_AND_SAVE),
    ..NOBODY_CALLS
};

// The console's byte is not taken.
const UNSUNK: Session = Session {
    name: "served with a sink that fails",
    image: &WRITES_AND_ENDS,
    second: Some(START),
    sink_fails: &[0],
    ..SERVED
};

// That the guest is off is not taken.
const UNSUNK_AT_THE_END: Session = Session {
    name: "served with a sink that fails at the end",
    image: &ENDS,
    second: Some(START),
    sink_fails: &[0],
    ..SERVED
};

// A snapshot whose console was not drained is loaded, and the caller leaves.
const LOADED: Session = Session {
    name: "loaded",
    image: &WRITES_AND_ENDS,
    first: Some(LOAD),
    ..NOBODY_CALLS
};

const LOADED_AND_UNSUNK: Session = Session {
    name: "loaded with a sink that fails",
    sink_fails: &[0],
    ..LOADED
};

// Nobody calls, and each has another call that fails, or too many words. Where the listener fails the trace would too.
const REFUSED: [Session; 5] = [
    NOBODY_CALLS,
    Session {
        name: "a listener that fails",
        listener_fails: &[0],
        trace_fails: &[0],
        ..NOBODY_CALLS
    },
    Session {
        name: "a trace that is not opened",
        trace_fails: &[0],
        ..NOBODY_CALLS
    },
    Session {
        name: "a trace that is not finished",
        trace_fails: &[2],
        ..NOBODY_CALLS
    },
    Session {
        name: "two traces",
        words: "serve --api-sock socket --trace trace --trace trace",
        ..NOBODY_CALLS
    },
];

pub fn print<R: Threads + Wait + Print + AllocGlobal + Sync>(rt: &R) -> io::Result<()> {
    print_served(rt)?;
    run_session(rt, &UNSUNK)?;
    run_session(rt, &UNSUNK_AT_THE_END)?;
    run_loaded(rt, &LOADED)?;
    run_loaded(rt, &LOADED_AND_UNSUNK)?;
    for session in REFUSED {
        run_session(rt, &session)?;
    }
    Ok(())
}

fn run_session<R: Threads + Wait + Print + AllocGlobal + Sync>(
    rt: &R,
    session: &Session,
) -> io::Result<()> {
    let mut out = out_with(rt.alloc(), session, Vec::new(rt.alloc()))?;
    let mut with = with_of(rt.alloc(), session, &[])?;
    run(rt, session, &mut out, &mut with)
}

// The image lies under its name, and the source gives this script.
fn out_with(alloc: Global, session: &Session, script: Vec<u8>) -> Result<Out, AllocError> {
    let files = files_with(alloc, "code", session.image)?;
    out_of(alloc, script, session.sink_fails, files)
}

fn run_loaded<R: Threads + Wait + Print + AllocGlobal + Sync>(
    rt: &R,
    session: &Session,
) -> io::Result<()> {
    let mut out = loaded(rt.alloc(), session)?;
    let mut with = with_of(rt.alloc(), session, &[])?;
    run(rt, session, &mut out, &mut with)
}

fn loaded(alloc: Global, session: &Session) -> Result<Out, AllocError> {
    let files = saved(alloc)?;
    out_of(alloc, Vec::new(alloc), session.sink_fails, files)
}

// A guest writes its byte, and a snapshot has it.
const SAVING: &[u8] = b"\
    api PUT /machine-config {\"vcpu_count\":1,\"mem_size_mib\":4}\n\
    api PUT /boot-source {\"kernel_image_path\":\"code\"}\n\
    api PUT /actions {\"action_type\":\"InstanceStart\"}\n\
    step h0 40\n\
    api PATCH /vm {\"state\":\"Paused\"}\n\
    api PUT /snapshot/create {\"snapshot_path\":\"s\",\"mem_file_path\":\"m\"}\n";

// The snapshot's files.
fn saved(alloc: Global) -> Result<MemoryFiles, AllocError> {
    let mut out = out_with(alloc, &LOADED, SAVING.to_vec(alloc)?)?;
    let words = words_of(alloc, "replay")?;
    let _ = replay_main(alloc, &words, &mut out);
    Ok(out.files)
}

fn print_served<R: Threads + Wait + Print + AllocGlobal + Sync>(rt: &R) -> io::Result<()> {
    let mut out = out_with(rt.alloc(), &SERVED, Vec::new(rt.alloc()))?;
    let mut with = with_of(rt.alloc(), &SERVED, &[])?;
    serve_and_print(rt, &mut out, &mut with)
}

fn serve_and_print<R: Threads + Wait + Print + AllocGlobal + Sync>(
    rt: &R,
    out: &mut Out,
    with: &mut With,
) -> io::Result<()> {
    run(rt, &SERVED, out, with)?;
    print_took(rt, "first", with.listener.took_before())?;
    print_took(rt, "second", with.listener.took())?;
    print_front(rt, with.turns.trace.took())?;
    print_lineage(rt, &out.files)?;
    print_replay(rt, with.turns.trace.took(), &out.files)
}

fn print_took<R: Print>(rt: &R, which: &str, took: Option<&[u8]>) -> io::Result<()> {
    match took {
        Some(bytes) => println!(rt; "served: the {which} caller got {:?}", text_of(bytes)),
        None => println!(rt; "served: the {which} caller is not over"),
    }
}

// The first items of a trace.
fn print_front<R: Print + AllocGlobal>(rt: &R, items: &[Item]) -> io::Result<()> {
    let front = script_of(rt.alloc(), items.get(..3).unwrap_or(&[]))?;
    println!(rt; "served: the trace begins {:?}", text_of(&front))
}

// The lineage in the memory file.
fn print_lineage<R: Print>(rt: &R, files: &MemoryFiles) -> io::Result<()> {
    println!(rt;
        "served: the lineage that was saved is {:?}",
        lineage_in(files)
    )
}

fn lineage_in(files: &MemoryFiles) -> Option<u64> {
    let mut word = [0; 8];
    if !read_bytes(files.find("m")?, 16, &mut word) {
        return None;
    }
    Some(u64::from_le_bytes(word))
}

// The replay of a trace beside the same image, and whether it saves the same.
fn print_replay<R: Print + AllocGlobal>(
    rt: &R,
    items: &[Item],
    files: &MemoryFiles,
) -> io::Result<()> {
    let mut out = out_with(rt.alloc(), &SERVED, script_of(rt.alloc(), items)?)?;
    replay(rt, SERVED.name, &mut out)?;
    let memory = is_same(files.find("m"), out.files.find("m"));
    let state = is_same(files.find("s"), out.files.find("s"));
    println!(rt; "served: the replay saves the same memory {memory}, the same state {state}")
}

// Whether both are there and alike.
fn is_same(one: Option<&[u8]>, other: Option<&[u8]>) -> bool {
    one.is_some() && one == other
}
