// A command over objects in memory, with two callers at most.
use crate::doors::{Door, Line};
use crate::showing::{text_of, words_of};
use crate::ticking::Ticks;
use firecracker_cli::{ServeOutside, firecracker_main};
use monitor_cli::{Outside, replay_main};
use monitor_running::{DeviceHost, TracedHost, TurnHost};
use outside_mem::{
    Failing, MemoryDisk, MemoryFiles, MemoryGuestWords, MemoryLink, MemorySink, MemorySource,
    MemoryTrace, MemoryVsock, Numbers, SteadyWords,
};
use script_text::{Item, write_item};
use std::alloc::{AllocError, Global};
use std::collections::VecDeque;
use std::io;
use std::sync::Wait;
use std::thread::Threads;
use vm_outside::{Failed, Files};
use vm_types::ByteList;

/// The objects of `serve`, and those of every command.
pub type With = ServeOutside<
    MemoryDisk,
    MemoryLink,
    MemoryVsock,
    MemoryGuestWords,
    Ticks,
    SteadyWords,
    Door,
    MemoryTrace,
>;

pub type Out = Outside<MemorySource, MemorySink, MemoryFiles>;

/// A command, the image that lies under `code`, what the two callers ask, of which the second stays, and which calls of the
/// objects are to fail.
#[derive(Clone, Copy, Drop)]
pub struct Session {
    pub name: &'static str,
    pub words: &'static str,
    pub image: &'static [u8],
    pub first: Option<&'static [u8]>,
    pub second: Option<&'static [u8]>,
    pub listener_fails: &'static [u64],
    pub trace_fails: &'static [u64],
    pub sink_fails: &'static [u64],
    pub disk_fails: &'static [u64],
}

/// Nobody calls, and nothing fails.
pub const NOBODY_CALLS: Session = Session {
    name: "nobody calls",
    words: "serve --api-sock socket --trace trace",
    image: &[],
    first: None,
    second: None,
    listener_fails: &[],
    trace_fails: &[],
    sink_fails: &[],
    disk_fails: &[],
};

fn fails(alloc: Global, calls: &[u64]) -> Result<Failing, AllocError> {
    Ok(Failing::new(calls.to_vec(alloc)?))
}

fn line_of(alloc: Global, bytes: Option<&[u8]>, stays: bool) -> Result<Option<Line>, AllocError> {
    match bytes {
        Some(bytes) => Ok(Some(Line::new(alloc, bytes, stays)?)),
        None => Ok(None),
    }
}

fn door_of(alloc: Global, session: &Session) -> Result<Door, AllocError> {
    let listening = fails(alloc, session.listener_fails)?;
    let first = line_of(alloc, session.first, false)?;
    let second = line_of(alloc, session.second, true)?;
    Ok(Door::new(first, second, listening))
}

fn disk_of(alloc: Global, session: &Session, disk: &[u8]) -> Result<MemoryDisk, AllocError> {
    let mut disks = Vec::new(alloc);
    disks.push(ByteList::copy_of(alloc, disk)?)?;
    Ok(MemoryDisk::new(alloc, disks, fails(alloc, session.disk_fails)?))
}

/// Links on which no frame comes and none can be sent.
pub fn no_link(alloc: Global) -> MemoryLink {
    MemoryLink::new(alloc, Vec::new(alloc), Failing::new(Vec::new(alloc)))
}

/// A host's end where nothing happens, and nobody who is dialled answers.
pub fn no_vsock(alloc: Global) -> MemoryVsock {
    let coming = VecDeque::new(alloc);
    let answers = VecDeque::new(alloc);
    MemoryVsock::new(alloc, coming, answers, Failing::new(Vec::new(alloc)))
}

/// No words for entropy devices.
pub fn no_words(alloc: Global) -> MemoryGuestWords {
    MemoryGuestWords::new(Vec::new(alloc), Failing::new(Vec::new(alloc)))
}

/// The objects that a session is handed. The lineage is 77, and moments are 25 ns apart, so that the first slice ends before
/// 299,008 ns.
pub fn with_of(alloc: Global, session: &Session, disk: &[u8]) -> Result<With, AllocError> {
    let devices = DeviceHost {
        disk: disk_of(alloc, session, disk)?,
        link: no_link(alloc),
        vsock: no_vsock(alloc),
        guest_words: no_words(alloc),
    };
    let host = TurnHost {
        devices,
        clock: Ticks::new(25),
    };
    let words = SteadyWords::new(Numbers::new([77].to_vec(alloc)?));
    let trace = MemoryTrace::new(alloc, fails(alloc, session.trace_fails)?);
    Ok(ServeOutside {
        turns: TracedHost { host, trace },
        words,
        listener: door_of(alloc, session)?,
    })
}

/// The same of every command: it reads this source, and has these files.
pub fn out_of(
    alloc: Global,
    source: Vec<u8>,
    sink_fails: &[u64],
    files: MemoryFiles,
) -> Result<Out, AllocError> {
    let fails = fails(alloc, sink_fails)?;
    Ok(Outside {
        source: MemorySource::new(source, usize::MAX, Failing::new(Vec::new(alloc))),
        sink: MemorySink::new(alloc, usize::MAX, fails),
        files,
    })
}

/// Makes a file of this content.
pub fn put(files: &mut MemoryFiles, name: &str, content: &[u8]) -> Result<(), Failed> {
    files.make(name)?;
    files.write_at(name, 0, content)
}

/// Files of which one is there.
pub fn files_with(alloc: Global, name: &str, content: &[u8]) -> Result<MemoryFiles, AllocError> {
    let mut files = MemoryFiles::new(alloc, Failing::new(Vec::new(alloc)));
    match put(&mut files, name, content) {
        Ok(()) => Ok(files),
        Err(Failed) => Err(AllocError),
    }
}

/// Does the command, and prints how it ends, what the sink took, and how many calls on the trace failed.
pub fn run<R: Threads + Wait + Print + AllocGlobal + Sync>(
    rt: &R,
    session: &Session,
    out: &mut Out,
    with: &mut With,
) -> io::Result<()> {
    let words = words_of(rt.alloc(), session.words)?;
    let exit = firecracker_main(rt, rt.alloc(), Ok(words), out, with);
    println!(rt;
        "{}: status {}, the sink took {:?}, failed calls on the trace {}",
        session.name,
        exit.status(),
        text_of(out.sink.taken()),
        with.turns.trace.faults()
    )
}

/// The script that these items are.
pub fn script_of(alloc: Global, items: &[Item]) -> Result<Vec<u8>, AllocError> {
    let mut script = Vec::new(alloc);
    for item in items {
        script.extend_from_slice(write_item(alloc, item)?.as_slice())?;
    }
    Ok(script)
}

/// Replays what the source gives, and prints how that ends and what the sink took.
pub fn replay<R: Print + AllocGlobal>(rt: &R, name: &str, out: &mut Out) -> io::Result<()> {
    let words = words_of(rt.alloc(), "replay")?;
    let exit = replay_main(rt.alloc(), &words, out);
    println!(rt;
        "{name}: the replay's status {}, its sink took {:?}",
        exit.status(),
        text_of(out.sink.taken())
    )
}
