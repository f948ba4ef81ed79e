// The monitor's program: the real objects, the call, and the status that it answers.
#![tactic(auto)]

use firecracker_cli::{ServeOutside, firecracker_main};
use host_real::{
    Bell, DiskFiles, LinkSockets, RandomWords, SocketConn, SocketListener, SystemClock, TraceFile,
    VsockSockets, keep_freed_memory,
};
use monitor_cli::{NoWords, Outside};
use monitor_running::{DeviceHost, TracedHost, TurnHost};
use outside_real::{Folder, Output, Reading, fill_standard};
use std::io::ErrorKind;
use std::process::ExitCode;
use std::{env, io};
use vm_types::Exit;

/// The status where a standard descriptor is closed and can't be opened either, and where `. off` isn't taken: that of a failed
/// output.
const NO_OUTPUT: u8 = 4;

fn main(rt: HostRuntime) -> ExitCode {
    if fill_standard(&rt).is_err() {
        return ExitCode::from(NO_OUTPUT);
    }
    keep_freed_memory(&rt);
    let bell = Bell::new(&rt);
    let mut out = Outside {
        source: Reading::new(rt.stdin()),
        sink: Output::new(&rt, rt.stdout()),
        files: Folder::new(&rt),
    };
    let mut with = ServeOutside {
        turns: TracedHost {
            host: TurnHost {
                devices: DeviceHost {
                    disk: DiskFiles::new(&rt),
                    link: LinkSockets::new(&rt, &bell),
                    vsock: VsockSockets::new(&rt, &bell),
                    guest_words: RandomWords::new(&rt),
                },
                clock: SystemClock::new(&rt, &bell),
            },
            trace: TraceFile::new(&rt),
        },
        words: RandomWords::new(&rt),
        listener: SocketListener::new(&rt, &bell),
    };
    let words = words(&rt).map_err(|e| why(&e));
    let exit = firecracker_main::<_, _, _, _, _, _, _, _, _, SocketConn<'_, _>, _, _, _>(
        &rt,
        rt.alloc(),
        words,
        &mut out,
        &mut with,
    );
    // (a sink that fails behind the last line of another end leaves that end as it is)
    match (exit, out.sink.finish()) {
        (Exit::Done, Err(_)) => ExitCode::from(NO_OUTPUT),
        (exit, _) => ExitCode::from(exit.status()),
    }
}

fn why(error: &io::Error) -> NoWords {
    match error.kind() {
        ErrorKind::OutOfMemory => NoWords::OutOfMemory,
        _ => NoWords::NotText,
    }
}

// The words behind the program's name.
fn words(rt: &HostRuntime) -> io::Result<Vec<String>> {
    let mut words = Vec::new(rt.alloc());
    for word in env::args(rt)?.skip(1) {
        words.push(word)?;
    }
    Ok(words)
}
