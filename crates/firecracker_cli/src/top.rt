// The top call: a command's words, and what it does.
ghost use Rattle.std.specs.Prelude.{◌≡◌, ℕ, IfErr, IfOk, None, Some, map, string_bytes};
ghost use Rattle.command_line.specs.Commands.{ServeWords, generate_number, run_number, serve_words};
ghost use Rattle.monitor_cli.specs.Command.{Commanded, Wordless};
ghost use Rattle.monitor_cli.specs.Known.{all_known};
ghost use Rattle.load_cli.specs.Generating.{Generated};
ghost use Rattle.load_run.specs.Running.{Ran};
ghost use Rattle.firecracker_cli.specs.Serving.{Serves, serve_known_of};

use crate::outside::ServeOutside;
use crate::serving::serve_main;
use command_line::{MonitorCommand, monitor_command};
use load_cli::generate_by;
use load_run::run_by;
use monitor_cli::{NoWords, Outside, refuse, refuse_words, replay_by};
use serve_host::{Conn, Listener, Trace, Words};
use std::alloc::Global;
use std::sync::Wait;
use std::thread::Threads;
use vm_host::{Clock, Disk, GuestWords, Link, VsockHost};
use vm_outside::{Files, Sink, Source};
use vm_types::Exit;

/// A slice has so many steps of each actor at most: with 128 MiB of memory they take four times as long as it takes to open
/// and close the slice (`bench/slices`).
const STEPS: u32 = 24_576;

/// The command of these words, which are those behind the program's name: `replay [--id ID]`,
/// `serve --api-sock PATH [--id ID] [--trace FILE]`, `generate N`, or `run N`. Where the words can't be had, are no command, or
/// there is no memory to read them, the last line that says so is all that is written.
pub fn firecracker_main<
    I: Source,
    O: Sink + Send,
    F: Files,
    D: Disk + Send,
    L: Link + Send,
    V: VsockHost + Send,
    G: GuestWords + Send,
    C: Clock + Send,
    W: Words,
    N: Conn,
    M: Listener<N>,
    T: Trace + Send,
    R: Threads + Wait + Sync,
>(
    rt: &R,
    alloc: Global,
    words: Result<Vec<String>, NoWords>,
    out: &mut Outside<I, O, F>,
    with: &mut ServeOutside<D, L, V, G, C, W, M, T>,
) -> Exit
    ensures replay { IfOk words (λ words. serve_words (map string_bytes words.items) ≡ None →
        generate_number (map string_bytes words.items) ≡ None → run_number (map string_bytes words.items) ≡ None →
        Commanded (map string_bytes words.items) result
        (all_known (I.known out.old.source) (O.known out.old.sink) (F.known out.old.files))
        (all_known (I.known out.new.source) (O.known out.new.sink) (F.known out.new.files))) }
    ensures serve { IfOk words (λ words. (it : ServeWords) → serve_words (map string_bytes words.items) ≡ Some it →
        Serves result it
        (serve_known_of T.known O.known C.known D.known L.known V.known G.known F.known W.known M.known out.old.sink out.old.files with.old)
        (serve_known_of T.known O.known C.known D.known L.known V.known G.known F.known W.known M.known out.new.sink out.new.files with.new)) }
    ensures generate { IfOk words (λ words. (number : ℕ) → generate_number (map string_bytes words.items) ≡ Some number →
        Generated (map string_bytes words.items) result (O.known out.old.sink) (O.known out.new.sink)) }
    ensures alone { IfOk words (λ words. (number : ℕ) → generate_number (map string_bytes words.items) ≡ Some number →
        (out.new.source ≡ out.old.source) × (out.new.files ≡ out.old.files)) }
    ensures run { IfOk words (λ words. (number : ℕ) → run_number (map string_bytes words.items) ≡ Some number →
        Ran (map string_bytes words.items) result (O.known out.old.sink) (O.known out.new.sink)
        × (out.new.source ≡ out.old.source) × (out.new.files ≡ out.old.files)) }
    ensures wordless { IfErr words (λ why. Wordless why result
        (all_known (I.known out.old.source) (O.known out.old.sink) (F.known out.old.files))
        (all_known (I.known out.new.source) (O.known out.new.sink) (F.known out.new.files))) }
    ensures beside { IfOk words (λ words. serve_words (map string_bytes words.items) ≡ None → with.new ≡ with.old) }
    ensures unasked { IfOk words (λ words. (it : ServeWords) → serve_words (map string_bytes words.items) ≡ Some it →
        out.new.source ≡ out.old.source) }
    ensures idle { IfErr words (λ why. with.new ≡ with.old) }
    ensures unread { result ≡ Exit.Usage → (out.new.source ≡ out.old.source) × (out.new.files ≡ out.old.files) }
{
    let words = match words {
        Ok(words) => words,
        Err(why) => return refuse(why.exit(), out),
    };
    match monitor_command(alloc, &words) {
        Ok(MonitorCommand::Serve(it)) => serve_main(
            rt,
            alloc,
            it,
            STEPS,
            &mut out.files,
            &mut out.sink,
            with,
        ),
        Ok(MonitorCommand::Replay { id }) => replay_by(alloc, id, out),
        Ok(MonitorCommand::Generate { number }) => generate_by(number, out),
        Ok(MonitorCommand::Run { number }) => run_by(alloc, number, out),
        Err(why) => refuse_words(why, out),
    }
}
