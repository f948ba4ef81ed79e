// A whole script, read in pieces and run.
ghost use Rattle.std.specs.Prelude.{◌≡◌, ◌≤◌, ◌+◌, ◌^◌, [], ℕ, IfErr, MatchResult, OnOk, length};
ghost use Rattle.vm_outside.specs.Known.{Lasts, Tells};
ghost use Rattle.flat_machine.specs.Machine.{Machine};
ghost use Rattle.monitor_cli.specs.Known.{FilesCause, Known, SinkCause, SourceCause};
ghost use Rattle.monitor_cli.specs.Lines.{BeforeLast, Finished, IsRunsEnd, PastBy, Reached};

use crate::lines::{Paused, ScriptRun};
use vm_outside::{Files, Sink, Source};
use vm_types::{Exit, Object};

/// The most bytes that a script has.
const LONGEST: u64 = 1 << 63;

/// How many bytes are read at a time.
const PIECE: u64 = 4096;

/// Reads the script that the source has left, and runs it until its end or until the guest is off.
///
/// Errors: `Script` at a line that is none, and where the script goes on past 2^63 bytes; `Fault` of the
/// object that failed; `OutOfMemory`.
pub fn run_script<I: Source, F: Files, K: Sink>(
    run: &mut ScriptRun,
    source: &mut I,
    files: &mut F,
    sink: &mut K,
) -> Result<(), Exit>
    requires { run.old.line + length run.old.reader ≤ 1 }
    ensures finished { OnOk result
        (Tells (I.known source.old).health → Tells (F.known files.old).health → Tells (K.known sink.old).health →
        (start : Machine) (before : Known) →
        Reached start before [] (I.known source.old).left run.old (K.known sink.old) (F.known files.old) →
        Finished start before (I.known source.new).left run.new (K.known sink.new) (F.known files.new)) }
    ensures ended { IfErr result (λ exit. Tells (I.known source.old).health → Tells (F.known files.old).health →
        Tells (K.known sink.old).health →
        (start : Machine) (before : Known) →
        Reached start before [] (I.known source.old).left run.old (K.known sink.old) (F.known files.old) →
        BeforeLast exit start before (I.known source.new).left (K.known sink.new) (F.known files.new)) }
    ensures some { IfErr result IsRunsEnd }
    ensures source { MatchResult result (λ _. (I.known source.new).health.faults ≡ (I.known source.old).health.faults)
        (λ exit. SourceCause exit (I.known source.old).health.faults (I.known source.new).health.faults) }
    ensures sink { MatchResult result (λ _. (K.known sink.new).health.faults ≡ (K.known sink.old).health.faults)
        (λ exit. SinkCause exit (K.known sink.old).health.faults (K.known sink.new).health.faults) }
    ensures files { IfErr result (λ exit.
        FilesCause exit (F.known files.old).health.faults (F.known files.new).health.faults) }
    ensures lasts { Lasts (I.known source.old).health (I.known source.new).health
        × Lasts (F.known files.old).health (F.known files.new).health
        × Lasts (K.known sink.old).health (K.known sink.new).health }
{
    let mut piece = [0; PIECE as usize];
    let mut came = 0;
    'pieces: loop {
        match run.run_lines(files, sink) {
            Ok(Paused::Off) => return Ok(()),
            Ok(Paused::Empty) => {}
            Err(exit) => return Err(exit),
        }
        if came == LONGEST {
            return past_longest(run.line, source);
        }
        let room = PIECE.min(LONGEST - came) as usize;
        let Ok(count) = source.read(&mut piece[..room]) else {
            return Err(Exit::Fault(Object::Source));
        };
        if count == 0 {
            return Ok(());
        }
        let Ok(()) = run.reader.feed(&piece[..count]) else {
            return Err(Exit::OutOfMemory);
        };
        came += count as u64;
    }
}

// Whether nothing is left behind the longest script; else the line of this number is none.
fn past_longest<I: Source>(line: u64, source: &mut I) -> Result<(), Exit>
    ensures end { OnOk result (Tells (I.known source.old).health → ((I.known source.old).left ≡ [])
        × ((I.known source.new).left ≡ [])) }
    ensures more { IfErr result (λ exit. PastBy exit line (I.known source.old) (I.known source.new)) }
    ensures source { MatchResult result (λ _. (I.known source.new).health.faults ≡ (I.known source.old).health.faults)
        (λ exit. SourceCause exit (I.known source.old).health.faults (I.known source.new).health.faults) }
    ensures lasts { Lasts (I.known source.old).health (I.known source.new).health }
{
    let mut byte = [0; 1];
    match source.read(&mut byte) {
        Ok(0) => Ok(()),
        Ok(_) => Err(Exit::Script { line }),
        Err(_) => Err(Exit::Fault(Object::Source)),
    }
}
