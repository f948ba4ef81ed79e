// The command `generate N`.
ghost use Rattle.std.specs.Prelude.{◌≡◌, ◌≢◌, ℕ, List, Some, map, string_bytes};
ghost use Rattle.command_line.specs.Commands.{generate_number};
ghost use Rattle.load_cli.specs.Generating.{Generated};

use command_line::{NoCommand, generate_number};
use load_gen::generate;
use monitor_cli::{Outside, refuse_words};
use vm_outside::{Failed, Files, Sink, Source};
use vm_types::{Exit, Object};

/// Writes the script of the number N to the sink. The words are read in memory of their own allocator.
///
/// `Usage`: the words are not `generate N`; the last line that says so is all that is written, as where there is no memory to
/// read them. `Fault` of the sink: it failed, and took a front of the script.
pub fn generate_main<I: Source, O: Sink, F: Files>(
    words: &[String],
    out: &mut Outside<I, O, F>,
) -> Exit
    ensures generated { Generated (map string_bytes words.now) result (O.known out.old.sink) (O.known out.new.sink) }
    ensures untouched { (out.new.source ≡ out.old.source) × (out.new.files ≡ out.old.files) }
{
    let number = match words.first() {
        Some(word) => generate_number(*word.allocator(), words),
        None => Err(NoCommand::Usage),
    };
    match number {
        Ok(number) => generate_by(number, out),
        Err(why) => refuse_words(why, out),
    }
}

/// The script of this number, which words of the command gave, to the sink, without taking memory.
pub fn generate_by<I: Source, O: Sink, F: Files>(number: u32, out: &mut Outside<I, O, F>) -> Exit
    ensures generated { (words : List (List ℕ)) → generate_number words ≡ Some number →
        Generated words result (O.known out.old.sink) (O.known out.new.sink) }
    ensures no_shortage { result ≢ Exit.OutOfMemory }
    ensures untouched { (out.new.source ≡ out.old.source) × (out.new.files ≡ out.old.files) }
{
    match generate(number, &mut out.sink) {
        Ok(()) => Exit::Done,
        Err(Failed) => Exit::Fault(Object::Sink),
    }
}
