// What a replay came to against what is wanted.
ghost use Rattle.std.specs.Prelude.{◌≡◌, IfOk, IsNone};

use crate::case::Wanted;
use crate::held::Held;
use crate::replaying::Replayed;
use outside_mem::{FileEvent, MemoryFiles, MemorySink};
use std::alloc::{AllocError, Global};
use vm_outside::Sink;

/// What differs first, in words, where something does: output, status, or a file.
pub fn difference(
    alloc: Global,
    replayed: &Replayed,
    wanted: &Wanted,
) -> Result<Option<String>, AllocError>
    ensures output { IfOk result (λ told. IsNone told → (⟦<MemorySink as Sink>⟧.known replayed.now.sink).taken ≡ wanted.now.output.items) }
    ensures status { IfOk result (λ told. IsNone told → replayed.now.status ≡ wanted.now.status) }
{
    let output = replayed.sink.taken();
    if output != wanted.output.as_slice() {
        let told = output_difference(alloc, text_of(output), text_of(&wanted.output))?;
        return Ok(Some(told));
    }
    if replayed.status != wanted.status {
        let told = format!(in alloc; "status {}, wanted {}", replayed.status, wanted.status)?;
        return Ok(Some(told));
    }
    match &wanted.files {
        Some(files) => files_difference(alloc, &replayed.files, files),
        None => Ok(None),
    }
}

fn text_of(output: &[u8]) -> &str {
    str::from_utf8(output).unwrap_or("(no text)")
}

// From which line on two outputs differ that do, and the first of them.
fn output_difference(alloc: Global, output: &str, wanted: &str) -> Result<String, AllocError> {
    let mut number = 1u64;
    for (line, wanted_line) in output.lines().zip(wanted.lines()) {
        if line != wanted_line {
            break;
        }
        number = number.saturating_add(1);
    }
    format!(in alloc; "from line {number} on the output isn't what is wanted; it is\n{output}")
}

// A file that holds something else, or one that was made and isn't among those that are wanted.
fn files_difference(
    alloc: Global,
    files: &MemoryFiles,
    wanted: &[Held],
) -> Result<Option<String>, AllocError> {
    for held in wanted {
        if files.find(held.name.as_str()) != held.content.as_deref() {
            return Ok(Some(format!(in alloc; "the file {} holds something else", held.name)?));
        }
    }
    for event in files.log() {
        if let FileEvent::Made { name } = event {
            if !wanted
                .iter()
                .any(|held| held.name.as_str() == name.as_str())
            {
                return Ok(Some(format!(in alloc; "a file {} that isn't wanted", name.as_str())?));
            }
        }
    }
    Ok(None)
}
