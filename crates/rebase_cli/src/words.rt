// The words of the commands.
ghost use Rattle.std.specs.Prelude.{◌≡◌, IfErr, IfOk, Some, None, map, option_map, string_bytes};
ghost use Rattle.clap.specs.Words.{app_of, found_of, rows_of, shape_of, subcommand_rows_of};
ghost use Rattle.rebase_cli.specs.Said.{names_said, said, conversion_said};
ghost use Rattle.rebase_cli.specs.Words.{
  convert_app,
  edit_found,
  edit_in,
  edit_of,
  edit_rows,
  names_rows,
  rebase_app,
  tool_app,
  conversion_rows,
};

use clap::{ArgMatches, Command};
use command_line::{NoCommand, matches_of, named_in, program, value_in, value_option};
use std::alloc::{AllocError, Global};

/// The names of the two files of a merge.
#[derive(Clone, Copy, Drop)]
pub struct Paths<'a> {
    pub base: &'a str,
    pub diff: &'a str,
}

/// The name of a diff, and of the file that it is to be written to.
#[derive(Clone, Copy, Drop)]
pub struct Conversion<'a> {
    pub from: &'a str,
    pub to: &'a str,
}

/// A command of `edit-memory`.
#[derive(Clone, Copy, Drop)]
pub enum Edit<'a> {
    /// A diff is merged into a memory file.
    Rebase(Paths<'a>),
    /// A diff is written anew.
    Convert(Conversion<'a>),
}

/// The command that the words behind the program's name say: first `edit-memory`, and `clap` reads the others.
pub fn edit_in<'a>(alloc: Global, words: &'a [String]) -> Result<Edit<'a>, NoCommand>
    ensures said { IfOk result (λ it. edit_in (map string_bytes words.entry.now) ≡ Some (said it)) }
    ensures usage { IfErr result (λ why. why ≡ NoCommand.Usage → edit_in (map string_bytes words.entry.now) ≡ None) }
{
    let Some((tool, rest)) = words.split_first() else {
        return Err(NoCommand::Usage);
    };
    if tool.as_str() == "edit-memory" {
        edit_of(alloc, rest)
    } else {
        Err(NoCommand::Usage)
    }
}

fn edit_of<'a>(alloc: Global, words: &'a [String]) -> Result<Edit<'a>, NoCommand>
    ensures said { IfOk result (λ it. edit_of (map string_bytes words.entry.now) ≡ Some (said it)) }
    ensures usage { IfErr result (λ why. why ≡ NoCommand.Usage → edit_of (map string_bytes words.entry.now) ≡ None) }
{
    let Ok(tool) = edit_memory(alloc) else {
        return Err(NoCommand::OutOfMemory);
    };
    let matches = matches_of(tool, words)?;
    match edit_found(&matches) {
        Some(edit) => Ok(edit),
        None => Err(NoCommand::Usage),
    }
}

// The tool, with its commands.
fn edit_memory<'a>(alloc: Global) -> Result<Command<'a>, AllocError>
    ensures { IfOk result (λ tool. app_of tool ≡ tool_app) }
{
    program(alloc, "edit-memory")
        .subcommand(rebase(alloc)?)?
        .subcommand(convert(alloc)?)
}

fn rebase<'a>(alloc: Global) -> Result<Command<'a>, AllocError>
    ensures { IfOk result (λ command. shape_of command ≡ rebase_app.top) }
{
    Command::new(alloc, "rebase")
        .arg(value_option(alloc, "memory-path", true))?
        .arg(value_option(alloc, "diff-path", true))
}

fn convert<'a>(alloc: Global) -> Result<Command<'a>, AllocError>
    ensures { IfOk result (λ command. shape_of command ≡ convert_app.top) }
{
    Command::new(alloc, "convert")
        .arg(value_option(alloc, "diff-path", true))?
        .arg(value_option(alloc, "out-path", true))
}

// The command that was named.
fn edit_found<'a>(matches: &ArgMatches<'a>) -> Option<Edit<'a>>
    ensures { option_map said result ≡ edit_found (subcommand_rows_of matches.now) }
{
    let (name, found) = named_in(matches)?;
    edit_named(name, found)
}

fn edit_named<'a>(name: &str, found: &ArgMatches<'a>) -> Option<Edit<'a>>
    ensures { option_map said result ≡ edit_rows name.now (rows_of (found_of found.now)) }
{
    if name == "rebase" {
        Some(Edit::Rebase(named(found)?))
    } else if name == "convert" {
        Some(Edit::Convert(converted(found)?))
    } else {
        None
    }
}

fn named<'a>(found: &ArgMatches<'a>) -> Option<Paths<'a>>
    ensures { option_map names_said result ≡ names_rows (rows_of (found_of found.now)) }
{
    let base = value_in(found, "memory-path")?;
    let diff = value_in(found, "diff-path")?;
    Some(Paths { base, diff })
}

fn converted<'a>(found: &ArgMatches<'a>) -> Option<Conversion<'a>>
    ensures { option_map conversion_said result ≡ conversion_rows (rows_of (found_of found.now)) }
{
    let from = value_in(found, "diff-path")?;
    let to = value_in(found, "out-path")?;
    Some(Conversion { from, to })
}
