// What the words of the program `firecracker` say.
ghost use Rattle.std.specs.Prelude.{◌≡◌, IfErr, IfOk, Some, None, codes, map, option_map, string_bytes};
ghost use Rattle.clap.specs.Words.{first_of, found_of, rows_of, subcommand_rows_of};
ghost use Rattle.command_line.specs.Commands.{command_of, generate_number, replay_id, run_number, serve_by};
ghost use Rattle.command_line.specs.MachineId.{machine_id};
ghost use Rattle.command_line.specs.Programs.{command_by, command_rows, number_rows};
ghost use Rattle.command_line.specs.Said.{said, words_said};

use crate::commands::monitor_program;
use crate::machine_id::{DEFAULT_ID, is_id};
use crate::number::load_number;
use crate::parsing::{NoCommand, matches_of, named_in, value_in};
use clap::ArgMatches;
use std::alloc::Global;

/// The socket under whose name a machine is served, its id, and the name of the trace if one is kept.
#[derive(Clone, Copy, Drop)]
pub struct ServeWords<'a> {
    pub socket: &'a str,
    pub id: &'a str,
    pub trace: Option<&'a str>,
}

/// A command of the program `firecracker`.
#[derive(Clone, Copy, Drop)]
pub enum MonitorCommand<'a> {
    /// A replay on a machine of this id.
    Replay { id: &'a str },
    /// A machine that is served.
    Serve(ServeWords<'a>),
    /// The script of this number, written.
    Generate { number: u32 },
    /// The script of this number, run.
    Run { number: u32 },
}

/// The command that the words behind the program's name say: `replay [--id ID]`,
/// `serve --api-sock PATH [--id ID] [--trace FILE]`, `generate N` or `run N`. An id has 1 to 64 letters and digits of ASCII and
/// `-`, and is `anonymous-instance` without the option; N is from 0 to 4,294,967,295, in decimal digits without leading
/// zeros.
pub fn monitor_command<'a>(
    alloc: Global,
    words: &'a [String],
) -> Result<MonitorCommand<'a>, NoCommand>
    ensures said { IfOk result (λ it. command_of (map string_bytes words.entry.now) ≡ Some (said it)) }
    ensures usage { IfErr result (λ why. why ≡ NoCommand.Usage → command_of (map string_bytes words.entry.now) ≡ None) }
{
    let Ok(program) = monitor_program(alloc) else {
        return Err(NoCommand::OutOfMemory);
    };
    let matches = matches_of(program, words)?;
    match command_in(&matches) {
        Some(command) => Ok(command),
        None => Err(NoCommand::Usage),
    }
}

/// The id that the words of a replay give its machine.
pub fn replay_id<'a>(alloc: Global, words: &'a [String]) -> Result<&'a str, NoCommand>
    ensures said { IfOk result (λ id. replay_id (map string_bytes words.entry.now) ≡ Some id.now) }
    ensures usage { IfErr result (λ why. why ≡ NoCommand.Usage → replay_id (map string_bytes words.entry.now) ≡ None) }
{
    match monitor_command(alloc, words)? {
        MonitorCommand::Replay { id } => Ok(id),
        MonitorCommand::Serve(_) => Err(NoCommand::Usage),
        MonitorCommand::Generate { .. } => Err(NoCommand::Usage),
        MonitorCommand::Run { .. } => Err(NoCommand::Usage),
    }
}

/// The N of `generate N`.
pub fn generate_number(alloc: Global, words: &[String]) -> Result<u32, NoCommand>
    ensures said { IfOk result (λ number. generate_number (map string_bytes words.now) ≡ Some number) }
    ensures usage { IfErr result (λ why. why ≡ NoCommand.Usage → generate_number (map string_bytes words.now) ≡ None) }
{
    match monitor_command(alloc, words)? {
        MonitorCommand::Generate { number } => Ok(number),
        MonitorCommand::Replay { .. } => Err(NoCommand::Usage),
        MonitorCommand::Serve(_) => Err(NoCommand::Usage),
        MonitorCommand::Run { .. } => Err(NoCommand::Usage),
    }
}

/// The N of `run N`.
pub fn run_number(alloc: Global, words: &[String]) -> Result<u32, NoCommand>
    ensures said { IfOk result (λ number. run_number (map string_bytes words.now) ≡ Some number) }
    ensures usage { IfErr result (λ why. why ≡ NoCommand.Usage → run_number (map string_bytes words.now) ≡ None) }
{
    match monitor_command(alloc, words)? {
        MonitorCommand::Run { number } => Ok(number),
        MonitorCommand::Replay { .. } => Err(NoCommand::Usage),
        MonitorCommand::Serve(_) => Err(NoCommand::Usage),
        MonitorCommand::Generate { .. } => Err(NoCommand::Usage),
    }
}

// The command that was named.
fn command_in<'a>(matches: &ArgMatches<'a>) -> Option<MonitorCommand<'a>>
    ensures { option_map said result ≡ command_by (subcommand_rows_of matches.now) }
{
    let (name, found) = named_in(matches)?;
    command_named(name, found)
}

fn command_named<'a>(name: &str, found: &ArgMatches<'a>) -> Option<MonitorCommand<'a>>
    ensures { option_map said result ≡ command_rows name.now (rows_of (found_of found.now)) }
{
    if name == "replay" {
        let id = machine_id(value_in(found, "id"))?;
        Some(MonitorCommand::Replay { id })
    } else if name == "serve" {
        Some(MonitorCommand::Serve(served(found)?))
    } else if name == "generate" {
        let number = number_in(found)?;
        Some(MonitorCommand::Generate { number })
    } else if name == "run" {
        let number = number_in(found)?;
        Some(MonitorCommand::Run { number })
    } else {
        None
    }
}

fn served<'a>(found: &ArgMatches<'a>) -> Option<ServeWords<'a>>
    ensures { option_map words_said result ≡ serve_by (first_of (codes "api-sock") (rows_of (found_of found.now)))
        (machine_id (first_of (codes "id") (rows_of (found_of found.now))))
        (first_of (codes "trace") (rows_of (found_of found.now))) }
{
    let socket = value_in(found, "api-sock")?;
    let id = machine_id(value_in(found, "id"))?;
    let trace = value_in(found, "trace");
    Some(ServeWords { socket, id, trace })
}

fn number_in(found: &ArgMatches<'_>) -> Option<u32>
    ensures { result ≡ number_rows (rows_of (found_of found.now)) }
{
    load_number(value_in(found, "number")?)
}

// The id of a machine that is given this one, or none.
fn machine_id<'a>(given: Option<&'a str>) -> Option<&'a str>
    ensures { option_map (λ id. id.now) result ≡ machine_id (option_map (λ id. id.now) given.entry) }
{
    match given {
        None => Some(DEFAULT_ID),
        Some(id) => if is_id(id) { Some(id) } else { None },
    }
}
