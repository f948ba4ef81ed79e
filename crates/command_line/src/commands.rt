// The commands of the program `firecracker`, as `clap` is told of them.
ghost use Rattle.std.specs.Prelude.{◌≡◌, IfOk};
ghost use Rattle.clap.specs.Words.{app_of, shape_of};
ghost use Rattle.command_line.specs.Programs.{monitor_app, number_app, replay_app, serve_app};

use crate::parsing::{program, value_option};
use clap::{Arg, Command};
use std::alloc::{AllocError, Global};

/// `firecracker` with its subcommands.
pub(crate) fn monitor_program<'a>(alloc: Global) -> Result<Command<'a>, AllocError>
    ensures { IfOk result (λ program. app_of program ≡ monitor_app) }
{
    program(alloc, "firecracker")
        .subcommand(replay(alloc)?)?
        .subcommand(serve(alloc)?)?
        .subcommand(with_number(alloc, "generate")?)?
        .subcommand(with_number(alloc, "run")?)
}

// `replay [--id ID]`
fn replay<'a>(alloc: Global) -> Result<Command<'a>, AllocError>
    ensures { IfOk result (λ command. shape_of command ≡ replay_app.top) }
{
    Command::new(alloc, "replay").arg(value_option(alloc, "id", false))
}

// `serve --api-sock PATH [--id ID] [--trace FILE]`
fn serve<'a>(alloc: Global) -> Result<Command<'a>, AllocError>
    ensures { IfOk result (λ command. shape_of command ≡ serve_app.top) }
{
    Command::new(alloc, "serve")
        .arg(value_option(alloc, "api-sock", true))?
        .arg(value_option(alloc, "id", false))?
        .arg(value_option(alloc, "trace", false))
}

// `generate N` and `run N`
fn with_number<'a>(alloc: Global, name: &'a str) -> Result<Command<'a>, AllocError>
    ensures { IfOk result (λ command. shape_of command ≡ (number_app name.entry.now).top) }
{
    Command::new(alloc, name).arg(Arg::new(alloc, "number").required(true))
}
