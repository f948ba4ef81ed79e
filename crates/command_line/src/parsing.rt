// How the words of a program are parsed.
ghost use Rattle.std.specs.Prelude.{◌≡◌, IfErr, IfOk, true, false, map, option_map, string_bytes};
ghost use Rattle.std.specs.List.{list_any};
ghost use Rattle.clap.specs.Words.{app_of, first_of, found_of, is_simple_and_free, rows_of, rule_of, subcommand_rows_of};
ghost use Rattle.command_line.specs.Programs.{IsRead, IsUsage, has_one_dash, option_rule, program_app};

use clap::builder::ValueParser;
use clap::error::ErrorKind;
use clap::{Arg, ArgAction, ArgMatches, Command};
use std::alloc::Global;

/// Why words are no command.
#[derive(Clone, Copy, Drop)]
pub enum NoCommand {
    /// They say none.
    Usage,
    /// There was no memory to read them.
    OutOfMemory,
}

/// An option with one value, which has a byte: `--name VALUE` or `--name=VALUE`.
pub fn value_option<'a>(alloc: Global, name: &'a str, required: bool) -> Arg<'a>
    ensures rule { rule_of result ≡ option_rule name.entry.now required }
    ensures local { result.global ≡ false }
{
    Arg::new(alloc, name)
        .long(name)
        .required(required)
        .action(ArgAction::Set)
        .value_parser(ValueParser::NonEmptyString)
}

/// A program whose words stand behind its name. They name one of its subcommands, and there is no help.
pub fn program<'a>(alloc: Global, name: &'a str) -> Command<'a>
    ensures { app_of result ≡ program_app name.entry.now }
{
    Command::new(alloc, name)
        .no_binary_name(true)
        .disable_help_flag(true)
        .disable_help_subcommand(true)
        .subcommand_required(true)
}

/// What a program's words match. A word with one dash is refused here: no command has such an option, and `clap` would take a
/// lone `-` as a value.
pub fn matches_of<'a>(
    program: Command<'a>,
    words: &'a [String],
) -> Result<ArgMatches<'a>, NoCommand>
    ensures read { is_simple_and_free (app_of program.entry) ≡ true →
        IfOk result (IsRead (app_of program.entry) (map string_bytes words.entry.now)) }
    ensures usage { is_simple_and_free (app_of program.entry) ≡ true →
        IfErr result (λ why. why ≡ NoCommand.Usage → IsUsage (app_of program.entry) (map string_bytes words.entry.now)) }
{
    if has_dashed(words) {
        return Err(NoCommand::Usage);
    }
    match program.try_get_matches_from(words) {
        Ok(matches) => Ok(matches),
        Err(error) => match error.kind() {
            ErrorKind::OutOfMemory => Err(NoCommand::OutOfMemory),
            _ => Err(NoCommand::Usage),
        },
    }
}

fn has_dashed(words: &[String]) -> bool
    ensures { result ≡ list_any (λ word. has_one_dash (string_bytes word)) words.now }
{
    words.iter().any(|word| has_one_dash(word.as_bytes()))
}

fn has_one_dash(word: &[u8]) -> bool
    ensures { result ≡ has_one_dash word.now }
{
    match word {
        [] => false,
        [first] => *first == b'-',
        [first, second, ..] => *first == b'-' && *second != b'-',
    }
}

/// The subcommand that was named, and what was found for it.
pub fn named_in<'a, 'm>(matches: &'m ArgMatches<'a>) -> Option<(&'a str, &'m ArgMatches<'a>)>
    ensures { option_map (λ p. (p.0.now, rows_of (found_of p.1.now))) result ≡ subcommand_rows_of matches.now }
{
    matches.subcommand()
}

/// The value that was found for an argument.
pub fn value_in<'a>(matches: &ArgMatches<'a>, name: &str) -> Option<&'a str>
    ensures { option_map (λ t. t.now) result ≡ first_of name.now (rows_of (found_of matches.now)) }
{
    matches.get_str(name)
}
