// Words read as the simple command.
ghost use Rattle.std.specs.Prelude.{◌≡◌, map, IfOk};
ghost use Rattle.std.specs.String.{string_bytes};
ghost use Rattle.clap.specs.Matches.{found_of};
ghost use Rattle.clap.specs.Walk.{rows_of};
ghost use Rattle.clap.specs.Simple.{app_of};
ghost use Rattle.fing_words.specs.SimpleCommand.{simple_command};
ghost use Rattle.fing_words.specs.CommandLines.{IsFound, ReadsAs};

use crate::command_line::CommandLine;
use crate::table::line_of;
use clap::error::ErrorKind;
use clap::{Arg, ArgAction, ArgMatches, Command};
use omega_kinds::Mem;
use std::alloc::{AllocError, Global};

// The simple command: `command`, which is required, `n` and `--budget`, each with one text as its value, and the flag
// `--simplify`.
fn command<'a>(alloc: Global) -> Result<Command<'a>, AllocError>
    ensures { IfOk result (λ made. app_of made ≡ simple_command) }
{
    let name = Arg::new(alloc, "command")
        .action(ArgAction::Set)
        .required(true);
    let n = Arg::new(alloc, "n").action(ArgAction::Set);
    let budget = Arg::new(alloc, "budget")
        .long("budget")
        .action(ArgAction::Set);
    let simplify = Arg::new(alloc, "simplify")
        .long("simplify")
        .action(ArgAction::SetTrue);
    let plain = Command::new(alloc, "fing")
        .no_binary_name(true)
        .disable_help_flag(true)
        .disable_version_flag(true);
    plain.arg(name)?.arg(n)?.arg(budget)?.arg(simplify)
}

// The command line of the values that a parse found.
fn line_in(matches: &ArgMatches<'_>) -> Option<CommandLine>
    ensures { IsFound (rows_of (found_of matches.now)) result }
{
    line_of(
        matches.get_str("command")?,
        matches.get_str("n"),
        matches.get_str("budget"),
        matches.get_str("simplify")?,
    )
}

/// The command line that `words` are, which are those after the program's name, or `None` where they are none.
///
/// The words are read as clap reads a simple command with a required positional `command`, an optional positional `n`,
/// an option `--budget` of one value and a flag `--simplify`, and with no flags for help and the version; so `--` ends
/// the options, and an option or a flag that is given twice makes the words no command line. A number is one to eight
/// ASCII digits. `check`, `emit`, `link` and `verify` take neither `n` nor `--budget`; `run` takes a budget from 0 to
/// 10,000,000, which is 1,000,000 where it is absent; `gen` takes an `n` from 1 to 300. Only `emit` takes `--simplify`.
/// `Err` is want of memory.
pub fn read_words(alloc: Global, words: &[String]) -> Result<Option<CommandLine>, Mem>
    ensures { IfOk result (ReadsAs (map string_bytes words.now)) }
{
    match command(alloc)?.try_get_matches_from(words) {
        Ok(matches) => Ok(line_in(&matches)),
        Err(error) => match error.kind() {
            ErrorKind::OutOfMemory => Err(Mem),
            _ => Ok(None),
        },
    }
}
