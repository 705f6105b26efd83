// The table of commands: which values of the simple command are which command line.
ghost use Rattle.std.specs.Prelude.{Bool, MatchOption};
ghost use Rattle.std.specs.Option.{option_copied};
ghost use Rattle.fing_words.specs.CommandLines.{IsFlag, IsRow};

use crate::command_line::CommandLine;
use crate::number::number_from;

// The steps of `run` where none are given.
const DEFAULT_BUDGET: u32 = 1000000;
// The most steps of `run`.
const MOST_STEPS: u32 = 10000000;
// The greatest size of a generated program.
const MOST_SIZE: u32 = 300;

// Whether a flag of this value is given: clap finds `true` for it where it is, and else `false`.
fn flag_of(value: &str) -> Option<bool>
    ensures { MatchOption result ((given : Bool) → IsFlag value.now given → ⊥) (IsFlag value.now) }
{
    match value {
        "true" => Some(true),
        "false" => Some(false),
        _ => None,
    }
}

// The command line of these values of `command`, `n`, `--budget` and `--simplify`.
pub(crate) fn line_of(
    command: &str,
    n: Option<&str>,
    budget: Option<&str>,
    simplify: &str,
) -> Option<CommandLine>
    ensures { IsRow command.now (option_copied n.entry) (option_copied budget.entry) simplify.now result }
{
    let simplify = flag_of(simplify)?;
    match (command, n, budget, simplify) {
        ("check", None, None, false) => Some(CommandLine::Check),
        ("emit", None, None, simplify) => Some(CommandLine::Emit { simplify }),
        ("link", None, None, false) => Some(CommandLine::Link),
        ("run", None, None, false) => Some(CommandLine::Run {
            budget: DEFAULT_BUDGET,
        }),
        ("run", None, Some(steps), false) => {
            let budget = number_from(steps, 0, MOST_STEPS)?;
            Some(CommandLine::Run { budget })
        }
        ("verify", None, None, false) => Some(CommandLine::Verify),
        ("gen", Some(size), None, false) => {
            let size = number_from(size, 1, MOST_SIZE)?;
            Some(CommandLine::Gen { size })
        }
        _ => None,
    }
}
