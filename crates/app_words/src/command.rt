// The command, as clap reads it.
ghost use Rattle.std.specs.Prelude.{◌≡◌, IfOk, false, map, string_bytes};
ghost use Rattle.clap.specs.Words.{App, app_of, rule_of, rows_of, found_of, matches_of, fault_of, FailsBy, new_rule, with_rule};
ghost use Rattle.app_words.specs.Command.{bare_app, command, valued, flag};

use clap::{Arg, ArgAction, ArgMatches, Command, Error};
use std::alloc::{AllocError, Global};

fn with_positional<'a>(
    command: Command<'a>,
    alloc: Global,
    name: &'a str,
) -> Result<Command<'a>, AllocError>
    ensures { IfOk result (λ c. app_of c ≡ with_rule (app_of command.entry) (new_rule name.entry.now)) }
{
    command.arg(Arg::new(alloc, name))
}

fn with_value<'a>(
    command: Command<'a>,
    alloc: Global,
    name: &'a str,
) -> Result<Command<'a>, AllocError>
    ensures { IfOk result (λ c. app_of c ≡ with_rule (app_of command.entry) (valued name.entry.now)) }
{
    command.arg(Arg::new(alloc, name).long(name).action(ArgAction::Set))
}

fn with_flag<'a>(
    command: Command<'a>,
    alloc: Global,
    name: &'a str,
) -> Result<Command<'a>, AllocError>
    ensures { IfOk result (λ c. app_of c ≡ with_rule (app_of command.entry) (flag name.entry.now)) }
{
    command.arg(Arg::new(alloc, name).long(name).action(ArgAction::SetTrue))
}

fn bare_command<'a>(alloc: Global) -> Command<'a>
    ensures { app_of result ≡ bare_app }
{
    Command::new(alloc, "swiftview")
        .disable_help_flag(true)
        .disable_version_flag(true)
}

fn command_of<'a>(alloc: Global) -> Result<Command<'a>, AllocError>
    ensures { IfOk result (λ c. app_of c ≡ command) }
{
    let mut command = bare_command(alloc);
    command = with_positional(command, alloc, "app")?;
    command = with_positional(command, alloc, "script")?;
    command = with_value(command, alloc, "size")?;
    command = with_value(command, alloc, "check")?;
    command = with_value(command, alloc, "workload")?;
    command = with_flag(command, alloc, "trace")?;
    command = with_flag(command, alloc, "state")?;
    command = with_flag(command, alloc, "layout")?;
    with_flag(command, alloc, "prefs")
}

/// What clap makes of the words.
pub(crate) fn matches_from<'a>(alloc: Global, words: &'a [String]) -> Result<ArgMatches<'a>, Error>
    ensures matches { IfOk result (λ m. rows_of (found_of m) ≡ matches_of command (map string_bytes words.entry.now)) }
    ensures fails { FailsBy (fault_of command (map string_bytes words.entry.now)) result }
{
    command_of(alloc)?.try_get_matches_from(words)
}
