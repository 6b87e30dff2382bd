//! The arguments of subcommands, as rows of a table, and what `clap` makes of them.

ghost use Rattle.std.specs.Prelude.{◌≡◌, false};
ghost use Rattle.clap.specs.Words.{App, rule_of, with_rule};
ghost use Rattle.program_arguments.specs.Commands.{files_argument, flag, line_option, optional_argument, output_option, required_argument, stop_flag, valued_option};
ghost use Rattle.program_arguments.specs.Making.{IsArgument, IsCommand, IsCommandMade, rule_for, with_rules};

use clap::{Arg, ArgAction, Command};
use std::alloc::{AllocError, Global};

/// An argument of a subcommand: its name, the name of its value and its help, without what all
/// arguments of its kind have in common.
#[derive(Clone, Copy)]
pub(crate) enum Argument {
    /// `--NAME VALUE`.
    Valued(&'static str, &'static str, &'static str),
    /// `--NAME`.
    Flag(&'static str, &'static str),
    /// `NAME`, which must be given.
    Required(&'static str, &'static str, &'static str),
    /// `[NAME]`.
    Optional(&'static str, &'static str, &'static str),
    /// `[FILE]..`.
    Files(&'static str),
    /// `-o VALUE` and `--output VALUE`.
    Output(&'static str, &'static str),
    /// `-c LINE` and `--command LINE`, any number of times.
    Line,
    /// `-e` and `--stop-at-refusal`.
    StopFlag,
}

impl Argument {
    /// Returns the argument as `clap` takes it.
    fn arg<'a>(self, alloc: Global) -> Arg<'a>
        ensures { IsArgument (rule_for self) result }
    {
        match self {
            Argument::Valued(name, value, help) => valued_option(alloc, name, value, help),
            Argument::Flag(name, help) => flag(alloc, name, help),
            Argument::Required(id, name, help) => required_argument(alloc, id, name, help),
            Argument::Optional(id, name, help) => optional_argument(alloc, id, name, help),
            Argument::Files(help) => files_argument(alloc, help),
            Argument::Output(value, help) => output_option(alloc, value, help),
            Argument::Line => line_option(alloc),
            Argument::StopFlag => stop_flag(alloc),
        }
    }
}

/// Returns the command with these arguments added, or that memory ran out.
pub(crate) fn with_arguments<'a>(
    alloc: Global,
    command: Command<'a>,
    arguments: &[Argument],
) -> Result<Command<'a>, AllocError>
    ensures { (app : App) → IsCommand app command.entry → IsCommandMade (with_rules app arguments.now) result }
{
    let mut command = Ok(command);
    for argument in arguments {
        command = with_argument(alloc, command, *argument);
    }
    command
}

/// Returns the command with this argument added. The command is passed as a `Result`: an exit by `?`
/// that drops it costs the prover much (docs/GATE.md).
fn with_argument<'a>(
    alloc: Global,
    command: Result<Command<'a>, AllocError>,
    argument: Argument,
) -> Result<Command<'a>, AllocError>
    ensures { (app : App) → IsCommandMade app command.entry → IsCommandMade (with_rule app (rule_for argument)) result }
{
    command?.arg(argument.arg(alloc))
}

/// Returns `[NAME]`.
fn optional_argument<'a>(alloc: Global, id: &'a str, name: &'a str, help: &'a str) -> Arg<'a>
    ensures rule { rule_of result ≡ optional_argument id.now }
    ensures local { result.global ≡ false }
{
    Arg::new(alloc, id).value_name(name).help(help)
}

/// Returns `[FILE]..`.
fn files_argument<'a>(alloc: Global, help: &'a str) -> Arg<'a>
    ensures rule { rule_of result ≡ files_argument }
    ensures local { result.global ≡ false }
{
    optional_argument(alloc, "file", "FILE", help).num_args(1..)
}

/// Returns `NAME`, which must be given.
fn required_argument<'a>(alloc: Global, id: &'a str, name: &'a str, help: &'a str) -> Arg<'a>
    ensures rule { rule_of result ≡ required_argument id.now }
    ensures local { result.global ≡ false }
{
    optional_argument(alloc, id, name, help).required(true)
}

/// Returns `--NAME VALUE`.
fn valued_option<'a>(alloc: Global, name: &'a str, value: &'a str, help: &'a str) -> Arg<'a>
    ensures rule { rule_of result ≡ valued_option name.now }
    ensures local { result.global ≡ false }
{
    optional_argument(alloc, name, value, help).long(name)
}

/// Returns `-o VALUE` and `--output VALUE`.
fn output_option<'a>(alloc: Global, value: &'a str, help: &'a str) -> Arg<'a>
    ensures rule { rule_of result ≡ output_option }
    ensures local { result.global ≡ false }
{
    valued_option(alloc, "output", value, help).short('o')
}

/// Returns `-c LINE` and `--command LINE`, any number of times.
fn line_option<'a>(alloc: Global) -> Arg<'a>
    ensures rule { rule_of result ≡ line_option }
    ensures local { result.global ≡ false }
{
    valued_option(
        alloc,
        "command",
        "LINE",
        "A line to run, in place of the standard input; more of them run in turn",
    )
    .short('c')
    .action(ArgAction::Append)
}

/// Returns `-e` and `--stop-at-refusal`.
fn stop_flag<'a>(alloc: Global) -> Arg<'a>
    ensures rule { rule_of result ≡ stop_flag }
    ensures local { result.global ≡ false }
{
    flag(
        alloc,
        "stop-at-refusal",
        "End the script after the first line that is refused",
    )
    .short('e')
}

/// Returns `--NAME`.
fn flag<'a>(alloc: Global, name: &'a str, help: &'a str) -> Arg<'a>
    ensures rule { rule_of result ≡ flag name.now }
    ensures local { result.global ≡ false }
{
    Arg::new(alloc, name)
        .long(name)
        .action(ArgAction::SetTrue)
        .help(help)
}
