//! The program's commands, as `clap` takes them.

ghost use Rattle.std.specs.Prelude.{◌≡◌, IfOk, false};
ghost use Rattle.clap.specs.Words.{App, app_of, kind_of, new_app, with_subcommand};
ghost use Rattle.clap.specs.declared.builder.command.Command.TheViews.{out-Command as fields_of};
ghost use Rattle.program_arguments.specs.Commands.{bare_app, d64sh};
ghost use Rattle.program_arguments.specs.Making.{IsCommand, IsCommandMade};
ghost use Rattle.program_arguments.specs.Subcommands.{app_for, name_for};

use crate::help::{ABOUT, DETAILS};
use crate::subcommand::Subcommand;
use clap::error::ErrorKind;
use clap::{Command, Error};
use std::alloc::{AllocError, Global};

/// The program's version.
const VERSION: &str = "0.3.0";

/// Returns the command `d64sh`, with its subcommands.
pub(crate) fn d64sh<'a>(alloc: Global) -> Result<Command<'a>, AllocError>
    ensures { IsCommandMade d64sh result }
{
    let mut command = Ok(bare(alloc));
    for subcommand in Subcommand::ALL {
        command = with_subcommand(alloc, command, subcommand);
    }
    command
}

/// Returns the command with this subcommand, or that memory ran out.
fn with_subcommand<'a>(
    alloc: Global,
    command: Result<Command<'a>, AllocError>,
    subcommand: Subcommand,
) -> Result<Command<'a>, AllocError>
    ensures { (app : App) → IsCommandMade app command.entry → IsCommandMade (with_subcommand app (app_for subcommand).top) result }
{
    above(command?, subcommand.command(alloc))
}

/// Returns the first command with the second as a subcommand, or that memory ran out. Its exit is the
/// only one that drops a command, which costs the prover much (docs/GATE.md).
fn above<'a>(
    command: Command<'a>,
    below: Result<Command<'a>, AllocError>,
) -> Result<Command<'a>, AllocError>
    ensures { (app sub : App) → IsCommand app command.entry → IsCommandMade sub below.entry → IsCommandMade (with_subcommand app sub.top) result }
{
    command.subcommand(below?)
}

/// Returns an error of this kind with this text and this usage.
pub(crate) fn error(
    alloc: Global,
    usage: &'static str,
    kind: ErrorKind,
    message: &str,
) -> Result<Error, AllocError>
    ensures { IfOk result (λ error. kind_of error ≡ kind) }
{
    bare(alloc).override_usage(usage).error(kind, message)
}

/// Returns the command `d64sh` without its subcommands.
fn bare<'a>(alloc: Global) -> Command<'a>
    ensures { IsCommand bare_app result }
{
    described(alloc, "d64sh", ABOUT, DETAILS)
        .version(VERSION)
        .subcommand_required(true)
        .arg_required_else_help(true)
}

/// Returns the command of a subcommand, without arguments yet.
pub(crate) fn begun<'a>(alloc: Global, subcommand: Subcommand) -> Command<'a>
    ensures { IsCommand (new_app (name_for subcommand)) result }
{
    let help = subcommand.help();
    described(alloc, help.name, help.about, help.details).override_usage(help.usage)
}

/// Returns a command with these texts.
fn described<'a>(
    alloc: Global,
    name: &'static str,
    about: &'static str,
    details: &'static str,
) -> Command<'a>
    ensures { IsCommand (new_app name.now) result }
{
    let name: &'a str = name;
    Command::new(alloc, name).about(about).after_help(details)
}
