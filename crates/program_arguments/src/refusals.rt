//! What an error of `clap` gets beside its message: the usage, and a tip.

ghost use Rattle.std.specs.Prelude.{◌≡◌, IfOk, map, option_map};
ghost use Rattle.clap.specs.Words.{kind_of};
ghost use Rattle.clap.specs.declared.error.kind.ErrorKind.{ErrorKind};
ghost use Rattle.program_tips.specs.Meant.{meant_parts};
ghost use Rattle.program_arguments.specs.Refusals.{lacks_usage, tip_for};
ghost use Rattle.program_arguments.specs.Requested.{IsFaultOfKind};
ghost use Rattle.program_arguments.specs.Usages.{refused_usage};

use crate::command;
use crate::help::USAGE;
use crate::jobs::JobFault;
use crate::subcommand::Subcommand;
use clap::Error;
use clap::error::ErrorKind;
use program_tips::{Meant, message_with};
use std::alloc::{AllocError, Global};

/// Returns the fault for an error of these arguments, of which the first is the program's name, by
/// the command of this subcommand, or by that of the program. It has the usage if `clap` prints
/// none for such an error, and a tip if the shell was probably meant: an image is in the place of
/// the subcommand, or a line follows the image without `-c`.
pub(crate) fn refusal(
    alloc: Global,
    arguments: &[&str],
    subcommand: Option<Subcommand>,
    error: Error,
) -> JobFault
    ensures { IsFaultOfKind (kind_of error) result }
{
    let kind = error.kind();
    let tip = tip_for(arguments, subcommand, kind);
    if tip.is_some() || lacks_usage(subcommand, kind) {
        reported(made_again(alloc, usage_of(subcommand), tip, &error))
    } else {
        JobFault::from(error)
    }
}

/// Returns what was probably meant by arguments that are refused by an error of this kind.
fn tip_for<'a>(
    arguments: &'a [&'a str],
    subcommand: Option<Subcommand>,
    kind: ErrorKind,
) -> Option<Meant<'a>>
    ensures { option_map meant_parts result ≡ tip_for (map (λ argument. argument.now) arguments.now) subcommand kind }
{
    match (subcommand, kind) {
        (None, ErrorKind::InvalidSubcommand) => Meant::image_first(arguments),
        (Some(Subcommand::Shell), ErrorKind::UnknownArgument) => Meant::line_after_image(arguments),
        _ => None,
    }
}

/// Whether `clap` prints no usage for an error of this kind: that an option lacks its value.
fn lacks_usage(subcommand: Option<Subcommand>, kind: ErrorKind) -> bool
    ensures { result ≡ lacks_usage subcommand kind }
{
    subcommand.is_some() && kind == ErrorKind::InvalidValue
}

/// Returns the usage of a subcommand, or that of the program.
fn usage_of(subcommand: Option<Subcommand>) -> &'static str
    ensures { result.now ≡ refused_usage subcommand }
{
    match subcommand {
        Some(subcommand) => subcommand.help().usage,
        None => USAGE,
    }
}

/// Returns an error with this usage, and with this tip after its message.
fn made_again(
    alloc: Global,
    usage: &'static str,
    tip: Option<Meant<'_>>,
    error: &Error,
) -> Result<Error, AllocError>
    ensures { IfOk result (λ made. kind_of made ≡ kind_of error.now) }
{
    let text = format!(in alloc; "{error}")?;
    let message = message_with(alloc, text.as_str(), tip)?;
    command::error(alloc, usage, error.kind(), message.as_str())
}

/// Returns the fault for an error that was made, or for the memory that it lacked.
fn reported(error: Result<Error, AllocError>) -> JobFault
    ensures { (kind : ErrorKind) → IfOk error (λ made. kind_of made ≡ kind) → IsFaultOfKind kind result }
{
    match error {
        Ok(made) => JobFault::from(made),
        Err(lacking) => JobFault::from(lacking),
    }
}
