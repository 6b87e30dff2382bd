//! The forms of output that `--format` names.

ghost use Rattle.std.specs.Prelude.{◌≡◌, IfOk, IfErr, Some, None};
ghost use Rattle.clap.specs.Words.{found_of, rows_of};
ghost use Rattle.program_arguments.specs.Format.{diff_form_of, form_name, format_of, picture_form_of};
ghost use Rattle.program_arguments.specs.declared.jobs.JobFault.TheVariants.{Difference as NoDifference, Format as NoFormat, Picture as NoPicture};

use crate::jobs::{DiffForm, Format, JobFault, PictureForm};
use crate::values::given;
use clap::ArgMatches;

/// Returns the form of a survey's output that the arguments give.
pub(crate) fn format(arguments: &ArgMatches) -> Result<Format, JobFault>
    ensures form { IfOk result (λ form. format_of (form_name (rows_of (found_of arguments.now))) ≡ Some form) }
    ensures fault { IfErr result (λ fault. (fault ≡ NoFormat) × (format_of (form_name (rows_of (found_of arguments.now))) ≡ None)) }
{
    match form_name(arguments) {
        "text" => Ok(Format::Text),
        "json" => Ok(Format::Json),
        "csv" => Ok(Format::Csv),
        _ => Err(JobFault::Format),
    }
}

/// Returns the form of a picture that the arguments give.
pub(crate) fn picture_form(arguments: &ArgMatches) -> Result<PictureForm, JobFault>
    ensures form { IfOk result (λ form. picture_form_of (form_name (rows_of (found_of arguments.now))) ≡ Some form) }
    ensures fault { IfErr result (λ fault. (fault ≡ NoPicture) × (picture_form_of (form_name (rows_of (found_of arguments.now))) ≡ None)) }
{
    match form_name(arguments) {
        "text" => Ok(PictureForm::Text),
        "svg" => Ok(PictureForm::Svg),
        _ => Err(JobFault::Picture),
    }
}

/// Returns the form of changes that the arguments give.
pub(crate) fn diff_form(arguments: &ArgMatches) -> Result<DiffForm, JobFault>
    ensures form { IfOk result (λ form. diff_form_of (form_name (rows_of (found_of arguments.now))) ≡ Some form) }
    ensures fault { IfErr result (λ fault. (fault ≡ NoDifference) × (diff_form_of (form_name (rows_of (found_of arguments.now))) ≡ None)) }
{
    match form_name(arguments) {
        "text" => Ok(DiffForm::Text),
        "json" => Ok(DiffForm::Json),
        _ => Err(JobFault::Difference),
    }
}

/// Returns the name of a form of output that the arguments give, or `text`.
fn form_name<'a>(arguments: &ArgMatches<'a>) -> &'a str
    ensures { result.now ≡ form_name (rows_of (found_of arguments.now)) }
{
    given(arguments, "format").unwrap_or("text")
}
