//! The jobs of `map` and `diff`, whose files are arguments of their own.

ghost use Rattle.std.specs.Prelude.{IfOk, IfErr, IsSome, codes};
ghost use Rattle.clap.specs.Words.{found_of, first_of, rows_of};
ghost use Rattle.program_arguments.specs.Requested.{IsJobOf, IsFaultOf};

use crate::forms::{diff_form, picture_form};
use crate::jobs::{Job, JobFault};
use crate::values::required_value;
use clap::ArgMatches;
use std::alloc::Global;

/// Returns the job that `map` with these matches asks for.
pub(crate) fn map_job(alloc: Global, arguments: &ArgMatches) -> Result<Job, JobFault>
    requires { IsSome (first_of (codes "file") (rows_of (found_of arguments.now))) }
    ensures job { IfOk result (IsJobOf (codes "map", rows_of (found_of arguments.now))) }
    ensures fault { IfErr result (IsFaultOf (codes "map", rows_of (found_of arguments.now))) }
{
    Ok(Job::Map {
        format: picture_form(arguments)?,
        file: required_value(alloc, arguments, "file")?,
    })
}

/// Returns the job that `diff` with these matches asks for.
pub(crate) fn diff_job(alloc: Global, arguments: &ArgMatches) -> Result<Job, JobFault>
    requires old { IsSome (first_of (codes "old") (rows_of (found_of arguments.now))) }
    requires new { IsSome (first_of (codes "new") (rows_of (found_of arguments.now))) }
    ensures job { IfOk result (IsJobOf (codes "diff", rows_of (found_of arguments.now))) }
    ensures fault { IfErr result (IsFaultOf (codes "diff", rows_of (found_of arguments.now))) }
{
    Ok(Job::Diff {
        format: diff_form(arguments)?,
        old: required_value(alloc, arguments, "old")?,
        new: required_value(alloc, arguments, "new")?,
    })
}
