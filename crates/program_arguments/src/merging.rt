//! The job of `merge`.

ghost use Rattle.std.specs.Prelude.{◌≡◌, ◌≢◌, ◌⊎◌, [], None, IfOk, IfErr, codes, map, string_bytes};
ghost use Rattle.clap.specs.Words.{found_of, first_of, rows_of};
ghost use Rattle.program_arguments.specs.Requested.{IsJobOf, IsFaultOf};
ghost use Rattle.program_arguments.specs.Merging.{IsMergingBy};
ghost use Rattle.program_arguments.specs.Names.{files_by};
ghost use Rattle.program_arguments.specs.declared.jobs.JobFault.TheVariants.{Dumps as no_dumps, Memory as no_memory, Output as no_output};

use crate::forms::diff_form;
use crate::jobs::{Job, JobFault, Merging};
use crate::values::{has_flag, value, values};
use clap::ArgMatches;
use std::alloc::Global;

/// Returns the job that `merge` with these matches asks for.
pub(crate) fn merge_job(alloc: Global, arguments: &ArgMatches) -> Result<Job, JobFault>
    ensures job { IfOk result (IsJobOf (codes "merge", rows_of (found_of arguments.now))) }
    ensures fault { IfErr result (IsFaultOf (codes "merge", rows_of (found_of arguments.now))) }
{
    let format = diff_form(arguments)?;
    Ok(Job::Merge {
        merging: merging(alloc, arguments)?,
        format,
        files: dumps(alloc, arguments)?,
    })
}

/// Returns the options of a merge; an error is `Output` if `--output` is missing, or `Memory`.
fn merging(alloc: Global, arguments: &ArgMatches) -> Result<Merging, JobFault>
    ensures merging { IfOk result (IsMergingBy (rows_of (found_of arguments.now))) }
    ensures fault { IfErr result (λ fault. (fault ≡ no_memory) ⊎ ((fault ≡ no_output) × (first_of (codes "output") (rows_of (found_of arguments.now)) ≡ None))) }
{
    match value(alloc, arguments, "output")? {
        Some(output) => Ok(Merging {
            output,
            plain: has_flag(arguments, "plain"),
            majority: has_flag(arguments, "majority"),
            first: has_flag(arguments, "first"),
        }),
        None => Err(JobFault::Output),
    }
}

/// Returns the files of the dumps, one or more; an error is `Dumps` if there are none, or `Memory`.
fn dumps(alloc: Global, arguments: &ArgMatches) -> Result<Vec<String>, JobFault>
    ensures files { IfOk result (λ files. map string_bytes files.items ≡ files_by (rows_of (found_of arguments.now))) }
    ensures some { IfOk result (λ files. files_by (rows_of (found_of arguments.now)) ≢ []) }
    ensures fault { IfErr result (λ fault. (fault ≡ no_memory) ⊎ ((fault ≡ no_dumps) × (files_by (rows_of (found_of arguments.now)) ≡ []))) }
{
    let files = values(alloc, arguments, "file")?;
    if files.is_empty() {
        return Err(JobFault::Dumps);
    }
    Ok(files)
}
