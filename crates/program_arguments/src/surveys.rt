//! The jobs that survey files: what their arguments have in common.

ghost use Rattle.std.specs.Prelude.{◌≡◌, ◌≢◌, ◌⊎◌, List, [], Some, IfOk, IfErr, codes, option_map, string_bytes};
ghost use Rattle.clap.specs.Words.{Row, found_of, first_of, rows_of};
ghost use Rattle.program_arguments.specs.Requested.{IsJobOf, IsFaultOf};
ghost use Rattle.program_arguments.specs.Extraction.{HasNoFolder, IsExtractionBy, folder_by};
ghost use Rattle.program_arguments.specs.Leftovers.{IsLeftoversBy};
ghost use Rattle.program_arguments.specs.Names.{IsListBy, IsNamesBy, IsNamesFault, files_by, has_null, list_by};
ghost use Rattle.program_arguments.specs.Page.{is_left_empty, HasNamedPage, IsPageBy, IsPageFault};
ghost use Rattle.program_arguments.specs.declared.jobs.JobFault.TheVariants.{Folder, Memory};

use crate::forms::format;
use crate::jobs::{Extraction, Job, JobFault, Leftovers, Names, Page, Separator};
use crate::values::{given, has_flag, lacks_values, value, values};
use clap::ArgMatches;
use std::alloc::{AllocError, Global};

/// Returns the job that `check` with these matches asks for.
pub(crate) fn check_job(alloc: Global, arguments: &ArgMatches) -> Result<Job, JobFault>
    ensures job { IfOk result (IsJobOf (codes "check", rows_of (found_of arguments.now))) }
    ensures fault { IfErr result (IsFaultOf (codes "check", rows_of (found_of arguments.now))) }
{
    let format = format(arguments)?;
    Ok(Job::Check {
        digest: has_flag(arguments, "digest"),
        format,
        names: names(alloc, arguments)?,
    })
}

/// Returns the job that `files` with these matches asks for.
pub(crate) fn files_job(alloc: Global, arguments: &ArgMatches) -> Result<Job, JobFault>
    ensures job { IfOk result (IsJobOf (codes "files", rows_of (found_of arguments.now))) }
    ensures fault { IfErr result (IsFaultOf (codes "files", rows_of (found_of arguments.now))) }
{
    Ok(Job::Files {
        leftovers: leftovers(arguments),
        format: format(arguments)?,
        names: names(alloc, arguments)?,
    })
}

/// Returns the job that `extract` with these matches asks for.
pub(crate) fn extract_job(alloc: Global, arguments: &ArgMatches) -> Result<Job, JobFault>
    ensures job { IfOk result (IsJobOf (codes "extract", rows_of (found_of arguments.now))) }
    ensures fault { IfErr result (IsFaultOf (codes "extract", rows_of (found_of arguments.now))) }
{
    let format = format(arguments)?;
    Ok(Job::Extract {
        extraction: extraction(alloc, arguments)?,
        leftovers: leftovers(arguments),
        format,
        names: names(alloc, arguments)?,
    })
}

/// Returns which leftovers the arguments ask for: deleted files, if they have `--deleted`, and
/// orphans, if they have `--orphans`.
fn leftovers(arguments: &ArgMatches) -> Leftovers
    ensures { IsLeftoversBy (rows_of (found_of arguments.now)) result }
{
    Leftovers {
        deleted: has_flag(arguments, "deleted"),
        orphans: has_flag(arguments, "orphans"),
    }
}

/// Returns how files are to be taken out, by the arguments.
fn extraction(alloc: Global, arguments: &ArgMatches) -> Result<Extraction, JobFault>
    ensures extraction { IfOk result (IsExtractionBy (rows_of (found_of arguments.now))) }
    ensures fault { IfErr result (λ fault. (fault ≡ Memory) ⊎ ((fault ≡ Folder) × HasNoFolder (first_of (codes "into") (rows_of (found_of arguments.now))))) }
{
    Ok(Extraction {
        into: String::from_str(alloc, folder(arguments)?)?,
        part: has_flag(arguments, "part"),
        skip_existing: has_flag(arguments, "skip-existing"),
    })
}

/// Returns the name of the folder that files go into, which is not empty.
fn folder<'a>(arguments: &ArgMatches<'a>) -> Result<&'a str, JobFault>
    ensures folder { IfOk result (λ folder. folder.now ≡ folder_by (rows_of (found_of arguments.now))) }
    ensures named { IfOk result (λ folder. folder_by (rows_of (found_of arguments.now)) ≢ []) }
    ensures fault { IfErr result (λ fault. (fault ≡ Folder) × HasNoFolder (first_of (codes "into") (rows_of (found_of arguments.now)))) }
{
    let into = given(arguments, "into").unwrap_or(".");
    if into.is_empty() {
        return Err(JobFault::Folder);
    }
    Ok(into)
}

/// Returns the job that `catalogue` with these matches asks for.
pub(crate) fn catalogue_job(alloc: Global, arguments: &ArgMatches) -> Result<Job, JobFault>
    ensures job { IfOk result (IsJobOf (codes "catalogue", rows_of (found_of arguments.now))) }
    ensures fault { IfErr result (IsFaultOf (codes "catalogue", rows_of (found_of arguments.now))) }
{
    Ok(Job::Catalogue {
        page: page(alloc, arguments)?,
        names: names(alloc, arguments)?,
    })
}

/// Whether the arguments give an argument an empty value.
fn is_left_empty(arguments: &ArgMatches, id: &str) -> bool
    ensures { result ≡ is_left_empty id.now (rows_of (found_of arguments.now)) }
{
    matches!(given(arguments, id), Some(""))
}

/// Returns how a page is to be made, by the arguments.
fn page(alloc: Global, arguments: &ArgMatches) -> Result<Page, JobFault>
    ensures page { IfOk result (IsPageBy (rows_of (found_of arguments.now))) }
    ensures fault { IfErr result (IsPageFault (rows_of (found_of arguments.now))) }
{
    check_page(arguments)?;
    Ok(Page {
        maps: has_flag(arguments, "maps"),
        title: value(alloc, arguments, "title")?,
        links: value(alloc, arguments, "links")?,
    })
}

/// Checks that a title and a folder of links are not empty, if they are given.
fn check_page(arguments: &ArgMatches) -> Result<(), JobFault>
    ensures named { IfOk result (λ _. HasNamedPage (rows_of (found_of arguments.now))) }
    ensures fault { IfErr result (IsPageFault (rows_of (found_of arguments.now))) }
{
    if is_left_empty(arguments, "title") {
        return Err(JobFault::Title);
    }
    if is_left_empty(arguments, "links") {
        return Err(JobFault::Links);
    }
    Ok(())
}

/// Returns the names that the arguments give, or the list that holds them.
fn names(alloc: Global, arguments: &ArgMatches) -> Result<Names, JobFault>
    ensures names { IfOk result (IsNamesBy (rows_of (found_of arguments.now))) }
    ensures fault { IfErr result (IsNamesFault (rows_of (found_of arguments.now))) }
{
    match list(arguments)? {
        Some(list) => listed(String::from_str(alloc, list), has_flag(arguments, "null")),
        None => Ok(Names::Given(values(alloc, arguments, "file")?)),
    }
}

/// Returns the names that a list holds, which end with NUL bytes or with line feeds.
fn listed(list: Result<String, AllocError>, null: bool) -> Result<Names, JobFault>
    ensures names { (rows : List Row) → IfOk list (λ text. list_by rows ≡ Some (string_bytes text)) → files_by rows ≡ [] → null ≡ has_null rows
        → IfOk result (IsNamesBy rows) }
    ensures fault { IfErr result (λ fault. fault ≡ Memory) }
{
    Ok(Names::Listed {
        list: list?,
        separator: if null {
            Separator::Nul
        } else {
            Separator::LineFeed
        },
    })
}

/// Returns the list that holds the names, or None if the arguments are the names.
fn list<'a>(arguments: &ArgMatches<'a>) -> Result<Option<&'a str>, JobFault>
    ensures list { IfOk result (λ list. IsListBy (rows_of (found_of arguments.now)) (option_map (λ text. text.now) list)) }
    ensures fault { IfErr result (IsNamesFault (rows_of (found_of arguments.now))) }
{
    let list = given(arguments, "files-from");
    if lacks_values(arguments, "file") == list.is_none() {
        return Err(JobFault::Names);
    }
    if list.is_none() && has_flag(arguments, "null") {
        return Err(JobFault::Null);
    }
    Ok(list)
}
