//! The program's subcommands: one table of their names, arguments, help and jobs.

ghost use Rattle.std.specs.Prelude.{◌≡◌, ◌↔◌, IfOk, IfErr, IsTrue, MatchOption};
ghost use Rattle.clap.specs.Words.{found_of, rows_of};
ghost use Rattle.program_arguments.specs.Making.{IsCommandMade};
ghost use Rattle.program_arguments.specs.Requested.{HasValues, IsFaultOf, IsJobOf, IsOneOf, requirements, subcommands};
ghost use Rattle.program_arguments.specs.Subcommands.{app_for, name_for, reports};

use crate::arguments::with_arguments;
use crate::command::begun;
use crate::dumps::{diff_job, map_job};
use crate::jobs::{Job, JobFault};
use crate::merging::merge_job;
use crate::reading::{crunch_job, petcat_job, shell_job};
use crate::rows::arguments_of;
use crate::surveys::{catalogue_job, check_job, extract_job, files_job};
use clap::{ArgMatches, Command};
use std::alloc::{AllocError, Global};

/// A subcommand of the program.
#[derive(Clone, Copy)]
pub enum Subcommand {
    Shell,
    Petcat,
    Crunch,
    Check,
    Files,
    Extract,
    Map,
    Diff,
    Merge,
    Catalogue,
}

impl Subcommand {
    /// All subcommands, in the order of the help.
    pub(crate) const ALL: [Subcommand; 10] = [
        Subcommand::Shell,
        Subcommand::Petcat,
        Subcommand::Crunch,
        Subcommand::Check,
        Subcommand::Files,
        Subcommand::Extract,
        Subcommand::Map,
        Subcommand::Diff,
        Subcommand::Merge,
        Subcommand::Catalogue,
    ];

    /// Returns the subcommand with this name, if there is one.
    pub fn named(name: &str) -> Option<Subcommand>
        ensures { MatchOption result (¬ IsOneOf subcommands name.now) (λ subcommand. name_for subcommand ≡ name.now) }
    {
        for subcommand in Subcommand::ALL {
            if name == subcommand.name() {
                return Some(subcommand);
            }
        }
        None
    }

    /// Returns the name of the subcommand.
    pub fn name(self) -> &'static str
        ensures { result.now ≡ name_for self }
    {
        self.help().name
    }

    /// Whether the subcommand prints what it finds on dumps, and nothing that others read as input:
    /// such output may go unread without a fault.
    pub fn is_report(self) -> bool
        ensures { IsTrue result ↔ IsOneOf reports (name_for self) }
    {
        match self {
            Subcommand::Shell | Subcommand::Petcat | Subcommand::Crunch => false,
            Subcommand::Check
            | Subcommand::Files
            | Subcommand::Extract
            | Subcommand::Map
            | Subcommand::Diff
            | Subcommand::Merge
            | Subcommand::Catalogue => true,
        }
    }

    /// Returns the command by which `clap` reads the arguments of the subcommand.
    pub(crate) fn command<'a>(self, alloc: Global) -> Result<Command<'a>, AllocError>
        ensures { IsCommandMade (app_for self) result }
    {
        with_arguments(alloc, begun(alloc, self), arguments_of(self))
    }

    /// Returns the job that the subcommand with these matches asks for.
    pub(crate) fn job(self, alloc: Global, arguments: &ArgMatches) -> Result<Job, JobFault>
        requires { HasValues requirements (name_for self, rows_of (found_of arguments.now)) }
        ensures job { IfOk result (IsJobOf (name_for self, rows_of (found_of arguments.now))) }
        ensures fault { IfErr result (IsFaultOf (name_for self, rows_of (found_of arguments.now))) }
    {
        match self {
            Subcommand::Shell => shell_job(alloc, arguments),
            Subcommand::Petcat => petcat_job(alloc, arguments),
            Subcommand::Crunch => crunch_job(alloc, arguments),
            Subcommand::Check => check_job(alloc, arguments),
            Subcommand::Files => files_job(alloc, arguments),
            Subcommand::Extract => extract_job(alloc, arguments),
            Subcommand::Map => map_job(alloc, arguments),
            Subcommand::Diff => diff_job(alloc, arguments),
            Subcommand::Merge => merge_job(alloc, arguments),
            Subcommand::Catalogue => catalogue_job(alloc, arguments),
        }
    }
}
