//! From the arguments to the job that they ask for.

ghost use Rattle.std.specs.Prelude.{◌≡◌, IfOk, IfErr, IfSome, MatchOption, codes, drop, map};
ghost use Rattle.std.specs.Char.{is_ascii_hexdigit};
ghost use Rattle.std.specs.List.{list_all};
ghost use Rattle.clap.specs.Words.{found_of, first_of, rows_of};
ghost use Rattle.program_arguments.specs.Requested.{GoesOnWith, HasBoth, IsJob, IsJobOf, IsFault, IsFaultOf};
ghost use Rattle.program_arguments.specs.Start.{IsAddress, address_of, IsStartBy, HasNoAddress};
ghost use Rattle.program_arguments.specs.Tracks.{track_count, IsTracksBy, HasNoTracks};
ghost use Rattle.program_arguments.specs.declared.jobs.JobFault.TheVariants.{Start, Tracks};

use crate::command;
use crate::jobs::{Job, JobFault};
use crate::refusals::refusal;
use crate::subcommand::Subcommand;
use crate::values::{given, has_flag, value, values};
use clap::ArgMatches;
use std::alloc::Global;

/// The address at which programs are loaded if the arguments give no other.
const DEFAULT_START: u16 = 0x0801;

/// The tracks of a blank image if the arguments give no other number.
const DEFAULT_TRACKS: u8 = 35;

/// The most digits of an address.
const ADDRESS_DIGITS: usize = 4;

/// Returns the job that the arguments of the process ask for, of which the first is the program's
/// name.
///
/// `Arguments` comes if and only if the arguments are not the program's, or ask for help or the
/// version. The other faults come in this order, each if and only if no earlier one does: `Start`
/// if the value of `--start` is not one to four hexadecimal digits; `Tracks` if the value of
/// `--tracks` is neither 35 nor 40, or there is an image too; `Both` if there are both `--resume`
/// and `--tracks`; `Format` if the value of a survey's `--format` is neither `text`, `json` nor
/// `csv`; `Folder` if the value of `--into` of `extract` is empty; `Title` if the value of
/// `--title` of `catalogue` is empty; `Links` if the value of `--links` is empty; `Names` if there
/// are both FILE and `--files-from`, or neither; `Null` if there is `--null` without
/// `--files-from`; `Picture` if the value of `--format` of `map` is neither `text` nor `svg`;
/// `Difference` if the value of `--format` of `diff` or `merge` is neither `text` nor `json`;
/// `Output` if there is `merge` without `--output`; `Dumps` if there is `merge` without FILE.
/// `Memory` may come in place of any result.
pub fn job(alloc: Global, arguments: &[&str]) -> Result<Job, JobFault>
    ensures job { IfOk result (IsJob (map (λ argument. argument.now) arguments.now)) }
    ensures fault { IfErr result (IsFault (map (λ argument. argument.now) arguments.now)) }
{
    match named_by(arguments) {
        Some(subcommand) => subcommand_job(alloc, arguments, subcommand),
        None => program_job(alloc, arguments),
    }
}

/// Returns the subcommand with whose name the arguments begin, after the program's name.
fn named_by(arguments: &[&str]) -> Option<Subcommand>
    ensures { IfSome result (GoesOnWith (map (λ argument. argument.now) arguments.now)) }
{
    match arguments.get(1) {
        Some(name) => Subcommand::named(name),
        None => None,
    }
}

/// Returns the arguments after the program's name.
fn after_program<'a>(arguments: &'a [&'a str]) -> &'a [&'a str]
    ensures { result.now ≡ drop 1 arguments.now }
{
    match arguments {
        [_, rest @ ..] => rest,
        [] => &[],
    }
}

/// Does the same for arguments that begin with this subcommand. It makes of the arguments from its
/// name on what `d64sh` makes of all arguments, and the options of the other subcommands are not
/// made for it.
fn subcommand_job(
    alloc: Global,
    arguments: &[&str],
    subcommand: Subcommand,
) -> Result<Job, JobFault>
    requires { GoesOnWith (map (λ argument. argument.now) arguments.now) subcommand }
    ensures job { IfOk result (IsJob (map (λ argument. argument.now) arguments.now)) }
    ensures fault { IfErr result (IsFault (map (λ argument. argument.now) arguments.now)) }
{
    let command = subcommand.command(alloc)?;
    match command.try_get_matches_from(after_program(arguments)) {
        Ok(arguments) => subcommand.job(alloc, &arguments),
        Err(error) => Err(refusal(alloc, arguments, Some(subcommand), error)),
    }
}

/// Does the same for arguments that do not begin with a subcommand, which the command with all
/// subcommands reads.
fn program_job(alloc: Global, arguments: &[&str]) -> Result<Job, JobFault>
    ensures job { IfOk result (IsJob (map (λ argument. argument.now) arguments.now)) }
    ensures fault { IfErr result (IsFault (map (λ argument. argument.now) arguments.now)) }
{
    let matches = match command::d64sh(alloc)?.try_get_matches_from(arguments) {
        Ok(matches) => matches,
        Err(error) => return Err(refusal(alloc, arguments, None, error)),
    };
    let Some((name, arguments)) = matches.subcommand() else {
        unreachable!()
    };
    let Some(subcommand) = Subcommand::named(name) else {
        unreachable!()
    };
    subcommand.job(alloc, arguments)
}

/// Returns the job that `shell` with these matches asks for.
pub(crate) fn shell_job(alloc: Global, arguments: &ArgMatches) -> Result<Job, JobFault>
    ensures job { IfOk result (IsJobOf (codes "shell", rows_of (found_of arguments.now))) }
    ensures fault { IfErr result (IsFaultOf (codes "shell", rows_of (found_of arguments.now))) }
{
    let tracks = script_tracks(arguments)?;
    Ok(Job::Shell {
        image: value(alloc, arguments, "image")?,
        tracks,
        resume: value(alloc, arguments, "resume")?,
        lines: values(alloc, arguments, "command")?,
        stops_at_refusal: has_flag(arguments, "stop-at-refusal"),
    })
}

/// Returns the job that `petcat` with these matches asks for.
pub(crate) fn petcat_job(alloc: Global, arguments: &ArgMatches) -> Result<Job, JobFault>
    ensures job { IfOk result (IsJobOf (codes "petcat", rows_of (found_of arguments.now))) }
    ensures fault { IfErr result (IsFaultOf (codes "petcat", rows_of (found_of arguments.now))) }
{
    Ok(Job::Petcat {
        file: value(alloc, arguments, "file")?,
        output: value(alloc, arguments, "output")?,
    })
}

/// Returns the job that `crunch` with these matches asks for.
pub(crate) fn crunch_job(alloc: Global, arguments: &ArgMatches) -> Result<Job, JobFault>
    ensures job { IfOk result (IsJobOf (codes "crunch", rows_of (found_of arguments.now))) }
    ensures fault { IfErr result (IsFaultOf (codes "crunch", rows_of (found_of arguments.now))) }
{
    Ok(Job::Crunch {
        start: start(arguments)?,
        file: value(alloc, arguments, "file")?,
        output: value(alloc, arguments, "output")?,
    })
}

/// Returns the tracks that the arguments of `shell` give, or the default number; an error if they
/// give `--resume` too, whose file has tracks of its own.
fn script_tracks(arguments: &ArgMatches) -> Result<u8, JobFault>
    ensures tracks { IfOk result (IsTracksBy (first_of (codes "tracks") (rows_of (found_of arguments.now)))
        (first_of (codes "image") (rows_of (found_of arguments.now)))) }
    ensures alone { IfOk result (λ tracks. ¬ HasBoth (codes "shell", rows_of (found_of arguments.now))) }
    ensures fault { IfErr result (IsFaultOf (codes "shell", rows_of (found_of arguments.now))) }
{
    let tracks = tracks(arguments)?;
    if given(arguments, "resume").is_some() && given(arguments, "tracks").is_some() {
        return Err(JobFault::Both);
    }
    Ok(tracks)
}

/// Returns the tracks that the arguments give, or the default number.
fn tracks(arguments: &ArgMatches) -> Result<u8, JobFault>
    ensures tracks { IfOk result (IsTracksBy (first_of (codes "tracks") (rows_of (found_of arguments.now)))
        (first_of (codes "image") (rows_of (found_of arguments.now)))) }
    ensures fault { IfErr result (λ fault. (fault ≡ Tracks) × HasNoTracks (first_of (codes "tracks") (rows_of (found_of arguments.now)))
        (first_of (codes "image") (rows_of (found_of arguments.now)))) }
{
    let Some(text) = given(arguments, "tracks") else {
        return Ok(DEFAULT_TRACKS);
    };
    match given(arguments, "image") {
        Some(_) => Err(JobFault::Tracks),
        None => track_count(text).ok_or(JobFault::Tracks),
    }
}

/// Returns the number of tracks that a text gives, or None if no disk has this many.
fn track_count(text: &str) -> Option<u8>
    ensures { result ≡ track_count text.now }
{
    match text {
        "35" => Some(35),
        "40" => Some(40),
        _ => None,
    }
}

/// Returns the start that the arguments give, or the default one.
fn start(arguments: &ArgMatches) -> Result<u16, JobFault>
    ensures start { IfOk result (IsStartBy (first_of (codes "start") (rows_of (found_of arguments.now)))) }
    ensures fault { IfErr result (λ fault. (fault ≡ Start) × HasNoAddress (first_of (codes "start") (rows_of (found_of arguments.now)))) }
{
    match given(arguments, "start") {
        Some(hex) => address(hex).ok_or(JobFault::Start),
        None => Ok(DEFAULT_START),
    }
}

/// Returns the address that one to four hexadecimal digits write, or None if the text is anything
/// else.
fn address(hex: &str) -> Option<u16>
    ensures { MatchOption result (¬ IsAddress hex.now) (λ address. IsAddress hex.now × (address ≡ address_of hex.now)) }
{
    if hex.len() > ADDRESS_DIGITS || !is_hexadecimal(hex) {
        return None;
    }
    match u16::from_str_radix(hex, 16) {
        Ok(address) => Some(address),
        Err(_) => None,
    }
}

/// Whether the text has only hexadecimal digits.
fn is_hexadecimal(text: &str) -> bool
    ensures { result ≡ list_all is_ascii_hexdigit text.now }
{
    text.bytes().all(|byte| byte.is_ascii_hexdigit())
}
