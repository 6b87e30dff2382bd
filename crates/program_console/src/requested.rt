//! The job that arguments ask for, or a fault whose text has them as they are shown.
ghost use Rattle.std.specs.Prelude.{◌≡◌, ◌↔◌, List, ℕ, IfErr, IfOk, IfSome, IsTrue, false, map, string_bytes};
ghost use Rattle.program_console.specs.RequestedJob.{AsksForReport, IsErrorOf, named_arguments, shown_arguments};
ghost use Rattle.program_arguments.specs.ProgramJobs.{AsksForProgram, IsReadAsForProgram};
ghost use Rattle.host_storage.specs.Shown.{shown_name};
ghost use Rattle.program_arguments.specs.Requested.{IsFault, IsJob, IsOneOf};
ghost use Rattle.program_arguments.specs.Subcommands.{reports};

use host_storage::push_shown;
use program_arguments::{Job, JobFault, Subcommand, job};
use std::alloc::{AllocError, Global};

/// Returns the job that the arguments after the program's name ask for. The text of an error of
/// `clap`'s has them as names of the host are shown: as they were given they could command a
/// terminal, or make a line of their own. If memory runs out for that, the fault is out of memory.
pub fn requested_job(alloc: Global, arguments: &[&str]) -> Result<Job, JobFault>
    ensures job { IfOk result (IsJob (named_arguments (map (λ argument. argument.now) arguments.now))) }
    ensures fault { IfErr result (IsFault (named_arguments (map (λ argument. argument.now) arguments.now))) }
    ensures shown { IfErr result (IsErrorOf (named_arguments (shown_arguments (map (λ argument. argument.now) arguments.now)))) }
{
    match named_job(alloc, arguments) {
        Ok(job) => Ok(job),
        Err(fault) => Err(shown_fault(alloc, fault, arguments)),
    }
}

/// Whether the arguments ask for a program on the output, as `crunch` writes it without `-o`; the
/// error is that memory runs out as they are read.
pub fn asks_for_program(alloc: Global, arguments: &[&str]) -> Result<bool, AllocError>
    ensures { IfOk result (λ asks. IsTrue asks ↔ AsksForProgram (named_arguments (map (λ argument. argument.now) arguments.now))) }
{
    let read = named_job(alloc, arguments);
    is_read_as_for_program(&read).ok_or(AllocError)
}

/// Whether the arguments begin with a subcommand whose output may go unread without a fault.
pub fn asks_for_report(arguments: &[&str]) -> bool
    ensures { IsTrue result ↔ AsksForReport (map (λ argument. argument.now) arguments.now) }
{
    match arguments {
        [name, ..] => is_report(name),
        [] => false,
    }
}

/// Whether this is the name of such a subcommand.
fn is_report(name: &str) -> bool
    ensures { IsTrue result ↔ IsOneOf reports name.now }
{
    match Subcommand::named(name) {
        Some(subcommand) => subcommand.is_report(),
        None => false,
    }
}

/// Whether arguments were read as a job that is to write a program to the output, or None if memory
/// ran out.
fn is_read_as_for_program(read: &Result<Job, JobFault>) -> Option<bool>
    ensures { IsReadAsForProgram read.now result }
{
    match read {
        Ok(job) => Some(matches!(job, Job::Crunch { output: None, .. })),
        Err(JobFault::Memory) => None,
        Err(_) => Some(false),
    }
}

/// Does the same as `requested_job`, but the text has the arguments as they were given.
fn named_job(alloc: Global, arguments: &[&str]) -> Result<Job, JobFault>
    ensures job { IfOk result (IsJob (named_arguments (map (λ argument. argument.now) arguments.now))) }
    ensures fault { IfErr result (IsFault (named_arguments (map (λ argument. argument.now) arguments.now))) }
{
    let all = named_arguments(alloc, arguments)?;
    job(alloc, all.as_slice())
}

/// Returns the program's name and these arguments.
fn named_arguments<'a>(alloc: Global, arguments: &[&'a str]) -> Result<Vec<&'a str>, AllocError>
    ensures { IfOk result (λ all. map (λ argument. argument.now) all.items ≡ named_arguments (map (λ argument. argument.now) arguments.now)) }
{
    let mut all = Vec::new(alloc);
    all.push("d64sh")?;
    all.extend_from_slice(arguments)?;
    Ok(all)
}

/// Returns the fault of these arguments, whose text has them as they are shown if it is one of
/// `clap`'s.
fn shown_fault(alloc: Global, fault: JobFault, arguments: &[&str]) -> JobFault
    ensures fault { (requested : List (List ℕ)) → IsFault requested fault → IsFault requested result }
    ensures shown { IsErrorOf (named_arguments (shown_arguments (map (λ argument. argument.now) arguments.now))) result }
{
    if !has_arguments(&fault) {
        return fault;
    }
    match shown_texts(alloc, arguments) {
        Some(shown) => fault_as_shown(alloc, fault, shown.as_slice()),
        None => JobFault::Memory,
    }
}

/// Whether the fault is an error of `clap`'s whose text has arguments: neither help nor the
/// version.
fn has_arguments(fault: &JobFault) -> bool
    ensures { result ≡ false → (arguments : List (List ℕ)) → IsErrorOf arguments fault.now }
{
    match fault {
        JobFault::Arguments(_) => !fault.is_help_or_version(),
        _ => false,
    }
}

/// Returns the fault of these arguments as they are shown, if it is of the same kind; otherwise the
/// fault is out of memory. No arguments are known whose fault changes its kind.
fn fault_as_shown(alloc: Global, fault: JobFault, shown: &[String]) -> JobFault
    ensures fault { (requested : List (List ℕ)) → IsFault requested fault → IsFault requested result }
    ensures shown { IsErrorOf (named_arguments (map string_bytes shown.now)) result }
{
    let arguments = match lent(alloc, shown) {
        Ok(arguments) => arguments,
        Err(_) => return JobFault::Memory,
    };
    match named_job(alloc, arguments.as_slice()) {
        Ok(_job) => JobFault::Memory,
        Err(other) => last_if_alike(&fault, other),
    }
}

/// Returns the second of two faults if both are errors of `clap`'s and of one kind, and otherwise
/// out of memory.
#[tactic(auto, using(crate::proofs::Errors::of_arguments))]
fn last_if_alike(fault: &JobFault, other: JobFault) -> JobFault
    ensures fault { (requested : List (List ℕ)) → IsFault requested fault.now → IsFault requested result }
    ensures shown { (arguments : List (List ℕ)) → IsFault arguments other → IsErrorOf arguments result }
{
    if are_alike(fault, &other) {
        return other;
    }
    JobFault::Memory
}

/// Whether both are errors of `clap`'s, and of one kind.
fn are_alike(fault: &JobFault, other: &JobFault) -> bool
    ensures { IsTrue result → (requested : List (List ℕ)) → IsFault requested fault.now → IsFault requested other.now }
{
    match (fault, other) {
        (JobFault::Arguments(error), JobFault::Arguments(other)) => error.kind() == other.kind(),
        _ => false,
    }
}

/// Returns arguments, each shown as a name of the host, or None if memory runs out.
fn shown_texts(alloc: Global, arguments: &[&str]) -> Option<Vec<String>>
    ensures { IfSome result (λ all. map string_bytes all.items ≡ shown_arguments (map (λ argument. argument.now) arguments.now)) }
{
    let mut all = Vec::new(alloc);
    for argument in arguments {
        all.push(shown_text(alloc, argument)?).ok()?;
    }
    Some(all)
}

/// Returns an argument, shown as a name of the host, or None if memory runs out.
fn shown_text(alloc: Global, argument: &str) -> Option<String>
    ensures { IfSome result (λ text. string_bytes text ≡ shown_name argument.now) }
{
    let mut shown = Vec::new(alloc);
    push_shown(&mut shown, argument.as_bytes()).ok()?;
    // The shown text is always UTF-8.
    String::from_utf8(shown).ok()
}

/// Borrows the arguments.
fn lent(alloc: Global, arguments: &[String]) -> Result<Vec<&str>, AllocError>
    ensures { IfOk result (λ all. map (λ argument. argument.now) all.items ≡ map string_bytes arguments.now) }
{
    let mut all = Vec::new(alloc);
    for argument in arguments {
        all.push(argument.as_str())?;
    }
    Ok(all)
}
