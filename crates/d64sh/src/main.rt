//! The program `d64sh`: gives its arguments, its streams and the files of the system to
//! `d64_shell`, and shows the progress of a long run.
#![tactic(auto)]

ghost use Rattle.program_console.specs.Console.{IsFresh};

use d64_shell::{Console, FolderHost, Nobody, ObservedProgram, ProgramFault};
use host_storage::{Host, InputStream, OutputStream, Retrying, SizeLimit, StandardStream};
use program_console::{
    MarkingWriter, NOT_RUN, ProgressLine, QuietWriter, WatchedHost, WipingWriter, WithinLimit,
    asks_for_program, asks_for_report,
};
use script_hints::Advisor;
use std::alloc::Global;
use std::cell::Cell;
use std::env;
use std::io::{BufWriter, IsTerminal, Read, Write};
use std::process::ExitCode;

/// The line for a program that would be written to a terminal.
const PROGRAM_AT_TERMINAL: &[u8] =
    b"d64sh: a program is not shown on a terminal: crunch -o FILE stores it in a file\n";

fn main(rt: HostRuntime) -> ExitCode {
    let limit = SizeLimit::default();
    let line = ProgressLine::new(&rt, rt.stderr().is_terminal() && !rt.stdout().is_terminal());
    let errors = Retrying(WithinLimit::new(&rt, &limit, StandardStream::Error, rt.stderr()));
    let is_unread = Cell::new(false);
    let errors = QuietWriter::new(&is_unread, errors);
    let mut errors = WipingWriter::new(&line, errors);
    let status = match start(&rt, &limit, &line, &is_unread, &mut errors) {
        Ok(status) => status,
        Err(fault) => fault.report(&mut errors),
    };
    line.wipe();
    ExitCode::from(status)
}

/// Does what the arguments of the process ask for, and returns the exit status.
fn start<'a, E: Write>(
    rt: &'a HostRuntime,
    limit: &'a SizeLimit,
    line: &ProgressLine<HostRuntime>,
    is_unread: &Cell<bool>,
    errors: &mut E,
) -> Result<u8, ProgramFault> {
    let arguments = env::args(rt).map_err(|error| ProgramFault::of_arguments(error.kind()))?;
    let owned: Vec<String> = arguments.skip(1).collect(rt.alloc())?;
    let arguments: Vec<&str> = owned
        .iter()
        .map(|argument| argument.as_str())
        .collect(rt.alloc())?;
    if rt.stdout().is_terminal() && asks_for_program(rt.alloc(), arguments.as_slice())? {
        let _ = OutputStream::new(errors).write(PROGRAM_AT_TERMINAL);
        return Ok(NOT_RUN);
    }
    let output = WithinLimit::new(rt, limit, StandardStream::Output, rt.stdout());
    let is_marking = asks_for_report(arguments.as_slice());
    let output = Retrying(MarkingWriter::new(is_unread, is_marking, output));
    run_program(rt, limit, line, output, errors, arguments.as_slice())
}

/// Runs the program with these arguments on an output, the process's other streams and the files
/// of the system.
fn run_program<'a, O: Write + Drop, E: Write>(
    rt: &'a HostRuntime,
    limit: &'a SizeLimit,
    line: &ProgressLine<HostRuntime>,
    output: O,
    errors: &mut E,
    arguments: &[&str],
) -> Result<u8, ProgramFault> {
    let mut output = BufWriter::new(rt.alloc(), output).map_err(|_| ProgramFault::Memory)?;
    let mut input = Retrying(rt.stdin());
    let mut console = Console::new(
        InputStream::new(&mut input),
        OutputStream::new(&mut output),
        OutputStream::new(errors),
    );
    let mut host = WatchedHost::new(line, FolderHost::new(rt));
    let hints = WithinLimit::new(rt, limit, StandardStream::Error, rt.stderr());
    let mut hints = Retrying(hints);
    let advisor_host = FolderHost::new(rt);
    Ok(run_advised(
        rt,
        &mut hints,
        advisor_host,
        arguments,
        &mut console,
        &mut host,
    ))
}

/// Runs the program with these arguments on a console and a host, with an advisor if that may have
/// something to explain. It has a writer to standard error and a host of its own. For any types of
/// these two the proof takes a third of what it takes for those of the process.
fn run_advised<A: Write, K: Host + Drop, R: Read, W: Write, F: Write, H: Host>(
    rt: &HostRuntime,
    hints: &mut A,
    advisor_host: K,
    arguments: &[&str],
    console: &mut Console<'_, R, W, F>,
    host: &mut H,
) -> u8
    requires fresh { IsFresh console.old }
{
    if !may_explain(rt, arguments) {
        return run_unadvised(rt.alloc(), arguments, console, host);
    }
    let is_terminal = rt.stdin().is_terminal() && rt.stderr().is_terminal();
    let mut advisor = Advisor::new(rt.alloc(), is_terminal, hints, advisor_host);
    if rt.stderr().is_terminal() {
        advisor.explain_misses();
    }
    let program = ObservedProgram {
        alloc: rt.alloc(),
        observer: &mut advisor,
    };
    let status = program.run(arguments, console, host);
    advisor.end_without_session();
    status
}

/// Whether an advisor may have something to explain: to a person at a terminal, or of lines for which
/// an option asks, as `-c` and `-e` do.
fn may_explain(rt: &HostRuntime, arguments: &[&str]) -> bool {
    rt.stderr().is_terminal() || arguments.iter().any(|argument| argument.starts_with("-"))
}

/// Runs the program with these arguments on a console and a host, and explains nothing.
fn run_unadvised<R: Read, W: Write, F: Write, H: Host>(
    alloc: Global,
    arguments: &[&str],
    console: &mut Console<'_, R, W, F>,
    host: &mut H,
) -> u8
    requires fresh { IsFresh console.old }
{
    let mut nobody = Nobody;
    let program = ObservedProgram {
        alloc,
        observer: &mut nobody,
    };
    program.run(arguments, console, host)
}
