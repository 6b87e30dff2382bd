//! Calls of the shell: scripts and tools.

use crate::disk::PROGRAM;
use crate::end::{Bench, End};
use crate::hosts::{self, host};
use crate::sessions::Beside;
use crate::texts::{START, TEXT};
use cbm_text::{BasicFault, ListFault};
use cmd_basic::ToolFault;
use cmd_shell::{Outcome, ShellFault};
use host_memory::MemoryHost;
use program_arguments::JobFault;
use program_console::ProgramFault;
use std::alloc::{AllocError, Global};
use std::fmt::Display;
use std::test::Fail;

/// The bytes of a buffer for all that a call writes, so that its writer asks for no memory.
const ROOM: usize = 16_384;

/// The output of a line that is refused memory.
const OUT_OF_MEMORY: &[u8; 23] = b"90,OUT OF MEMORY,00,00\n";

/// Runs a script of one line, which writes into this buffer.
fn play(
    bench: &Bench,
    line: &str,
    beside: &mut Beside,
    host: &mut MemoryHost,
    written: &mut Vec<u8>,
) -> End {
    let mut script = line.as_bytes();
    bench.begin();
    let outcome = cmd_shell::run(
        bench.alloc(),
        &mut script,
        written,
        host,
        "one",
        &mut beside.session,
    );
    let is_kept = hosts::is_as_it_was(host) && beside.is_as_it_was();
    end_of(outcome, written.as_slice(), is_kept)
}

pub fn run(bench: &Bench, line: &str) -> Result<End, Fail> {
    let mut beside = Beside::new(bench.alloc())?;
    let mut host = host(bench.alloc())?;
    let mut written = Vec::with_capacity(bench.alloc(), ROOM)?;
    Ok(play(bench, line, &mut beside, &mut host, &mut written))
}

/// Returns how a script of one line ended, by its result, what it wrote, and whether host and
/// session are as they were.
fn end_of(outcome: Result<Outcome, ShellFault>, written: &[u8], is_kept: bool) -> End {
    match outcome {
        Ok(
            Outcome {
                accepted: 1,
                refused: 0,
            },
        ) => End::Made(written.len()),
        Ok(_) if written == OUT_OF_MEMORY.as_slice() => {
            End::out_of_memory(is_kept, "the host or the session is not as it was")
        }
        Err(ShellFault::Memory(_)) => End::out_of_memory(
            is_kept && written.is_empty(),
            "the host or the session is not as it was, or something was written",
        ),
        Ok(_) | Err(ShellFault::Read | ShellFault::Write) => End::Refused,
    }
}

pub fn petcat_run(bench: &Bench) -> Result<End, Fail> {
    let mut written = Vec::with_capacity(bench.alloc(), ROOM)?;
    let mut input = PROGRAM.as_slice();
    bench.begin();
    let outcome = cmd_basic::petcat_run(bench.alloc(), &mut input, &mut written);
    Ok(end_of_tool(outcome, written.as_slice()))
}

pub fn crunch_run(bench: &Bench) -> Result<End, Fail> {
    let mut written = Vec::with_capacity(bench.alloc(), ROOM)?;
    let mut input = TEXT.as_slice();
    bench.begin();
    let outcome = cmd_basic::crunch_run(bench.alloc(), START, &mut input, &mut written);
    Ok(end_of_tool(outcome, written.as_slice()))
}

/// Returns how a tool ended, by its result and what it wrote.
fn end_of_tool(outcome: Result<(), ToolFault>, written: &[u8]) -> End {
    match outcome {
        Ok(()) => End::Made(written.len()),
        Err(ToolFault::Memory(_)) => {
            End::out_of_memory(written.is_empty(), "something was written")
        }
        Err(_) => End::Refused,
    }
}

/// The texts of faults, one on each line.
const FAULT_TEXTS: &str = "the script cannot be read to its end
the output cannot be written
out of memory
the input cannot be read to its end
the output could not be written
out of memory
line 3: a line cannot hold a byte $00
the program is cut short
usage: --start takes one to four hexadecimal digits
usage: --tracks takes 35 or 40 and no IMAGE
usage: --resume and --tracks exclude each other
usage: an argument is not UTF-8
image: wrong length 9
image: cannot be read
session: cannot be read
session: fault 2
read fault
write fault
out of memory
";

/// Adds the texts of faults, one on each line.
fn add<D: Display>(text: &mut String, faults: &[D]) -> Result<(), AllocError> {
    for fault in faults {
        write!(text, "{fault}\n")?;
    }
    Ok(())
}

/// Adds the texts of the faults of scripts, tools, arguments and the program.
fn add_all(text: &mut String) -> Result<(), AllocError> {
    add(
        text,
        &[
            ShellFault::Read,
            ShellFault::Write,
            ShellFault::Memory(AllocError),
        ],
    )?;
    add(
        text,
        &[
            ToolFault::Read,
            ToolFault::Write,
            ToolFault::Memory(AllocError),
            ToolFault::Text(BasicFault::ZeroByte { line: 3 }),
            ToolFault::NotBasic(ListFault::Truncated),
        ],
    )?;
    add(text, &[JobFault::Start, JobFault::Tracks, JobFault::Both])?;
    add(
        text,
        &[
            ProgramFault::UnreadableArgument,
            ProgramFault::WrongLength(9),
            ProgramFault::UnreadableImage,
            ProgramFault::UnreadableSession,
            ProgramFault::NoSession(2),
            ProgramFault::Read,
            ProgramFault::Write,
            ProgramFault::Memory,
        ],
    )
}

/// Returns the texts of these faults, one on each line.
fn shown_faults(alloc: Global) -> Result<String, AllocError> {
    let mut text = String::new(alloc);
    add_all(&mut text)?;
    Ok(text)
}

pub fn fault_texts(bench: &Bench) -> End {
    bench.begin();
    match shown_faults(bench.alloc()) {
        Ok(text) if text.as_str() == FAULT_TEXTS => End::Made(text.len()),
        Ok(_) => End::Wrong("a text"),
        Err(_) => End::OutOfMemory,
    }
}
