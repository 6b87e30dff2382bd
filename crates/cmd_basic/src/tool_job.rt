//! A tool on the input or on a file, to the output, and its exit status.
ghost use Rattle.std.specs.Prelude.{◌≡◌, ◌≤◌, IsOk, None, OnOk, option_copied, true};
ghost use Rattle.host_storage.specs.Input.{reading_of};
ghost use Rattle.host_storage.specs.Output.{Writes};
ghost use Rattle.program_console.specs.Console.{IsDelivered, IsFresh, SameStreams};
ghost use Rattle.program_console.specs.Outside.{account_at, outside_at};
ghost use Rattle.script_lines.specs.Status.{status_line};
ghost use Rattle.cmd_basic.specs.ToolRuns.{EndedConversion, RanToolOn, ReportsToolResult};
ghost use Rattle.cmd_basic.specs.Tools.{ReadsWith, WritesWith};

use crate::stored_tool::{StoredTool, fault_of_fetch};
use crate::tools::{Tool, ToolFault};
use host_storage::{Host, INPUT_BYTES, OutputStream};
use program_console::{ALL_ACCEPTED, Console, ProgramFault, SOME_REFUSED};
use script_lines::Status;
use script_lines::host_file::fetch;
use std::alloc::Global;
use std::io::{Read, Write};

/// What the arguments ask of a tool.
#[derive(Clone, Copy)]
pub struct ToolJob<'n> {
    pub tool: Tool,
    /// The host file that it works on; without one, it works on the input.
    pub file: Option<&'n str>,
    /// The host file that its result goes to; without one, it goes to the output.
    pub target: Option<&'n str>,
}

impl<'n> ToolJob<'n> {
    /// Runs the tool, and returns the exit status.
    pub fn run<R: Read, W: Write, F: Write, H: Host>(
        self,
        alloc: Global,
        console: &mut Console<'_, R, W, F>,
        host: &mut H,
    ) -> u8
        requires fresh { IsFresh console.old }
        ensures same { SameStreams console.old console.new }
        ensures ended { EndedConversion self.entry.tool (option_copied self.entry.file) (option_copied self.entry.target)
            (outside_at R.remaining W.contents F.contents console.old (H.state host.old))
            (outside_at R.remaining W.contents F.contents console.new (H.state host.new)) result }
        ensures status { result ≤ 2 }
        ensures delivered { result ≡ 0 → IsDelivered console.new.outputs.output }
        ensures silent { result ≡ 0 → console.new.outputs.faults ≡ console.old.outputs.faults }
    {
        let Some(target) = self.target else {
            let outcome = run_tool(alloc, self.tool, self.file, console, host);
            return report_result(outcome, &mut console.outputs.faults);
        };
        let job = StoredTool {
            tool: self.tool,
            file: self.file,
            target,
        };
        job.run(alloc, console, host)
    }
}

/// Runs the tool on the file that the host has under this name, or on the input, and flushes the
/// output.
fn run_tool<R: Read, W: Write, F: Write, H: Host>(
    alloc: Global,
    tool: Tool,
    name: Option<&str>,
    console: &mut Console<'_, R, W, F>,
    host: &mut H,
) -> Result<(), ToolFault>
    requires fresh { IsFresh console.old }
    ensures same { SameStreams console.old console.new }
    ensures silent { console.new.outputs.faults ≡ console.old.outputs.faults }
    ensures ran { RanToolOn tool (option_copied name.entry)
        (outside_at R.remaining W.contents F.contents console.old (H.state host.old))
        (outside_at R.remaining W.contents F.contents console.new (H.state host.new)) result }
    ensures reads { option_copied name.entry ≡ None → ReadsWith result (reading_of console.new.input.reads console.new.input.came console.new.input.has_failed) }
    ensures writes { WritesWith result console.old.outputs.output.has_failed console.new.outputs.output.has_failed }
    ensures delivered { OnOk result (console.new.outputs.output.is_delivered ≡ true) }
{
    write_result(alloc, tool, name, console, host)?;
    match console.outputs.output.flush() {
        Ok(()) => Ok(()),
        Err(_) => Err(ToolFault::Write),
    }
}

/// Writes what the tool makes of the file that the host has under this name, or of the input.
fn write_result<R: Read, W: Write, F: Write, H: Host>(
    alloc: Global,
    tool: Tool,
    name: Option<&str>,
    console: &mut Console<'_, R, W, F>,
    host: &mut H,
) -> Result<(), ToolFault>
    requires fresh { IsFresh console.old }
    ensures same { SameStreams console.old console.new }
    ensures silent { console.new.outputs.faults ≡ console.old.outputs.faults }
    ensures ran { RanToolOn tool (option_copied name.entry)
        (outside_at R.remaining W.contents F.contents console.old (H.state host.old))
        (outside_at R.remaining W.contents F.contents console.new (H.state host.new)) result }
    ensures reads { option_copied name.entry ≡ None → ReadsWith result (reading_of console.new.input.reads console.new.input.came console.new.input.has_failed) }
    ensures writes { WritesWith result console.old.outputs.output.has_failed console.new.outputs.output.has_failed }
{
    let Some(name) = name else {
        return tool.run(alloc, &mut console.input, &mut console.outputs.output);
    };
    match fetch(alloc, host, name, INPUT_BYTES) {
        Ok(bytes) => tool.write(alloc, &bytes, &mut console.outputs.output),
        Err(fault) => Err(fault_of_fetch(fault)),
    }
}

/// Reports a tool's result, and returns the exit status.
fn report_result<F: Write>(outcome: Result<(), ToolFault>, faults: &mut OutputStream<'_, F>) -> u8
    ensures faults { faults.new.writer.ghost_name ≡ faults.old.writer.ghost_name }
    ensures wrote { result ≡ 0 → IsOk outcome }
    ensures reported { ReportsToolResult outcome (account_at F.contents faults.old) (account_at F.contents faults.new) result }
    ensures silent { result ≡ 0 → faults.new ≡ faults.old }
{
    match outcome {
        Ok(()) => ALL_ACCEPTED,
        Err(ToolFault::Text(fault)) => report_refusal(Status::from(fault), faults),
        Err(ToolFault::NotBasic(fault)) => report_refusal(Status::from(fault), faults),
        Err(ToolFault::Read) => ProgramFault::Read.report_on(faults),
        Err(ToolFault::Write) => ProgramFault::Write.report_on(faults),
        Err(ToolFault::Memory(_)) => ProgramFault::Memory.report_on(faults),
    }
}

/// Writes the status line of a refusal, and returns the exit status. If a write fails, the rest of
/// the line is dropped.
fn report_refusal<F: Write>(status: Status, faults: &mut OutputStream<'_, F>) -> u8
    ensures faults { faults.new.writer.ghost_name ≡ faults.old.writer.ghost_name }
    ensures status { result ≡ 1 }
    ensures reported { Writes (account_at F.contents faults.old) (account_at F.contents faults.new) (status_line status) }
{
    let _ = faults.write(status.line().as_slice());
    SOME_REFUSED
}
