//! A tool whose result goes to a host file: it is stored whole or not at all, and a refused input
//! is reported in the form of compilers.
ghost use Rattle.std.specs.Prelude.{◌≡◌, ◌≤◌, ◌⊎◌, IfErr, IfOk, Ok, Err, Option, None, length, option_copied};
ghost use Rattle.host_storage.specs.Input.{IsUnread, IsUnreadable, reading_of};
ghost use Rattle.program_console.specs.Reasons.{IsWriteReason, with_known_reason};
ghost use Rattle.program_console.specs.Console.{IsFresh, SameStreams};
ghost use Rattle.program_console.specs.Outside.{account_at, outside_at};
ghost use Rattle.program_console.specs.declared.reason.Reason.{Reason};
ghost use Rattle.out_messages.specs.FaultLines.{unwritten_line};
ghost use Rattle.cmd_basic.specs.ToolRuns.{EndedToolTo, ReportsProgram, ReportsFaultyLines, ReportsStored, ReportsUnwritten, TakesInput, fault_of_fetch};
ghost use Rattle.cmd_basic.specs.Tools.{HasStored, fault_of_store, start_of};

use crate::refusal_line::push_refusal_line;
use crate::refused_text::refused_text;
use crate::tools::{Tool, ToolFault, whole_input};
use cbm_text::ListFault;
use host_storage::{Host, HostFault, INPUT_BYTES, InputStream, OutputStream};
use out_messages::unwritten_line;
use program_console::{
    ALL_ACCEPTED, Console, NOT_RUN, ProgramFault, SOME_REFUSED, push_known_reason, reason_unwritten,
};
use script_lines::Status;
use script_lines::host_file::fetch;
use std::alloc::{AllocError, Global};
use std::io::{Read, Write};

/// A tool whose result goes to a host file.
#[derive(Clone, Copy)]
pub(crate) struct StoredTool<'n> {
    pub(crate) tool: Tool,
    /// The host file that it works on; without one, it is the input.
    pub(crate) file: Option<&'n str>,
    /// The host file that it stores its result in.
    pub(crate) target: &'n str,
}

impl<'n> StoredTool<'n> {
    /// Stores what the tool makes of its file, or of the input, and returns the exit status.
    /// Nothing is stored if it refuses the input, the input cannot be read, memory runs out, or the
    /// store is refused.
    pub(crate) fn run<R: Read, W: Write, F: Write, H: Host>(
        self,
        alloc: Global,
        console: &mut Console<'_, R, W, F>,
        host: &mut H,
    ) -> u8
        requires fresh { IsFresh console.old }
        ensures same { SameStreams console.old console.new }
        ensures unprinted { console.new.outputs.output ≡ console.old.outputs.output }
        ensures ended { EndedToolTo self.entry.tool (option_copied self.entry.file) self.entry.target.now
            (outside_at R.remaining W.contents F.contents console.old (H.state host.old))
            (outside_at R.remaining W.contents F.contents console.new (H.state host.new)) result }
        ensures status { result ≤ 2 }
        ensures silent { result ≡ 0 → console.new.outputs.faults ≡ console.old.outputs.faults }
    {
        match self.taken(alloc, &mut console.input, host) {
            Ok(bytes) => {
                let outcome = self.store(alloc, bytes.as_slice(), host);
                self.report(
                    alloc,
                    bytes.as_slice(),
                    outcome,
                    host,
                    &mut console.outputs.faults,
                )
            }
            Err(fault) => { self.report(alloc, b"", Err(fault), host, &mut console.outputs.faults) }
        }
    }

    /// Returns the bytes that the tool works on: of its file, or of the input.
    fn taken<R: Read, H: Host>(
        self,
        alloc: Global,
        input: &mut InputStream<'_, R>,
        host: &mut H,
    ) -> Result<Vec<u8>, ToolFault>
        requires unread { IsUnread (reading_of input.old.reads input.old.came input.old.has_failed) }
        ensures input { input.new.reader.ghost_name ≡ input.old.reader.ghost_name }
        ensures bytes { IfOk result (λ bytes. TakesInput (option_copied self.entry.file) (R.remaining input.old.reader.now) (R.remaining input.new.reader.now) (H.state host.old) (H.state host.new) (Ok bytes.items)) }
        ensures fault { IfErr result (λ fault. TakesInput (option_copied self.entry.file) (R.remaining input.old.reader.now) (R.remaining input.new.reader.now) (H.state host.old) (H.state host.new) (Err fault)) }
        ensures reads { option_copied self.entry.file ≡ None → result ≡ Err ToolFault.Read → IsUnreadable (reading_of input.new.reads input.new.came input.new.has_failed) }
    {
        let Some(name) = self.file else {
            return whole_input(alloc, input);
        };
        match fetch(alloc, host, name, INPUT_BYTES) {
            Ok(bytes) => Ok(bytes),
            Err(fault) => Err(fault_of_fetch(fault)),
        }
    }

    /// Stores what the tool makes of bytes. A refused store is returned as `Write`; `Read` is never
    /// returned.
    fn store<H: Host>(self, alloc: Global, bytes: &[u8], host: &mut H) -> Result<(), ToolFault>
        ensures stored { HasStored self.entry.tool bytes.now self.entry.target.now (H.state host.old) (H.state host.new) result }
    {
        let made = match self.tool.output(alloc, bytes) {
            Ok(made) => made,
            Err(fault) => return Err(fault),
        };
        match host.store(alloc, self.target, made.as_slice()) {
            Ok(()) => Ok(()),
            Err(fault) => Err(fault_of_store(fault)),
        }
    }

    /// Reports how the tool ended on these bytes, and returns the exit status.
    fn report<F: Write, H: Host>(
        self,
        alloc: Global,
        bytes: &[u8],
        outcome: Result<(), ToolFault>,
        host: &H,
        faults: &mut OutputStream<'_, F>,
    ) -> u8
        ensures faults { faults.new.writer.ghost_name ≡ faults.old.writer.ghost_name }
        ensures status { result ≤ 2 }
        ensures reported { ReportsStored self.entry.tool (option_copied self.entry.file) bytes.now self.entry.target.now (H.state host.now).files outcome (account_at F.contents faults.old) (account_at F.contents faults.new) result }
        ensures silent { result ≡ 0 → faults.new ≡ faults.old }
    {
        match outcome {
            Ok(()) => ALL_ACCEPTED,
            Err(ToolFault::Text(_)) => self.report_text(alloc, bytes, faults),
            Err(ToolFault::NotBasic(fault)) => self.report_program(alloc, fault, faults),
            Err(ToolFault::Read) => ProgramFault::Read.report_on(faults),
            Err(ToolFault::Write) => self.report_unwritten(alloc, host, faults),
            Err(ToolFault::Memory(_)) => ProgramFault::Memory.report_on(faults),
        }
    }

    /// Reports the faulty lines of a text, and returns the exit status.
    fn report_text<F: Write>(
        self,
        alloc: Global,
        text: &[u8],
        faults: &mut OutputStream<'_, F>,
    ) -> u8
        ensures faults { faults.new.writer.ghost_name ≡ faults.old.writer.ghost_name }
        ensures status { (result ≡ 1) ⊎ (result ≡ 2) }
        ensures reported { ReportsFaultyLines (option_copied self.entry.file) (start_of self.entry.tool) text.now (account_at F.contents faults.old) (account_at F.contents faults.new) result }
    {
        match refused_text(alloc, self.file, self.tool.start(), text) {
            Ok(lines) => {
                let _ = faults.write(lines.as_slice());
                SOME_REFUSED
            }
            Err(_) => ProgramFault::Memory.report_on(faults),
        }
    }

    /// Reports why the input is not a program, and returns the exit status.
    fn report_program<F: Write>(
        self,
        alloc: Global,
        fault: ListFault,
        faults: &mut OutputStream<'_, F>,
    ) -> u8
        ensures faults { faults.new.writer.ghost_name ≡ faults.old.writer.ghost_name }
        ensures status { (result ≡ 1) ⊎ (result ≡ 2) }
        ensures reported { ReportsProgram (option_copied self.entry.file) fault (account_at F.contents faults.old) (account_at F.contents faults.new) result }
    {
        let mut line = Vec::new(alloc);
        let text = fault.text().as_bytes();
        match push_refusal_line(&mut line, self.file, None, Status::from(fault), text) {
            Ok(()) => {
                let _ = faults.write(line.as_slice());
                SOME_REFUSED
            }
            Err(_) => ProgramFault::Memory.report_on(faults),
        }
    }

    /// Reports that the result cannot be written, and why, as far as the host can say; and returns
    /// the exit status.
    fn report_unwritten<F: Write, H: Host>(
        self,
        alloc: Global,
        host: &H,
        faults: &mut OutputStream<'_, F>,
    ) -> u8
        ensures faults { faults.new.writer.ghost_name ≡ faults.old.writer.ghost_name }
        ensures status { result ≡ 2 }
        ensures reported { ReportsUnwritten self.entry.target.now (H.state host.now).files (account_at F.contents faults.old) (account_at F.contents faults.new) result }
    {
        match unwritten_text(alloc, self.target, host) {
            Ok(line) => {
                let _ = faults.write(line.as_slice());
                NOT_RUN
            }
            Err(_) => ProgramFault::Memory.report_on(faults),
        }
    }
}

/// Returns the line of a result that cannot be written to a file, with the reason, as far as the
/// host can say.
fn unwritten_text<H: Host>(alloc: Global, target: &str, host: &H) -> Result<Vec<u8>, AllocError>
    ensures { IfOk result (λ line. (reason : Option Reason) × IsWriteReason (H.state host.now).files target.now reason × (line.items ≡ with_known_reason reason (unwritten_line target.now))) }
{
    let mut line = Vec::new(alloc);
    unwritten_line(&mut line, target.as_bytes())?;
    push_known_reason(&mut line, reason_unwritten(host, target))?;
    Ok(line)
}

/// Returns the fault of a fetch as the tool's.
pub(crate) fn fault_of_fetch(fault: HostFault) -> ToolFault
    ensures { result ≡ fault_of_fetch fault }
{
    match fault {
        HostFault::Memory(error) => ToolFault::Memory(error),
        HostFault::Missing | HostFault::Device | HostFault::TooLong => ToolFault::Read,
    }
}

/// Returns the fault of a store as the tool's.
fn fault_of_store(fault: HostFault) -> ToolFault
    ensures { result ≡ fault_of_store fault }
{
    match fault {
        HostFault::Memory(error) => ToolFault::Memory(error),
        HostFault::Missing | HostFault::Device | HostFault::TooLong => ToolFault::Write,
    }
}
