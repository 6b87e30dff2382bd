//! The run of a survey: a report on each file that the arguments or a list name.
ghost use Rattle.std.specs.Prelude.{◌≡◌, ◌≤◌, ℕ, List, [], Err, IfErr, IfOk, Ok, OnOk, Result, true};
ghost use Rattle.host_storage.specs.declared.host.HostFault.{HostFault};
ghost use Rattle.program_surveys.specs.FileOutcomes.{KeepsQuiet};
ghost use Rattle.program_console.specs.Reasons.{with_known_reason};
ghost use Rattle.out_messages.specs.FaultLines.{unread_line};
ghost use Rattle.program_surveys.specs.Runs.{run_state_at};
ghost use Rattle.program_surveys.specs.JobEnds.{EndedSurvey, IsListReason, ReportsFault};
ghost use Rattle.program_console.specs.Console.{Delivers, IsDelivered, IsFresh, SameStreams, SameWriters};
ghost use Rattle.program_console.specs.Outside.{account_at, outside_at};
ghost use Rattle.program_surveys.specs.SurveyFiles.{files_in, list_name};
ghost use Rattle.program_surveys.specs.Surveys.{IsOpened, RunsListFile, EndsSurveyWith, Surveys, fault_of_list};
ghost use Rattle.program_console.specs.declared.stream_fault.StreamFault.{StreamFault};
ghost use Rattle.program_surveys.specs.declared.report.Verdict.{Verdict};

use crate::batch::Batch;
use crate::file_names::FileNames;
use crate::list_batch::ListBatch;
use crate::report::Verdict;
use crate::task::FileTask;
use host_storage::{Host, HostFault, InputStream, OutputStream};
use out_messages::unread_line;
use program_console::{
    Console, NOT_RUN, Outputs, ProgramFault, Reason, StreamFault, push_known_reason, reason_of,
};
use std::alloc::{AllocError, Global};
use std::io::{Read, Write};

/// Returns the fault of a run for a list that cannot be opened.
fn fault_of_list(fault: HostFault) -> StreamFault
    ensures { result ≡ fault_of_list fault }
{
    match fault {
        HostFault::Memory(_) => StreamFault::Memory,
        HostFault::Missing | HostFault::Device | HostFault::TooLong => StreamFault::Read,
    }
}

/// Opens a list of the host.
fn open_list<H: Host>(list: &str, host: &mut H) -> Result<H::File, StreamFault>
    ensures opened { IfOk result (λ file. IsOpened list.now (H.state host.old)
        (Ok (H.File.remaining file)) (H.state host.new)) }
    ensures refused { IfErr result (λ reported. (fault : HostFault) × IsOpened list.now (H.state host.old)
        (Err fault) (H.state host.new) × (reported ≡ fault_of_list fault)) }
{
    match host.open(list) {
        Ok(file) => Ok(file),
        Err(fault) => Err(fault_of_list(fault)),
    }
}

/// Returns why a list cannot be read, as far as the host can say; no reason for the standard input.
fn reason_of_list<H: Host>(list: &str, host: &H) -> Option<Reason>
    ensures { IsListReason (H.state host.now).files list.now result }
{
    match list {
        "-" => None,
        list => reason_of(host, list, HostFault::Device),
    }
}

/// Processes the files that a list of the host names. A failed read of the list is counted.
fn process_list_file<H: Host, C: FileTask, W: Write, F: Write>(
    list: &str,
    batch: &mut ListBatch,
    host: &mut H,
    task: &mut C,
    outputs: &mut Outputs<'_, W, F>,
) -> Result<(), StreamFault>
    requires delivered { outputs.old.output.is_delivered ≡ true }
    ensures same { SameWriters outputs.old outputs.new }
    ensures delivered { OnOk result (Delivers outputs.old.output outputs.new.output) }
    ensures silent { KeepsQuiet (C.effects (C.options task.old)) → batch.new.batch.worst ≡ Verdict.Clean → (batch.old.batch.worst ≡ Verdict.Clean) × (outputs.new.faults ≡ outputs.old.faults) }
    ensures processed { RunsListFile (C.effects (C.options task.old)) batch.old.separator list.now
        (run_state_at W.contents F.contents outputs.old (H.state host.old) batch.old.batch.worst)
        (run_state_at W.contents F.contents outputs.new (H.state host.new) batch.new.batch.worst) result }
{
    let mut file = open_list(list, host)?;
    let mut list = InputStream::new(&mut file);
    match batch.process_stream(&mut list, host, task, outputs) {
        Ok(()) => return Ok(()),
        Err(StreamFault::Read) => {}
        Err(StreamFault::Write) => return Err(StreamFault::Write),
        Err(StreamFault::Memory) => return Err(StreamFault::Memory),
    }
    if list.has_failed() {
        host.count_failed_read();
    }
    Err(StreamFault::Read)
}

/// Appends the line of a list that cannot be read to an empty text, with the reason if one is
/// known.
fn push_unread_list(
    line: &mut Vec<u8>,
    list: &str,
    reason: Option<Reason>,
) -> Result<(), AllocError>
    ensures { line.old.items ≡ [] → OnOk result (line.new.items ≡ with_known_reason reason (unread_line list.now)) }
{
    unread_line(line, list.as_bytes())?;
    push_known_reason(line, reason)
}

/// A survey of the files with these names.
#[derive(Drop)]
pub struct SurveyJob<'n> {
    alloc: Global,
    names: FileNames<'n>,
}

impl<'n> SurveyJob<'n> {
    /// Returns a survey of the files with these names.
    pub fn new(alloc: Global, names: FileNames<'n>) -> SurveyJob<'n>
        ensures { result.names ≡ names.entry }
    {
        SurveyJob { alloc, names }
    }

    /// Processes the files by a task, unless memory ran out while it was made, and returns the exit
    /// status: that of the worst verdict, or 2 if the list cannot be read, the output takes no more
    /// bytes, or memory runs out.
    pub fn run<R: Read, W: Write, F: Write, H: Host, C: FileTask + Drop>(
        &self,
        task: Result<C, AllocError>,
        console: &mut Console<'_, R, W, F>,
        host: &mut H,
    ) -> u8
        requires fresh { IsFresh console.old }
        ensures same { SameStreams console.old console.new }
        ensures status { result ≤ 2 }
        ensures delivered { result ≡ 0 → IsDelivered console.new.outputs.output }
        ensures silent { IfOk task (λ task. KeepsQuiet (C.effects (C.options task))) → result ≡ 0 → console.new.outputs.faults ≡ console.old.outputs.faults }
        ensures ended { (options : C.Options) (heading : List ℕ) → IfOk task (λ task. (C.options task ≡ options) × (C.heading task ≡ heading))
            → EndedSurvey (C.effects options) heading (files_in self.now.names)
            (outside_at R.remaining W.contents F.contents console.old (H.state host.old))
            (outside_at R.remaining W.contents F.contents console.new (H.state host.new)) result }
    {
        let mut task = match task {
            Ok(task) => task,
            Err(_) => return ProgramFault::Memory.report_on(&mut console.outputs.faults),
        };
        match self.survey(&mut task, console, host) {
            Ok(verdict) => verdict.exit_status(),
            Err(fault) => self.report_fault(fault, host, &mut console.outputs.faults),
        }
    }

    /// Processes the files by a task, and returns the worst verdict.
    fn survey<R: Read, W: Write, F: Write, H: Host, C: FileTask>(
        &self,
        task: &mut C,
        console: &mut Console<'_, R, W, F>,
        host: &mut H,
    ) -> Result<Verdict, StreamFault>
        requires fresh { IsFresh console.old }
        ensures same { SameStreams console.old console.new }
        ensures delivered { OnOk result (IsDelivered console.new.outputs.output) }
        ensures silent { KeepsQuiet (C.effects (C.options task.old)) → result ≡ Ok Verdict.Clean → console.new.outputs.faults ≡ console.old.outputs.faults }
        ensures surveyed { (worst : Verdict) × (ended : Result (Unit {0}) StreamFault) × Surveys (C.effects (C.options task.old)) (C.heading task.old) (files_in self.now.names) (R.remaining console.old.input.reader.now) (R.remaining console.new.input.reader.now) console.new.input.has_failed
            (run_state_at W.contents F.contents console.old.outputs (H.state host.old) Verdict.Clean)
            (run_state_at W.contents F.contents console.new.outputs (H.state host.new) worst) ended × EndsSurveyWith worst ended result }
    {
        let mut batch = Batch::new(self.alloc);
        batch.begin(task, &mut console.outputs)?;
        match self.names {
            FileNames::Given(names) => {
                batch.process_files(names, host, task, &mut console.outputs)?;
                Ok(batch.worst())
            }
            FileNames::Listed { list, separator } => {
                let mut batch = ListBatch::new(batch, separator);
                match list {
                    "-" => {
                        batch.process_stream(&mut console.input, host, task, &mut console.outputs)?;
                        Ok(batch.worst())
                    }
                    list => {
                        process_list_file(list, &mut batch, host, task, &mut console.outputs)?;
                        Ok(batch.worst())
                    }
                }
            }
        }
    }

    /// Reports the fault of a run, and returns the exit status. If the list cannot be read, it says
    /// why, if that is known. If a write fails, the rest of the line is dropped.
    fn report_fault<H: Host, F: Write>(
        &self,
        fault: StreamFault,
        host: &H,
        faults: &mut OutputStream<'_, F>,
    ) -> u8
        ensures faults { faults.new.writer.ghost_name ≡ faults.old.writer.ghost_name }
        ensures status { result ≡ 2 }
        ensures reported { ReportsFault (H.state host.now).files (list_name (files_in self.now.names)) fault (account_at F.contents faults.old) (account_at F.contents faults.new) result }
    {
        match fault {
            StreamFault::Read => {}
            StreamFault::Write => return ProgramFault::Write.report_on(faults),
            StreamFault::Memory => return ProgramFault::Memory.report_on(faults),
        }
        let list = self.names.list_name();
        let reason = reason_of_list(list, host);
        let mut line = Vec::new(self.alloc);
        match push_unread_list(&mut line, list, reason) {
            Ok(()) => {
                let _ = faults.write(line.as_slice());
                NOT_RUN
            }
            Err(_) => ProgramFault::Memory.report_on(faults),
        }
    }
}
