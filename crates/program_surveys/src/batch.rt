//! `Batch`: files are read, processed and flushed, one after another.
ghost use Rattle.std.specs.Prelude.{◌≡◌, [], true, map, string_bytes, IfOk, OnErr, OnOk};
ghost use Rattle.program_surveys.specs.Names.{File};
ghost use Rattle.program_surveys.specs.Asked.{request_of};
ghost use Rattle.program_surveys.specs.FileOutcomes.{KeepsQuiet, file_outcome};
ghost use Rattle.program_surveys.specs.Runs.{Begins, EndsAt, EndsServing, EndsUnread, Runs, ReportsResult, run_state_at, reported_at};
ghost use Rattle.program_console.specs.Console.{Delivers, SameWriters, StaysDelivered};
ghost use Rattle.program_console.specs.Outside.{account_at};

use crate::asked::Asked;
use crate::report::{ReportBuffer, Verdict};
use crate::task::FileTask;
use host_storage::{Host, HostFault, INPUT_BYTES, WriteFault};
use program_console::{Outputs, Reason, StreamFault, push_known_reason, reason_of};
use std::alloc::Global;
use std::io::Write;

/// The buffers of a run, which are used for one file after another, and its worst verdict so far.
#[derive(Drop)]
pub struct Batch {
    bytes: Vec<u8>,
    /// The result that `report_result` writes.
    pub buffer: ReportBuffer,
    worst: Verdict,
}

impl Batch {
    /// Returns an empty batch: no file is processed, and its buffers have no memory yet.
    pub fn new(alloc: Global) -> Batch
        ensures { result.worst ≡ Verdict.Clean }
    {
        Batch {
            bytes: Vec::new(alloc),
            buffer: ReportBuffer::new(alloc),
            worst: Verdict::Clean,
        }
    }

    /// Returns the worst verdict on the files that were processed.
    pub fn worst(&self) -> Verdict
        ensures { result ≡ self.now.worst }
    {
        self.worst
    }

    /// Prints the heading and flushes the output.
    pub fn begin<C: FileTask, W: Write, F: Write>(
        &mut self,
        task: &mut C,
        outputs: &mut Outputs<'_, W, F>,
    ) -> Result<(), StreamFault>
        ensures same { SameWriters outputs.old outputs.new }
        ensures options { C.options task.new ≡ C.options task.old }
        ensures delivered { OnOk result (Delivers outputs.old.output outputs.new.output) }
        ensures worst { self.new.worst ≡ self.old.worst }
        ensures silent { outputs.new.faults ≡ outputs.old.faults }
        ensures begun { Begins (C.heading task.old) (account_at W.contents outputs.old.output) (account_at W.contents outputs.new.output) result }
    {
        task.head(&mut self.buffer)?;
        outputs.print(self.buffer.printed.as_slice())?;
        Ok(())
    }

    /// Processes what is asked for: a file of the host, or a name that cannot be a file's.
    pub(crate) fn process<H: Host, C: FileTask, W: Write, F: Write>(
        &mut self,
        asked: Asked<'_>,
        host: &mut H,
        task: &mut C,
        outputs: &mut Outputs<'_, W, F>,
    ) -> Result<(), StreamFault>
        ensures same { SameWriters outputs.old outputs.new }
        ensures options { C.options task.new ≡ C.options task.old }
        ensures delivered { OnOk result (Delivers outputs.old.output outputs.new.output) }
        ensures silent { KeepsQuiet (C.effects (C.options task.old)) → self.new.worst ≡ Verdict.Clean → (self.old.worst ≡ Verdict.Clean) × (outputs.new.faults ≡ outputs.old.faults) }
        ensures processed { EndsAt (C.effects (C.options task.old)) (request_of asked.entry)
            (run_state_at W.contents F.contents outputs.old (H.state host.old) self.old.worst)
            (run_state_at W.contents F.contents outputs.new (H.state host.new) self.new.worst) result }
    {
        let verdict = self.serve(asked, host, task)?;
        self.report_result(verdict, outputs)?;
        Ok(())
    }

    /// Reads a file of the host, if one is asked for, and lets the task put the result into the
    /// buffer.
    #[tactic(auto, using(crate::proofs::Serving::serves_read, crate::proofs::Serving::halts_read, crate::proofs::Serving::ends_unread, crate::proofs::Serving::ends_no_file))]
    fn serve<H: Host, C: FileTask>(
        &mut self,
        asked: Asked<'_>,
        host: &mut H,
        task: &mut C,
    ) -> Result<Verdict, StreamFault>
        ensures options { C.options task.new ≡ C.options task.old }
        ensures worst { self.new.worst ≡ self.old.worst }
        ensures quiet { IfOk result (λ verdict. KeepsQuiet (C.effects (C.options task.old)) → verdict ≡ Verdict.Clean → self.new.buffer.complaint.items ≡ []) }
        ensures served { EndsServing (C.effects (C.options task.old)) (request_of asked.entry) (H.state host.old) (H.state host.new)
            (file_outcome self.new.buffer.printed.items self.new.buffer.complaint.items) result }
    {
        let name = match asked {
            Asked::File(name) => name,
            Asked::NoFile { shown, reason } => {
                return self.serve_unread(shown, Some(reason), host, task);
            }
        };
        match host.fill(name, INPUT_BYTES, &mut self.bytes) {
            Ok(()) => {
                let bytes = Some(self.bytes.as_slice());
                Ok(task.process_file(name.as_bytes(), bytes, host, &mut self.buffer)?)
            }
            Err(HostFault::Memory(_)) => Err(StreamFault::Memory),
            Err(fault) => {
                let reason = reason_of(host, name, fault);
                self.serve_unread(name.as_bytes(), reason, host, task)
            }
        }
    }

    /// Puts the result of a file that could not be read into the buffer, with the reason if one is
    /// known.
    fn serve_unread<H: Host, C: FileTask>(
        &mut self,
        name: &[u8],
        reason: Option<Reason>,
        host: &mut H,
        task: &mut C,
    ) -> Result<Verdict, StreamFault>
        ensures options { C.options task.new ≡ C.options task.old }
        ensures worst { self.new.worst ≡ self.old.worst }
        ensures quiet { IfOk result (λ verdict. KeepsQuiet (C.effects (C.options task.old)) → verdict ≡ Verdict.Clean → self.new.buffer.complaint.items ≡ []) }
        ensures served { EndsUnread (C.effects (C.options task.old)) name.now reason (H.state host.old) (H.state host.new)
            (file_outcome self.new.buffer.printed.items self.new.buffer.complaint.items) result }
    {
        let verdict = task.process_file(name, None, host, &mut self.buffer)?;
        push_known_reason(&mut self.buffer.complaint, reason)?;
        Ok(verdict)
    }

    /// Processes files of the host, one after another. `Write` comes if the output fails, and no
    /// file is processed after that; a file that cannot be read stops nothing.
    pub fn process_files<H: Host, C: FileTask, W: Write, F: Write>(
        &mut self,
        names: &[String],
        host: &mut H,
        task: &mut C,
        outputs: &mut Outputs<'_, W, F>,
    ) -> Result<(), StreamFault>
        ensures same { SameWriters outputs.old outputs.new }
        ensures options { C.options task.new ≡ C.options task.old }
        ensures delivered { OnOk result (StaysDelivered outputs.old.output outputs.new.output) }
        ensures silent { KeepsQuiet (C.effects (C.options task.old)) → self.new.worst ≡ Verdict.Clean → (self.old.worst ≡ Verdict.Clean) × (outputs.new.faults ≡ outputs.old.faults) }
        ensures processed { Runs (C.effects (C.options task.old)) (map (λ name. File (string_bytes name)) names.now)
            (run_state_at W.contents F.contents outputs.old (H.state host.old) self.old.worst)
            (run_state_at W.contents F.contents outputs.new (H.state host.new) self.new.worst) result }
    {
        for name in names {
            self.process(Asked::File(name.as_str()), host, task, outputs)?;
        }
        Ok(())
    }

    /// Writes what is in the buffer, flushes the output, and counts the verdict. If the buffer has
    /// no complaint, the standard error is left alone; if the standard error fails, the rest of the
    /// complaint is dropped.
    pub fn report_result<W: Write, F: Write>(
        &mut self,
        verdict: Verdict,
        outputs: &mut Outputs<'_, W, F>,
    ) -> Result<(), WriteFault>
        ensures same { SameWriters outputs.old outputs.new }
        ensures delivered { OnOk result (Delivers outputs.old.output outputs.new.output) }
        ensures silent { self.old.buffer.complaint.items ≡ [] → outputs.new.faults ≡ outputs.old.faults }
        ensures stopped { OnErr result (outputs.new.faults ≡ outputs.old.faults) }
        ensures reported { ReportsResult (file_outcome self.old.buffer.printed.items self.old.buffer.complaint.items verdict)
            (reported_at W.contents F.contents outputs.old self.old.worst)
            (reported_at W.contents F.contents outputs.new self.new.worst) result }
    {
        outputs.print(self.buffer.printed.as_slice())?;
        if !self.buffer.complaint.is_empty() {
            let _ = outputs.faults.write(self.buffer.complaint.as_slice());
        }
        self.worst = self.worst.worse(verdict);
        Ok(())
    }
}
