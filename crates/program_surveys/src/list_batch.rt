//! `ListBatch`: processes the files that a list names, each as soon as its name has come.
ghost use Rattle.std.specs.Prelude.{◌≡◌, Err, [], List, ℕ, true, OnOk};
ghost use Rattle.host_storage.specs.Input.{IsUnread, IsUnreadable, reading_of};
ghost use Rattle.program_surveys.specs.FileOutcomes.{KeepsQuiet};
ghost use Rattle.program_surveys.specs.Names.{requests_of};
ghost use Rattle.program_surveys.specs.Runs.{Runs, run_state_at};
ghost use Rattle.program_surveys.specs.Lists.{EndsList, HasComeTo, KeepsList, RunsStream, list_state_of, view_of};
ghost use Rattle.program_console.specs.Console.{Delivers, SameWriters, StaysDelivered};

use crate::batch::Batch;
use crate::open_name::OpenName;
use crate::report::Verdict;
use crate::task::FileTask;
use host_storage::{Host, InputStream, OutputStream};
use program_console::{Outputs, StreamFault};
use script_text::part_handler::PartHandler;
use script_text::parts::{CutShort, read_parts};
use std::io::{Read, Write};
use std::ops::ControlFlow;

/// A batch, and the name of a list that has not come to its end. A separator ends each name; empty
/// names are skipped.
#[derive(Drop)]
pub struct ListBatch {
    separator: u8,
    name: OpenName,
    batch: Batch,
}

impl ListBatch {
    /// Returns a batch for a list whose names end with this byte, of which no byte has come.
    pub fn new(batch: Batch, separator: u8) -> ListBatch
        ensures separator { result.separator ≡ separator }
        ensures worst { result.batch.worst ≡ batch.worst }
    {
        ListBatch {
            separator,
            name: OpenName::new(),
            batch,
        }
    }

    /// Returns the worst verdict on the files that were processed.
    pub fn worst(&self) -> Verdict
        ensures { result ≡ self.now.batch.worst }
    {
        self.batch.worst()
    }

    /// Processes the files that an input names, each once its name is ended. `Read` comes if the
    /// input cannot be read to its end: a read failed, or it has more than 16,777,216 bytes, or
    /// takes more than 1,000,000 reads.
    pub fn process_stream<R: Read, H: Host, C: FileTask, W: Write, F: Write>(
        &mut self,
        input: &mut InputStream<'_, R>,
        host: &mut H,
        task: &mut C,
        outputs: &mut Outputs<'_, W, F>,
    ) -> Result<(), StreamFault>
        requires unread { IsUnread (reading_of input.old.reads input.old.came input.old.has_failed) }
        requires delivered { outputs.old.output.is_delivered ≡ true }
        ensures kept { (self.new.separator ≡ self.old.separator) × (C.options task.new ≡ C.options task.old) }
        ensures unreadable { result ≡ Err StreamFault.Read → IsUnreadable (reading_of input.new.reads input.new.came input.new.has_failed) }
        ensures input { input.new.reader.ghost_name ≡ input.old.reader.ghost_name }
        ensures same { SameWriters outputs.old outputs.new }
        ensures delivered { OnOk result (Delivers outputs.old.output outputs.new.output) }
        ensures silent { KeepsQuiet (C.effects (C.options task.old)) → self.new.batch.worst ≡ Verdict.Clean → (self.old.batch.worst ≡ Verdict.Clean) × (outputs.new.faults ≡ outputs.old.faults) }
        ensures processed { RunsStream (C.effects (C.options task.old)) self.old.separator (R.remaining input.old.reader.now) (R.remaining input.new.reader.now) input.new.has_failed
            (run_state_at W.contents F.contents outputs.old (H.state host.old) self.old.batch.worst)
            (run_state_at W.contents F.contents outputs.new (H.state host.new) self.new.batch.worst) result }
    {
        self.name.clear();
        let mut run = ListRun {
            list: self,
            host,
            task,
            outputs,
        };
        run.read(input)
    }

    /// Processes the file whose name is ended, if the name has a byte.
    fn end<H: Host, C: FileTask, W: Write, F: Write>(
        &mut self,
        host: &mut H,
        task: &mut C,
        outputs: &mut Outputs<'_, W, F>,
    ) -> Result<(), StreamFault>
        ensures kept { (self.new.separator ≡ self.old.separator) × (C.options task.new ≡ C.options task.old) }
        ensures same { SameWriters outputs.old outputs.new }
        ensures delivered { OnOk result (StaysDelivered outputs.old.output outputs.new.output) }
        ensures silent { KeepsQuiet (C.effects (C.options task.old)) → self.new.batch.worst ≡ Verdict.Clean → (self.old.batch.worst ≡ Verdict.Clean) × (outputs.new.faults ≡ outputs.old.faults) }
        ensures processed { Runs (C.effects (C.options task.old)) (requests_of self.old.name)
            (run_state_at W.contents F.contents outputs.old (H.state host.old) self.old.batch.worst)
            (run_state_at W.contents F.contents outputs.new (H.state host.new) self.new.batch.worst) result }
    {
        match self.name.asked() {
            Some(asked) => self.batch.process(asked, host, task, outputs),
            None => Ok(()),
        }
    }
}

/// A run over the names of a list, and what it was lent.
#[derive(Drop)]
struct ListRun<'l, 'h, 'c, 'o, 's, H, C, W: Write, F: Write> {
    list: &'l mut ListBatch,
    host: &'h mut H,
    task: &'c mut C,
    outputs: &'o mut Outputs<'s, W, F>,
}

impl<'l, 'h, 'c, 'o, 's, H: Host, C: FileTask, W: Write, F: Write> ListRun<
    'l,
    'h,
    'c,
    'o,
    's,
    H,
    C,
    W,
    F,
> {
    /// Processes the files that an input names.
    fn read<R: Read>(&mut self, input: &mut InputStream<'_, R>) -> Result<(), StreamFault>
        requires unread { IsUnread (reading_of input.old.reads input.old.came input.old.has_failed) }
        requires begun { HasComeTo (view_of C.options C.effects H.state W.contents F.contents) self.old self.old [] [] }
        ensures input { input.new.reader.ghost_name ≡ input.old.reader.ghost_name }
        ensures unreadable { result ≡ Err StreamFault.Read → IsUnreadable (reading_of input.new.reads input.new.came input.new.has_failed) }
        ensures kept { KeepsList (view_of C.options C.effects H.state W.contents F.contents) self.old self.new }
        ensures delivered { OnOk result (Delivers self.old.outputs.now.output self.new.outputs.now.output) }
        ensures processed { RunsStream (C.effects (C.options self.old.task.now)) self.old.list.now.separator (R.remaining input.old.reader.now) (R.remaining input.new.reader.now) input.new.has_failed
            (list_state_of (view_of C.options C.effects H.state W.contents F.contents) self.old) (list_state_of (view_of C.options C.effects H.state W.contents F.contents) self.new) result }
    {
        let separator = self.list.separator;
        match read_parts(input, separator, self) {
            Ok(ended) => ended,
            Err(CutShort) => Err(StreamFault::Read),
        }
    }
}

impl<'l, 'h, 'c, 'o, 's, H: Host, C: FileTask, W: Write, F: Write> PartHandler
    for ListRun<'l, 'h, 'c, 'o, 's, H, C, W, F> {
    type End = Result<(), StreamFault>;

    type Writer = W;

    ghost separator = { λ run. run.list.now.separator };

    ghost count = { λ run. 0 };

    ghost has_come = { HasComeTo (view_of C.options C.effects H.state W.contents F.contents) };

    ghost has_ended = { EndsList (view_of C.options C.effects H.state W.contents F.contents) };

    ghost is_delivered = { λ run. run.outputs.now.output.is_delivered ≡ true };

    fn prepare(&mut self) -> ControlFlow<Result<(), StreamFault>> {
        ControlFlow::Continue(())
    }

    fn output(&self) -> &OutputStream<'_, W> {
        &self.outputs.output
    }

    fn push(&mut self, bytes: &[u8]) {
        self.list.name.push(bytes);
    }

    fn end_part(&mut self) -> ControlFlow<Result<(), StreamFault>> {
        match self.list.end(self.host, self.task, self.outputs) {
            Ok(()) => {
                self.list.name.clear();
                ControlFlow::Continue(())
            }
            Err(fault) => ControlFlow::Break(Err(fault)),
        }
    }

    fn end_input(&mut self) -> Result<(), StreamFault> {
        self.list.end(self.host, self.task, self.outputs)
    }
}
