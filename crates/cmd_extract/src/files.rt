//! The files of an image, one after another.
ghost use Rattle.std.specs.Prelude.{◌≡◌, ◌∷◌, [], ◌++◌, ℕ, List, Option, Some, None, OnOk, if◌then◌else◌};
ghost use Rattle.petscii.specs.Spelling.{spelling};
ghost use Rattle.d64_leftovers.specs.Rows.{wanted_rows};
ghost use Rattle.out_files.specs.Forms.{files_and};
ghost use Rattle.cmd_extract_contents.specs.Limits.{portion_within};
ghost use Rattle.cmd_extract.specs.Work.{Work, Comes};
ghost use Rattle.d64_files.specs.Name.{name_in};
ghost use Rattle.host_names.specs.TakenNames.{next_name};
ghost use Rattle.host_names.specs.declared.ending.Ending.TheVariants.{Orphan as orphan_ending};
ghost use Rattle.cmd_extract_contents.specs.HostFileNames.{is_part};
ghost use Rattle.cmd_extract.specs.Progress.{Progress, waiting_limit, progress_before_files, portion_of, orphan_stem, row_name, spent_progress, written_progress, unwritten_progress, put_progress};
ghost use Rattle.cmd_extract.specs.FilesNow.{progress_of_files};
ghost use Rattle.cmd_extract.specs.Setup.{TaskView, list_path};
ghost use Rattle.cmd_extract.specs.Unpacking.{after_putting, write_work, file_work, files_work, wait_work, put_work, closed_progress};

use crate::calls::{extend_file, make_file, reason_at};
use crate::list_state::ListState;
use crate::reporting::Reported;
use crate::setup::Task;
use cmd_extract_contents::{ContentExtraction, Extent, ending_by};
use d64_files::name_in;
use d64_image::BlockNo;
use d64_leftovers::{ListedRow, OldSlot, OrphanRow, RowList};
use host_names::{Ending, TakenNames, put_path};
use host_storage::Host;
use itoa::Buffer;
use out_files::print_after;
use out_messages::too_much_line;
use petscii::push_spelling;
use program_console::Reason;
use std::alloc::{AllocError, Global};

/// The name of the list of an image's files, in its folder.
const LIST_NAME: &[u8] = b"files.jsonl";

/// The most bytes of lines that wait to be written to the list.
const WAITING_BYTES: usize = 65_536;

/// The files of an image that is unpacked, and what is printed of them, in buffers that are used
/// for one image after another.
#[derive(Drop)]
pub(crate) struct Files {
    pub(crate) extraction: ContentExtraction,
    pub(crate) taken: TakenNames,
    pub(crate) reported: Reported,
    /// The bytes of a file.
    pub(crate) bytes: Vec<u8>,
    /// The name of a file in text form.
    pub(crate) text: Vec<u8>,
    /// The file's name on the host.
    pub(crate) name: Vec<u8>,
    /// The file's path on the host.
    pub(crate) path: Vec<u8>,
}

/// Names the host file of a file with its name in this field. The name is taken from then on.
fn take_name(
    taken: &mut TakenNames,
    text: &mut Vec<u8>,
    field: &[u8; 16],
    ending: Ending,
    extent: Extent,
    name: &mut Vec<u8>,
) -> Result<(), AllocError>
    ensures name { OnOk result (name.new.items ≡ next_name taken.old (spelling (name_in field.now)) ending (is_part extent)) }
    ensures taken { OnOk result (taken.new ≡ taken.old ++ name.new.items ∷ []) }
{
    text.clear();
    push_spelling(text, name_in(field))?;
    taken.take(text, ending, extent.is_part(), name)
}

/// Puts the name of an orphan into a text, in the place of what that had: the name in an old slot,
/// in text form, or else its first block.
fn put_orphan_stem(
    text: &mut Vec<u8>,
    first: BlockNo,
    old: Option<OldSlot>,
) -> Result<(), AllocError>
    ensures { OnOk result (text.new.items ≡ orphan_stem first old) }
{
    text.clear();
    match old {
        Some(old) => push_spelling(text, name_in(&old.field)),
        None => {
            text.extend_from_slice(Buffer::new().format(first.track()).as_bytes())?;
            text.extend_from_slice(b"-")?;
            text.extend_from_slice(Buffer::new().format(first.sector()).as_bytes())
        }
    }
}

/// Names the host file of an orphan. The name is taken from then on.
fn take_orphan_name(
    taken: &mut TakenNames,
    text: &mut Vec<u8>,
    chain: &OrphanRow,
    extent: Extent,
    name: &mut Vec<u8>,
) -> Result<(), AllocError>
    ensures name { OnOk result (name.new.items ≡ next_name taken.old (orphan_stem chain.now.first chain.now.old) orphan_ending (is_part extent)) }
    ensures taken { OnOk result (taken.new ≡ taken.old ++ name.new.items ∷ []) }
{
    put_orphan_stem(text, chain.first, chain.old)?;
    taken.take(text, Ending::Orphan, extent.is_part(), name)
}

/// Names the host file of the file of a row. The name is taken from then on.
#[tactic(auto, unfolding(crate::specs::Progress::row_name, cmd_extract_contents::specs::HostFileNames::host_name_of_row))]
fn name_file(
    taken: &mut TakenNames,
    text: &mut Vec<u8>,
    row: &ListedRow,
    extent: Extent,
    name: &mut Vec<u8>,
) -> Result<(), AllocError>
    ensures name { OnOk result (name.new.items ≡ row_name taken.old row.now extent) }
    ensures taken { OnOk result (taken.new ≡ taken.old ++ name.new.items ∷ []) }
{
    match row {
        ListedRow::File(file) => take_name(
            taken,
            text,
            &file.field,
            ending_by(file.kind),
            extent,
            name,
        ),
        ListedRow::Deleted(file) => {
            take_name(taken, text, &file.field, Ending::Deleted, extent, name)
        }
        ListedRow::Orphan(chain) => take_orphan_name(taken, text, chain, extent, name),
    }
}

impl Files {
    /// Returns a value without files, whose buffers have no memory yet.
    pub(crate) fn new(alloc: Global) -> Files {
        Files {
            extraction: ContentExtraction::new(),
            taken: TakenNames::new(alloc),
            reported: Reported::new(alloc),
            bytes: Vec::new(alloc),
            text: Vec::new(alloc),
            name: Vec::new(alloc),
            path: Vec::new(alloc),
        }
    }

    /// Begins with the files of an image, and forgets those before.
    fn begin(&mut self, task: &Task) -> Result<(), AllocError>
        ensures { OnOk result (progress_of_files self.new ≡ progress_before_files task.now) }
    {
        self.extraction = ContentExtraction::new();
        self.taken.clear();
        self.reported.begin(task)
    }

    /// Adds the line of a file that was written under its host name.
    fn report_written(&mut self, task: &Task, row: &ListedRow) -> Result<(), AllocError>
        ensures { OnOk result (progress_of_files self.new ≡ written_progress task.now row.now self.old.name.items (progress_of_files self.old)) }
    {
        put_path(&mut self.path, &task.done, &self.name)?;
        self.reported.report(task, row, Some(&self.path))
    }

    /// Adds the line of a file that could not be written under that name, with the reason, if one
    /// is known.
    fn report_unwritten(
        &mut self,
        task: &Task,
        row: &ListedRow,
        reason: Option<Reason>,
    ) -> Result<(), AllocError>
        ensures { OnOk result (progress_of_files self.new ≡ unwritten_progress task.now row.now self.old.name.items reason (progress_of_files self.old)) }
    {
        put_path(&mut self.path, &task.partial, &self.name)?;
        self.reported.report_failure(&self.path, reason)?;
        self.reported.report(task, row, None)
    }

    /// Writes a file whose bytes and host name are known.
    fn write_file<H: Host>(
        &mut self,
        task: &Task,
        row: &ListedRow,
        host: &mut H,
    ) -> Result<(), AllocError>
        ensures { (rest : Progress → Work) → Comes result
            (write_work task.now row.now self.old.name.items self.old.bytes.items (progress_of_files self.old) rest) (H.state host.old)
            (rest (progress_of_files self.new)) (H.state host.new) }
    {
        put_path(&mut self.path, &task.partial, &self.name)?;
        if make_file(host, &self.path, &self.bytes) {
            self.report_written(task, row)
        } else {
            let reason = reason_at(host, &self.path);
            self.report_unwritten(task, row, reason)
        }
    }

    /// Writes the file of a row, if there is something to write.
    fn unpack_file<H: Host>(
        &mut self,
        task: &Task,
        row: &ListedRow,
        host: &mut H,
    ) -> Result<(), AllocError>
        ensures { (rest : Progress → Work) → Comes result
            (file_work task.now row.now (spent_progress task.now row.now (progress_of_files self.old)) (portion_within self.old.extraction (portion_of task.now row.now)) rest) (H.state host.old)
            (rest (progress_of_files self.new)) (H.state host.new) }
    {
        let setup = task.setup;
        let with_parts = setup.with_parts;
        match self
            .extraction
            .next_row(task.all.survey(), row, with_parts, &mut self.bytes)?
        {
            Some(extent) => {
                name_file(&mut self.taken, &mut self.text, row, extent, &mut self.name)?;
                self.write_file(task, row, host)
            }
            None => self.reported.report(task, row, None),
        }
    }

    /// Ends a piece of the list that was to be written at the path, and was or was not.
    fn end_piece<H: Host>(&mut self, is_put: bool, host: &H) -> Result<(), AllocError>
        ensures { (task : TaskView) (rest : Progress → Work) → self.old.path.items ≡ list_path task → Comes result
            (after_putting task (progress_of_files self.old) rest is_put) (H.state host.now)
            (rest (progress_of_files self.new)) (H.state host.now) }
    {
        self.reported.lines.clear();
        if is_put {
            self.reported.list = ListState::Begun;
            return Ok(());
        }
        self.reported.list = ListState::GivenUp;
        let reason = reason_at(host, &self.path);
        self.reported.report_failure(&self.path, reason)
    }

    /// Writes the lines that wait to the list of the files, which is made with the first of them.
    pub(crate) fn put_lines<H: Host>(&mut self, task: &Task, host: &mut H) -> Result<(), AllocError>
        ensures { (rest : Progress → Work) → Comes result
            (put_work self.old.reported.list task.now (progress_of_files self.old) rest) (H.state host.old)
            (rest (progress_of_files self.new)) (H.state host.new) }
    {
        put_path(&mut self.path, &task.partial, LIST_NAME)?;
        match self.reported.list {
            ListState::New => {
                let is_put = make_file(host, &self.path, &self.reported.lines);
                self.end_piece(is_put, host)
            }
            ListState::Begun => {
                let is_put = extend_file(host, &self.path, &self.reported.lines);
                self.end_piece(is_put, host)
            }
            ListState::GivenUp => {
                self.reported.lines.clear();
                Ok(())
            }
        }
    }

    /// Writes the lines that wait to the list, once they pass the limit.
    fn put_long_lines<H: Host>(&mut self, task: &Task, host: &mut H) -> Result<(), AllocError>
        ensures { (rest : Progress → Work) → Comes result
            (wait_work task.now (progress_of_files self.old) rest) (H.state host.old)
            (rest (progress_of_files self.new)) (H.state host.new) }
    {
        if self.reported.lines.len() > WAITING_BYTES {
            return self.put_lines(task, host);
        }
        Ok(())
    }

    /// Writes the file of a row, and the lines that wait, once they pass the limit.
    fn unpack_row<H: Host>(
        &mut self,
        task: &Task,
        row: &ListedRow,
        host: &mut H,
    ) -> Result<(), AllocError>
        ensures { (rest : Progress → Work) → Comes result
            (file_work task.now row.now (spent_progress task.now row.now (progress_of_files self.old)) (portion_within self.old.extraction (portion_of task.now row.now)) (λ after. wait_work task.now after rest)) (H.state host.old)
            (rest (progress_of_files self.new)) (H.state host.new) }
    {
        self.unpack_file(task, row, host)?;
        self.put_long_lines(task, host)
    }

    /// Writes the files of an image, one after another.
    pub(crate) fn unpack_files<H: Host>(
        &mut self,
        task: &Task,
        host: &mut H,
    ) -> Result<(), AllocError>
        ensures { Comes result
            (files_work task.now (wanted_rows (files_and task.now.setup.form.leftovers) task.now.dump) (progress_before_files task.now)) (H.state host.old)
            (files_work task.now [] (progress_of_files self.new)) (H.state host.new) }
    {
        self.begin(task)?;
        let setup = task.setup;
        for row in RowList::of(task.all, setup.form.wanted()) {
            self.unpack_row(task, &row, host)?;
        }
        Ok(())
    }

    /// Ends the files of an image: prints what comes after them, and reports too many bytes.
    pub(crate) fn close(&mut self, task: &Task) -> Result<(), AllocError>
        ensures { OnOk result (progress_of_files self.new ≡ closed_progress task.now (progress_of_files self.old)) }
    {
        let setup = task.setup;
        print_after(setup.form.format, task.all, &mut self.reported.printed)?;
        if self.extraction.is_over() {
            too_much_line(&mut self.reported.complaint, task.name.as_bytes())?;
        }
        Ok(())
    }
}
