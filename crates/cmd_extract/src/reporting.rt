//! What is printed of the files of an image, collected as they are written.
ghost use Rattle.std.specs.Prelude.{◌≡◌, ◌++◌, [], Option, option_map, false, true, OnOk};
ghost use Rattle.out_files.specs.Forms.{before_rows};
ghost use Rattle.cmd_extract.specs.Extracts.{printed_file};
ghost use Rattle.out_files.specs.Forms.{as_json};
ghost use Rattle.out_messages.specs.FaultLines.{unwritten_line};
ghost use Rattle.program_console.specs.Reasons.{with_known_reason};
ghost use Rattle.cmd_extract.specs.declared.list_state.ListState.TheVariants.{New as not_there};

use crate::extract_printing::print_file;
use crate::list_state::ListState;
use crate::setup::Task;
use crate::verdicts::add_unwritten;
use d64_leftovers::ListedRow;
use out_files::print_before;
use out_json_csv::Scratch;
use program_console::Reason;
use std::alloc::{AllocError, Global};
use std::mem;

/// What is printed of the files of an image, in buffers that are used for one image after another.
#[derive(Drop)]
pub(crate) struct Reported {
    alloc: Global,
    /// Buffers for the parts of lines.
    pub(crate) scratch: Scratch,
    /// What is printed, in the form of the options.
    pub(crate) printed: Vec<u8>,
    /// The lines (in JSON) that wait to be written to the list of the files.
    pub(crate) lines: Vec<u8>,
    /// How far the list is written.
    pub(crate) list: ListState,
    /// What goes to the standard error.
    pub(crate) complaint: Vec<u8>,
    /// Whether a write failed.
    pub(crate) has_failed: bool,
}

impl Reported {
    /// Returns empty buffers, which have no memory yet.
    pub(crate) fn new(alloc: Global) -> Reported {
        Reported {
            alloc,
            scratch: Scratch::new(alloc),
            printed: Vec::new(alloc),
            lines: Vec::new(alloc),
            list: ListState::New,
            complaint: Vec::new(alloc),
            has_failed: false,
        }
    }

    /// Begins with the files of an image, and forgets those before.
    pub(crate) fn begin(&mut self, task: &Task) -> Result<(), AllocError>
        ensures printed { OnOk result (self.new.printed.items ≡ before_rows task.now.setup.form.format task.now.name task.now.dump.image) }
        ensures lines { OnOk result (self.new.lines.items ≡ []) }
        ensures list { OnOk result (self.new.list ≡ not_there) }
        ensures complaint { OnOk result (self.new.complaint.items ≡ []) }
        ensures unfailed { OnOk result (self.new.has_failed ≡ false) }
    {
        self.printed.clear();
        self.lines.clear();
        self.list = ListState::New;
        self.complaint.clear();
        self.has_failed = false;
        let setup = task.setup;
        print_before(
            setup.form.format,
            task.name.as_bytes(),
            task.all.image(),
            &mut self.printed,
        )
    }

    /// Adds the line of a file, with the path of its host file, or None if no file was written.
    pub(crate) fn report(
        &mut self,
        task: &Task,
        row: &ListedRow,
        path: Option<&[u8]>,
    ) -> Result<(), AllocError>
        ensures printed { OnOk result (self.new.printed.items ≡ self.old.printed.items ++ printed_file task.now.setup.form task.now.name task.now.dump.image row.now (option_map (λ p. p.now) path.entry)) }
        ensures lines { OnOk result (self.new.lines.items ≡ self.old.lines.items ++ printed_file (as_json task.now.setup.form) task.now.name task.now.dump.image row.now (option_map (λ p. p.now) path.entry)) }
        ensures list { self.new.list ≡ self.old.list }
        ensures complaint { self.new.complaint.items ≡ self.old.complaint.items }
        ensures failed { self.new.has_failed ≡ self.old.has_failed }
    {
        let name = task.name.as_bytes();
        let setup = task.setup;
        let form = setup.form;
        let printed = mem::replace(&mut self.printed, Vec::new(self.alloc));
        let survey = task.all.survey();
        self.printed = print_file(form, &mut self.scratch, name, survey, row, path, printed)?;
        let lines = mem::replace(&mut self.lines, Vec::new(self.alloc));
        let json = form.as_json();
        self.lines = print_file(json, &mut self.scratch, name, survey, row, path, lines)?;
        Ok(())
    }

    /// Adds that a write at a path failed, with the reason, if one is known.
    pub(crate) fn report_failure(
        &mut self,
        path: &[u8],
        reason: Option<Reason>,
    ) -> Result<(), AllocError>
        ensures complaint { OnOk result (self.new.complaint.items ≡ with_known_reason reason (self.old.complaint.items ++ unwritten_line path.now)) }
        ensures failed { self.new.has_failed ≡ true }
        ensures printed { self.new.printed.items ≡ self.old.printed.items }
        ensures lines { self.new.lines.items ≡ self.old.lines.items }
        ensures list { self.new.list ≡ self.old.list }
    {
        self.has_failed = true;
        add_unwritten(&mut self.complaint, path, reason)
    }
}
