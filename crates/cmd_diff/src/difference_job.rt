//! The run of `diff`: the comparison of two files.
ghost use Rattle.std.specs.Prelude.{◌≡◌, IfOk};
ghost use Rattle.cmd_diff.specs.Differences.{difference_rule};
ghost use Rattle.cmd_diff.specs.Comparisons.{Compares};
ghost use Rattle.program_surveys.specs.FileContents.{contents_by};

use crate::difference_report::DifferenceReport;
use host_storage::Host;
use program_arguments::DiffForm;
use program_console::{Outputs, Reason, StreamFault};
use program_surveys::{Batch, ReportBuffer, Verdict, WholeTask, read_contents};
use std::alloc::{AllocError, Global};
use std::io::Write;

/// A comparison of an old file with a new one, by their names.
#[derive(Drop)]
pub struct DifferenceJob<'n> {
    alloc: Global,
    form: DiffForm,
    old: &'n str,
    new: &'n str,
}

impl<'n> DifferenceJob<'n> {
    /// Returns a comparison of the files with these names, whose result is printed in a form.
    pub fn new(alloc: Global, form: DiffForm, old: &'n str, new: &'n str) -> DifferenceJob<'n>
        ensures form { result.form ≡ form }
        ensures old { result.old.now ≡ old.now }
        ensures new { result.new.now ≡ new.now }
    {
        DifferenceJob {
            alloc,
            form,
            old,
            new,
        }
    }

    /// Replaces the buffer's contents by the result for what was read of the two files.
    fn compare(
        &self,
        old: &Result<Vec<u8>, Option<Reason>>,
        new: &Result<Vec<u8>, Option<Reason>>,
        buffer: &mut ReportBuffer,
    ) -> Result<Verdict, AllocError>
        ensures { IfOk result (λ verdict. record { printed = buffer.new.printed.items; complaint = buffer.new.complaint.items; verdict = verdict }
            ≡ difference_rule self.now.form self.now.old.now (contents_by (λ bytes. bytes.items) old.now) self.now.new.now (contents_by (λ bytes. bytes.items) new.now)) }
    {
        let mut report = DifferenceReport::new(self.alloc, self.form)?;
        report.compare(
            self.old.as_bytes(),
            lent(old),
            self.new.as_bytes(),
            lent(new),
            buffer,
        )
    }
}

/// A comparison reads both files, and prints what changed. It is clean if they are the same, amiss
/// if they differ, and has failed if one of them is not a dump or cannot be read.
impl<'n> WholeTask for DifferenceJob<'n> {
    ghost ends = { λ job. Compares (difference_rule job.form) job.old.now job.new.now };

    fn process<W: Write, F: Write, H: Host>(
        &self,
        batch: &mut Batch,
        outputs: &mut Outputs<'_, W, F>,
        host: &mut H,
    ) -> Result<(), StreamFault> {
        let old = read_contents(self.alloc, self.old, host)?;
        let new = read_contents(self.alloc, self.new, host)?;
        let verdict = self.compare(&old, &new, &mut batch.buffer)?;
        batch.report_result(verdict, outputs)?;
        Ok(())
    }
}

/// Borrows what was read of a file.
fn lent(contents: &Result<Vec<u8>, Option<Reason>>) -> Result<&[u8], Option<Reason>>
    ensures { contents_by (λ bytes. bytes.now) result ≡ contents_by (λ bytes. bytes.items) contents.now }
{
    match contents {
        Ok(bytes) => Ok(bytes.as_slice()),
        Err(reason) => Err(*reason),
    }
}
