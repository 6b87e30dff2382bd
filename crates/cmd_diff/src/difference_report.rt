//! The report of `diff`: what is printed of two files, and the verdict.
ghost use Rattle.std.specs.Prelude.{◌≡◌, ◌++◌, [], Ok, IfOk, OnOk};
ghost use Rattle.program_surveys.specs.FileOutcomes.{FileOutcome};
ghost use Rattle.cmd_diff.specs.Differences.{printed_difference, failed_pair, difference_rule, difference_by};
ghost use Rattle.program_surveys.specs.FileContents.{contents_by};

use crate::drafts::Drafts;
use crate::dump_buffer::{are_same, refill};
use crate::fault_lines::push_fault_lines;
use crate::printing::{print_changes, push_difference};
use d64_survey::Inspection;
use out_json_csv::Scratch;
use program_arguments::DiffForm;
use program_console::Reason;
use program_surveys::{DumpBuffer, ReportBuffer, Verdict, print_fault};
use std::alloc::{AllocError, Global};
use std::mem;

/// The report of `diff`, with its buffers.
#[derive(Drop)]
pub struct DifferenceReport {
    alloc: Global,
    form: DiffForm,
    earlier: DumpBuffer,
    later: DumpBuffer,
    drafts: Drafts,
    scratch: Scratch,
}

impl DifferenceReport {
    /// Returns a report in a form.
    pub fn new(alloc: Global, form: DiffForm) -> Result<DifferenceReport, AllocError>
        ensures { IfOk result (λ report. report.form ≡ form) }
    {
        Ok(DifferenceReport {
            alloc,
            form,
            earlier: DumpBuffer::new(alloc)?,
            later: DumpBuffer::new(alloc)?,
            drafts: Drafts::new(alloc),
            scratch: Scratch::new(alloc),
        })
    }

    /// Prints what changed from the old dump to the new one.
    fn print(
        &mut self,
        old_name: &[u8],
        new_name: &[u8],
        out: &mut Vec<u8>,
    ) -> Result<(), AllocError>
        ensures form { self.new.form ≡ self.old.form }
        ensures printed { OnOk result (out.new.items ≡ out.old.items ++ printed_difference self.old.form old_name.now new_name.now self.old.earlier.dump self.old.later.dump) }
    {
        let old = Inspection::of(
            &self.earlier.dump,
            &mut self.earlier.faults,
            &mut self.earlier.errors,
        )?;
        let new = Inspection::of(
            &self.later.dump,
            &mut self.later.faults,
            &mut self.later.errors,
        )?;
        match self.form {
            DiffForm::Text => push_difference(
                &mut self.drafts,
                old_name,
                new_name,
                &old,
                &new,
                out,
            ),
            DiffForm::Json => {
                let text = mem::replace(out, Vec::new(self.alloc));
                *out = print_changes(DiffForm::Json, &mut self.drafts, &old, &new, text)?;
                Ok(())
            }
        }
    }

    /// Reports why two files, with these bytes or the reason why one cannot be read, are not
    /// compared.
    fn report_failed(
        &mut self,
        old_name: &[u8],
        old: Result<&[u8], Option<Reason>>,
        new_name: &[u8],
        new: Result<&[u8], Option<Reason>>,
        buffer: &mut ReportBuffer,
    ) -> Result<Verdict, AllocError>
        ensures form { self.new.form ≡ self.old.form }
        ensures compared { buffer.old.printed.items ≡ [] → buffer.old.complaint.items ≡ [] → IfOk result (λ verdict.
            record { printed = buffer.new.printed.items; complaint = buffer.new.complaint.items; verdict = verdict }
            ≡ failed_pair self.old.form old_name.now (contents_by (λ bytes. bytes.now) old.entry) new_name.now (contents_by (λ bytes. bytes.now) new.entry)) }
    {
        let out = mem::replace(&mut buffer.printed, Vec::new(self.alloc));
        let first = print_fault(self.form, &mut self.scratch, old_name, old, out)?;
        buffer.printed = print_fault(self.form, &mut self.scratch, new_name, new, first)?;
        push_fault_lines(
            self.alloc,
            &mut buffer.complaint,
            old_name,
            old,
            new_name,
            new,
        )?;
        Ok(Verdict::Failed)
    }

    /// Compares two files with these bytes.
    fn report_bytes(
        &mut self,
        old_name: &[u8],
        old: &[u8],
        new_name: &[u8],
        new: &[u8],
        buffer: &mut ReportBuffer,
    ) -> Result<Verdict, AllocError>
        ensures form { self.new.form ≡ self.old.form }
        ensures compared { buffer.old.printed.items ≡ [] → buffer.old.complaint.items ≡ [] → IfOk result (λ verdict.
            record { printed = buffer.new.printed.items; complaint = buffer.new.complaint.items; verdict = verdict }
            ≡ difference_rule self.old.form old_name.now (Ok old.now) new_name.now (Ok new.now)) }
    {
        let is_old = refill(&mut self.earlier, old)?;
        let is_new = refill(&mut self.later, new)?;
        if !is_old || !is_new {
            return self.report_failed(old_name, Ok(old), new_name, Ok(new), buffer);
        }
        if are_same(&self.earlier.dump, &self.later.dump) {
            return Ok(Verdict::Clean);
        }
        self.print(old_name, new_name, &mut buffer.printed)?;
        Ok(Verdict::Amiss)
    }

    /// Replaces the buffer's contents by the result for an old file and a new one with these names
    /// and these bytes, or with the reason (None if unknown) why one cannot be read. The result is
    /// the same whatever was compared before.
    pub fn compare(
        &mut self,
        old_name: &[u8],
        old: Result<&[u8], Option<Reason>>,
        new_name: &[u8],
        new: Result<&[u8], Option<Reason>>,
        buffer: &mut ReportBuffer,
    ) -> Result<Verdict, AllocError>
        ensures form { self.new.form ≡ self.old.form }
        ensures compared { IfOk result (λ verdict. record { printed = buffer.new.printed.items; complaint = buffer.new.complaint.items; verdict = verdict }
            ≡ difference_rule self.old.form old_name.now (contents_by (λ bytes. bytes.now) old.entry) new_name.now (contents_by (λ bytes. bytes.now) new.entry)) }
    {
        buffer.clear();
        match (old, new) {
            (Ok(old), Ok(new)) => self.report_bytes(old_name, old, new_name, new, buffer),
            (old, new) => self.report_failed(old_name, old, new_name, new, buffer),
        }
    }
}
