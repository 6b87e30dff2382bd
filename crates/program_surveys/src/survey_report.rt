//! `SurveyReport`: the report of a survey, by a printer.
ghost use Rattle.std.specs.Prelude.{◌≡◌, IfOk};
ghost use Rattle.program_surveys.specs.FileOutcomes.{Rule, by_rule};
ghost use Rattle.program_surveys.specs.Printings.{survey_rule};

use crate::dump_buffer::DumpBuffer;
use crate::printer::Printer;
use crate::report::{ReportBuffer, Verdict};
use crate::task::FileTask;
use d64_survey::{DumpFault, Inspection};
use host_storage::Host;
use out_messages::{unread_line, wrong_length_line};
use std::alloc::{AllocError, Global};
use std::mem;

/// The report of a survey: each file is read as a dump, in buffers that are used for one file after
/// another, and a printer prints it.
#[derive(Drop)]
pub struct SurveyReport<P> {
    alloc: Global,
    printer: P,
    dump: DumpBuffer,
}

impl<P: Printer + Drop> SurveyReport<P> {
    /// Returns a report by a printer.
    pub fn new(alloc: Global, printer: P) -> Result<SurveyReport<P>, AllocError>
        ensures { IfOk result (λ report. report.printer ≡ printer) }
    {
        match DumpBuffer::new(alloc) {
            Ok(dump) => Ok(SurveyReport {
                alloc,
                printer,
                dump,
            }),
            Err(error) => Err(error),
        }
    }
}

impl<P: Printer + Drop> FileTask for SurveyReport<P> {
    ghost Options = { Rule };

    ghost options = { λ report. survey_rule (P.printing report.printer) };

    ghost effects = { by_rule };

    ghost heading = { λ report. (P.printing report.printer).heading };

    fn head(&mut self, buffer: &mut ReportBuffer) -> Result<(), AllocError> {
        buffer.clear();
        let out = mem::replace(&mut buffer.printed, Vec::new(self.alloc));
        buffer.printed = self.printer.print_heading(out)?;
        Ok(())
    }

    fn process_file<H: Host>(
        &mut self,
        name: &[u8],
        bytes: Option<&[u8]>,
        _host: &mut H,
        buffer: &mut ReportBuffer,
    ) -> Result<Verdict, AllocError> {
        buffer.clear();
        let out = mem::replace(&mut buffer.printed, Vec::new(self.alloc));
        let Some(bytes) = bytes else {
            buffer.printed = self.printer.print_unread(name, out)?;
            unread_line(&mut buffer.complaint, name)?;
            return Ok(Verdict::Failed);
        };
        match self.dump.refill(bytes) {
            Ok(()) => {}
            Err(DumpFault::WrongLength(_)) => {
                buffer.printed = self.printer.print_no_dump(name, bytes, out)?;
                wrong_length_line(&mut buffer.complaint, name, bytes)?;
                return Ok(Verdict::Failed);
            }
            Err(DumpFault::Memory(error)) => return Err(error),
        }
        // looked at where it is made: to move 60 KB takes longer than to inspect a disk
        match &Inspection::of(
            &self.dump.dump,
            &mut self.dump.faults,
            &mut self.dump.errors,
        ) {
            Ok(all) => {
                buffer.printed = self.printer.print_dump(name, bytes, all, out)?;
                if self.printer.is_amiss(all) {
                    Ok(Verdict::Amiss)
                } else {
                    Ok(Verdict::Clean)
                }
            }
            Err(error) => Err(*error),
        }
    }
}
