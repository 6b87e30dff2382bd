//! The run of `merge`: one file, made of the dumps of several files.
ghost use Rattle.std.specs.Prelude.{◌≡◌, IfErr, IfOk, IfSome, OnOk, [], is_some, map, string_bytes};
ghost use Rattle.host_storage.specs.Folders.{Looks};
ghost use Rattle.program_surveys.specs.FileOutcomes.{file_outcome};
ghost use Rattle.program_surveys.specs.declared.report.Verdict.TheVariants.{Clean};
ghost use Rattle.cmd_merge.specs.Merges.{ConcludesMerge, CameSoFar, Merges, ReadsFiles};
ghost use Rattle.cmd_merge.specs.Reports.{file_present_outcome};

use crate::finishing::{finish, say_present};
use crate::readings::Readings;
use crate::setup::MergeSetup;
use host_storage::Host;
use program_console::{Outputs, StreamFault};
use program_surveys::{Batch, ReportBuffer, Verdict, WholeTask, read_contents};
use std::alloc::{AllocError, Global};
use std::io::Write;

/// A merge of the dumps of files.
#[derive(Drop)]
pub struct MergeJob<'n> {
    alloc: Global,
    setup: &'n MergeSetup,
}

impl<'n> MergeJob<'n> {
    /// Returns a merge with this setup.
    pub fn new(alloc: Global, setup: &'n MergeSetup) -> MergeJob<'n>
        ensures { result.setup.now ≡ setup.now }
    {
        MergeJob { alloc, setup }
    }

    /// Merges the files, unless the one that is to be made is there already, and replaces the
    /// buffer's contents by the result.
    ///
    /// It is a function of its own: otherwise each job would take memory for the dumps.
    #[inline(never)]
    fn merge<H: Host>(
        &self,
        buffer: &mut ReportBuffer,
        host: &mut H,
    ) -> Result<Verdict, StreamFault>
        ensures concluded { IfOk result (λ verdict. ConcludesMerge self.now.setup.now (H.state host.old)
            (file_outcome buffer.new.printed.items buffer.new.complaint.items verdict) (H.state host.new)) }
        ensures quiet { IfOk result (λ verdict. verdict ≡ Clean → buffer.new.complaint.items ≡ []) }
        ensures memory { IfErr result (λ fault. (fault ≡ StreamFault.Memory) × CameSoFar self.now.setup.now (H.state host.old) (H.state host.new)) }
    {
        if let Some(verdict) = self.refuse_present(buffer, host)? {
            return Ok(verdict);
        }
        let setup = self.setup;
        let mut readings = Readings::new(self.alloc);
        match self.read_all(&setup.names, &mut readings, host) {
            Ok(()) => Ok(finish(self.alloc, setup, &readings, host, buffer)?),
            Err(fault) => Err(fault),
        }
    }

    /// Replaces the buffer's contents by the line that the file to be made is there already, if it
    /// is, and returns the verdict; None if it isn't there.
    fn refuse_present<H: Host>(
        &self,
        buffer: &mut ReportBuffer,
        host: &H,
    ) -> Result<Option<Verdict>, AllocError>
        ensures looked { IfOk result (λ found. Looks (H.state host.now).files self.now.setup.now.out (is_some found)) }
        ensures refused { IfOk result (λ found. IfSome found (λ verdict. file_outcome buffer.new.printed.items buffer.new.complaint.items verdict ≡ file_present_outcome self.now.setup.now)) }
    {
        let setup = self.setup;
        if host.is_there(&setup.out) {
            Ok(Some(say_present(setup, buffer)?))
        } else {
            Ok(None)
        }
    }

    /// Reads the files with these names, in their order.
    fn read_all<H: Host>(
        &self,
        names: &[String],
        readings: &mut Readings,
        host: &mut H,
    ) -> Result<(), StreamFault>
        ensures read { OnOk result (ReadsFiles self.now.setup.now.form (map string_bytes names.now) (H.state host.old) readings.old (H.state host.new) readings.new) }
        ensures files { (H.state host.new).files ≡ (H.state host.old).files }
        ensures memory { IfErr result (λ fault. fault ≡ StreamFault.Memory) }
    {
        let setup = self.setup;
        for name in names {
            let contents = read_contents(self.alloc, name, host)?;
            readings.add(setup.form, name.as_bytes(), contents)?;
        }
        Ok(())
    }
}

/// A merge reads all files, makes the file of their merged dump, and prints what became of its
/// blocks. It is amiss if a block is lost, taken from the first good copy, or in conflict, and has
/// failed if the file is there already or cannot be made, or one of the others is no dump or cannot
/// be read.
impl<'n> WholeTask for MergeJob<'n> {
    ghost ends = { λ job. Merges job.setup.now };

    fn process<W: Write, F: Write, H: Host>(
        &self,
        batch: &mut Batch,
        outputs: &mut Outputs<'_, W, F>,
        host: &mut H,
    ) -> Result<(), StreamFault> {
        let verdict = self.merge(&mut batch.buffer, host)?;
        batch.report_result(verdict, outputs)?;
        Ok(())
    }
}
