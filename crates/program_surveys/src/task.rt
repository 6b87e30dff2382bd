//! `FileTask`: what is done with each file of a run, if the host may change, and what is printed.
ghost use Rattle.std.specs.Prelude.{◌≡◌, IfOk, OnErr, OnOk, List, ℕ, option_map};
ghost use Rattle.program_surveys.specs.FileOutcomes.{Effects, file_outcome};

use crate::report::{ReportBuffer, Verdict};
use host_storage::Host;
use std::alloc::AllocError;

/// A task that is done for one file after another. It may change the host: make files, and look at
/// what is there.
pub trait FileTask {
    // The options that it was given, which never change.
    ghost Options: { Type 0 };

    ghost options: { Self → Options };

    // What may be done with a file, and with which result.
    ghost effects: { Options → Effects };

    // What is printed before the first result.
    ghost heading: { Self → List ℕ };

    /// Writes the heading, which is printed before the first result, into the buffer.
    fn head(&mut self, buffer: &mut ReportBuffer) -> Result<(), AllocError>
        ensures same { options self.new ≡ options self.old }
        ensures heading { OnOk result (buffer.new.printed.items ≡ heading self.old) };

    /// Does the task for the file shown by `name`, with these bytes (None if it cannot be read),
    /// and replaces the buffer's contents by what is printed of it. If memory runs out, the host
    /// may have changed.
    fn process_file<H: Host>(
        &mut self,
        name: &[u8],
        bytes: Option<&[u8]>,
        host: &mut H,
        buffer: &mut ReportBuffer,
    ) -> Result<Verdict, AllocError>
        ensures same { options self.new ≡ options self.old }
        ensures done { IfOk result (λ verdict. (effects (options self.old)).does name.now (option_map (λ bytes. bytes.now) bytes.entry) (H.state host.old)
            (file_outcome buffer.new.printed.items buffer.new.complaint.items verdict) (H.state host.new)) }
        ensures halted { OnErr result ((effects (options self.old)).halts name.now (option_map (λ bytes. bytes.now) bytes.entry) (H.state host.old) (H.state host.new)) };
}
