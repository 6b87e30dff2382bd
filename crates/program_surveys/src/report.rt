//! `ReportBuffer` and `Verdict`: what is printed of a file, and how good it is.
ghost use Rattle.std.specs.Prelude.{◌≡◌, []};
ghost use Rattle.program_surveys.specs.FileOutcomes.{worse_verdict, status_of};

use program_console::{ALL_ACCEPTED, NOT_RUN, SOME_REFUSED};
use std::alloc::{AllocError, Global};

/// How good a file is, or the worst file of a run.
#[derive(Clone, Copy, PartialEq, Eq)]
pub enum Verdict {
    /// The file is good.
    Clean,
    /// Something is wrong with the file, by the command's own rule.
    Amiss,
    /// The file could not be processed.
    Failed,
}

impl Verdict {
    /// Returns the worse of two verdicts.
    pub fn worse(self, other: Verdict) -> Verdict
        ensures { result ≡ worse_verdict self other }
    {
        match (self, other) {
            (Verdict::Failed, _) | (_, Verdict::Failed) => Verdict::Failed,
            (Verdict::Amiss, _) | (_, Verdict::Amiss) => Verdict::Amiss,
            (Verdict::Clean, Verdict::Clean) => Verdict::Clean,
        }
    }

    /// Returns the exit status of the verdict: 0, 1 or 2.
    pub fn exit_status(self) -> u8
        ensures { result ≡ status_of self }
    {
        match self {
            Verdict::Clean => ALL_ACCEPTED,
            Verdict::Amiss => SOME_REFUSED,
            Verdict::Failed => NOT_RUN,
        }
    }
}

/// The result of one file, in buffers that are used for one file after another.
#[derive(Drop)]
pub struct ReportBuffer {
    /// What goes to the standard output.
    pub printed: Vec<u8>,
    /// What goes to the standard error.
    pub complaint: Vec<u8>,
}

impl ReportBuffer {
    /// Returns empty buffers, which have no memory yet.
    pub fn new(alloc: Global) -> ReportBuffer
        ensures printed { result.printed.items ≡ [] }
        ensures complaint { result.complaint.items ≡ [] }
    {
        ReportBuffer {
            printed: Vec::new(alloc),
            complaint: Vec::new(alloc),
        }
    }

    /// Empties the buffers, and keeps their memory.
    pub fn clear(&mut self)
        ensures printed { self.new.printed.items ≡ [] }
        ensures complaint { self.new.complaint.items ≡ [] }
    {
        self.printed.clear();
        self.complaint.clear();
    }
}
