//! Why bytes are no session file.
ghost use Rattle.std.specs.Prelude.{◌≡◌};
ghost use Rattle.d64_history.specs.ResumeFault.{resume_fault_number};

use std::alloc::AllocError;
use thiserror::Error;

/// Why bytes are no session file: the first fault found in reading them.
#[derive(Clone, Copy, Debug, PartialEq, Eq, Error)]
pub enum ResumeFault {
    /// A byte of the beginning isn't that of a session file, or no disk has as many tracks.
    #[error("this is not a session file")]
    NotSession,
    /// The bytes end before a part of the file.
    #[error("the session file is cut short")]
    Truncated,
    /// There are bytes after the last record.
    #[error("there is more after the session file's end")]
    Trailing,
    /// More records are done than there are.
    #[error("the session file counts more records done than it has")]
    BadCursor,
    /// A record's blocks don't ascend, aren't those of the image, or have the bytes that the image
    /// has there already.
    #[error("a record of the session file does not fit its image")]
    BadRecord,
    /// There is no memory for the history.
    #[error("out of memory")]
    Memory(AllocError),
}

impl ResumeFault {
    /// The fault's number, from 1 to 6 in the order of the variants.
    pub fn number(self) -> u8
        ensures { result ≡ resume_fault_number self }
    {
        match self {
            ResumeFault::NotSession => 1,
            ResumeFault::Truncated => 2,
            ResumeFault::Trailing => 3,
            ResumeFault::BadCursor => 4,
            ResumeFault::BadRecord => 5,
            ResumeFault::Memory(_) => 6,
        }
    }
}

impl From<AllocError> for ResumeFault {
    ghost use Rattle.std.specs.Prelude.{◌≡◌};
    ghost use Rattle.d64_history.specs.declared.resume_fault.ResumeFault.TheVariants.{Memory};

    ghost from_gives = { λ error fault. fault ≡ Memory error };

    fn from(error: AllocError) -> ResumeFault {
        ResumeFault::Memory(error)
    }
}
