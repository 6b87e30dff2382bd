//! `StreamFault`: what stops a job that reads and writes streams.
use host_storage::WriteFault;
use std::alloc::AllocError;
use thiserror::Error;

/// Why a job did not come to its end.
#[derive(Clone, Copy, Debug, PartialEq, Eq, Error)]
pub enum StreamFault {
    /// What was to be read cannot be read to its end. What could be done before is done.
    #[error("read fault")]
    Read,
    /// The output takes no more bytes.
    #[error("write fault")]
    Write,
    #[error("out of memory")]
    Memory,
}

impl From<AllocError> for StreamFault {
    ghost use Rattle.std.specs.Prelude.{◌≡◌};
    ghost use Rattle.program_console.specs.declared.stream_fault.StreamFault.TheVariants.{Memory};

    ghost from_gives = { λ _ fault. fault ≡ Memory };

    fn from(_error: AllocError) -> StreamFault {
        StreamFault::Memory
    }
}

impl From<WriteFault> for StreamFault {
    ghost use Rattle.std.specs.Prelude.{◌≡◌};
    ghost use Rattle.program_console.specs.declared.stream_fault.StreamFault.TheVariants.{Write};

    ghost from_gives = { λ _ fault. fault ≡ Write };

    fn from(_fault: WriteFault) -> StreamFault {
        StreamFault::Write
    }
}
