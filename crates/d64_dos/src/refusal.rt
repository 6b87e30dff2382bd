//! Why a command or a request is refused.
use d64_files::{DirFault, ReadFault};
use std::alloc::AllocError;
use thiserror::Error;

/// Why a command or a request is refused. The shell's status lines have the numbers of the 1541
/// User's Guide.
#[derive(Clone, Copy, Debug, PartialEq, Eq, Error)]
pub enum Refusal {
    /// The file was never closed, so that its end isn't known.
    #[error("the file was not closed after it was written")]
    NotClosed,
    /// No used slot has the name.
    #[error("there is no such file on the disk")]
    NotFound,
    /// A used slot has the name already.
    #[error("there is a file of this name on the disk already")]
    Exists,
    /// A DEL or REL file can't be written, and a DEL entry can't be read.
    #[error("files of this type can't be written or read")]
    WrongType,
    /// The disk fails this condition of a sound disk.
    #[error("{0}")]
    Directory(DirFault),
    /// Each scratched slot of the name has lost its file.
    #[error("what was deleted under this name is lost")]
    Lost,
    /// Too few blocks outside track 18 are free, or there is no slot for the entry and no block of
    /// track 18 for one more.
    #[error("there is no room on the disk or in its directory")]
    DiskFull,
    #[error("out of memory")]
    Memory,
}

impl From<AllocError> for Refusal {
    ghost use Rattle.std.specs.Prelude.{◌≡◌};
    ghost use Rattle.d64_dos.specs.declared.refusal.Refusal.TheVariants.{Memory};

    ghost from_gives = { λ _ refusal. refusal ≡ Memory };

    fn from(_fault: AllocError) -> Refusal {
        Refusal::Memory
    }
}

impl From<DirFault> for Refusal {
    ghost use Rattle.std.specs.Prelude.{◌≡◌};
    ghost use Rattle.d64_dos.specs.declared.refusal.Refusal.TheVariants.{Directory};

    ghost from_gives = { λ fault refusal. refusal ≡ Directory fault };

    fn from(fault: DirFault) -> Refusal {
        Refusal::Directory(fault)
    }
}

impl From<ReadFault> for Refusal {
    ghost use Rattle.std.specs.Prelude.{◌≡◌};
    ghost use Rattle.d64_dos.specs.Refusal.{of_read_fault};

    ghost from_gives = { λ fault refusal. refusal ≡ of_read_fault fault };

    fn from(fault: ReadFault) -> Refusal {
        match fault {
            ReadFault::Directory(fault) => Refusal::Directory(fault),
            ReadFault::NotFound => Refusal::NotFound,
            ReadFault::NotClosed => Refusal::NotClosed,
            ReadFault::WrongType => Refusal::WrongType,
            ReadFault::Memory(_) => Refusal::Memory,
        }
    }
}
