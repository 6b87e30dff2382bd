//! Plain texts for faults.
ghost use Rattle.std.specs.Prelude.{◌≡◌};
ghost use Rattle.script_advice.specs.Faults.{basic_fault, directory_fault};

use cbm_text::{BasicFault, Cause};
use d64_files::DirFault;

/// What is wrong with a disk that is not sound.
pub(crate) fn directory_fault(fault: DirFault) -> &'static [u8]
    ensures { result.now ≡ directory_fault fault }
{
    match fault {
        DirFault::WrongCounts => b"a track's count of free sectors is wrong",
        DirFault::NoDirectory => b"the directory's chain leaves the disk or loops",
        DirFault::UnknownKind => b"an entry has an unknown file type",
        DirFault::NoChain => b"a file's chain leaves the disk or loops",
        DirFault::CrossLinked => b"a block has two owners",
        DirFault::MarkedFree => b"a block in use is marked free",
    }
}

/// What is wrong with a text that is not a BASIC program.
pub(crate) fn basic_fault(fault: BasicFault) -> &'static [u8]
    ensures { result.now ≡ basic_fault fault }
{
    match fault {
        BasicFault::NoNumber { .. } => Cause::NoNumber.words(),
        BasicFault::NumberTooLarge { .. } => Cause::NumberTooLarge.words(),
        BasicFault::Text { .. } => b"the text after the line number is not valid",
        BasicFault::TokenByte { .. } => Cause::TokenByte.words(),
        BasicFault::ZeroByte { .. } => Cause::ZeroByte.words(),
        BasicFault::TooLong { .. } => Cause::TooLong.words(),
        BasicFault::Memory(_) => b"out of memory",
    }
}
