//! The conditions of a sound image that can fail.
ghost use Rattle.std.specs.Prelude.{◌≡◌};
ghost use Rattle.d64_files.specs.Directory.{condition_number};

use thiserror::Error;

/// A condition of a sound image that fails, in the order in which they are tested.
#[derive(Clone, Copy, Debug, PartialEq, Eq, Error)]
pub enum DirFault {
    /// A track's count of free blocks isn't the number of its blocks that the map marks free.
    #[error("the block map's counts of free blocks don't fit its marks: validate the disk")]
    WrongCounts,
    /// There is no chain of blocks from track 18, sector 1.
    #[error("the directory's chain from track 18, sector 1 is broken or loops: repair the links of its blocks")]
    NoDirectory,
    /// The low four bits of a slot's type byte are above 4.
    #[error("a directory entry has an unknown file type: set its type byte to one of $80 to $84, or to $00 to free it")]
    UnknownKind,
    /// A closed file has no chain of blocks from its first block, or from its first side block.
    #[error("the chain of a closed file is broken or loops: repair the links of its blocks, or mark the file as not closed")]
    NoChain,
    /// A block belongs to two files, or to a file and the directory or the map.
    #[error("a block belongs to two files or to a file and the directory: read what can be saved of both, and write it to a new disk")]
    CrossLinked,
    /// The map marks a block free that the directory or a file owns.
    #[error("the block map marks a block free that is in use: validate the disk")]
    MarkedFree,
}

impl DirFault {
    /// The number of the condition, from 1 to 6.
    pub fn number(self) -> u8
        ensures { result ≡ condition_number self }
    {
        match self {
            DirFault::WrongCounts => 1,
            DirFault::NoDirectory => 2,
            DirFault::UnknownKind => 3,
            DirFault::NoChain => 4,
            DirFault::CrossLinked => 5,
            DirFault::MarkedFree => 6,
        }
    }
}
