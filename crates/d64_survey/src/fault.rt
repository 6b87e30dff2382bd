//! The faults of an image, each with its place.
ghost use Rattle.std.specs.Prelude.{◌≡◌};
ghost use Rattle.d64_survey.specs.Faults.{number};

use crate::owner::Part;
use crate::way_end::WayEnd;
use d64_files::SlotNo;
use d64_image::BlockNo;

/// The last block of a way.
#[derive(Clone, Copy, Debug, PartialEq, Eq)]
pub enum LastBlock {
    /// The way has no block.
    Missing,
    /// The way ends after this one.
    Block(BlockNo),
}

/// A fault of an image: a place at which one of the six conditions of a sound image fails.
#[derive(Clone, Copy, Debug, PartialEq, Eq)]
pub enum Fault {
    /// The count byte of this track is this one, and the map marks that many of its sectors free.
    WrongCount(u8, u8, u8),
    /// The directory's way has this last block, or no block, and doesn't end as a chain.
    BrokenDirectory(LastBlock, WayEnd),
    /// This slot has this type byte, whose low four bits are the number of no kind.
    UnknownKind(SlotNo, u8),
    /// The way of this part of this slot's file has this last block, or no block, and doesn't end
    /// as a chain.
    BrokenFile(SlotNo, Part, LastBlock, WayEnd),
    /// This block has more than one owner.
    Shared(BlockNo),
    /// This block has an owner, and the map marks it free.
    MarkedFree(BlockNo),
}

impl Fault {
    /// The number of the condition that fails, from 1 to 6.
    pub fn number(self) -> u8
        ensures { result ≡ number self }
    {
        match self {
            Fault::WrongCount(..) => 1,
            Fault::BrokenDirectory(..) => 2,
            Fault::UnknownKind(..) => 3,
            Fault::BrokenFile(..) => 4,
            Fault::Shared(_) => 5,
            Fault::MarkedFree(_) => 6,
        }
    }
}
