//! The owners of a block: the first eight, and how many there are.
ghost use Rattle.std.specs.Prelude.{◌≡◌, length, take};
ghost use Rattle.d64_survey.specs.Owners.{owners_of};

use crate::owner::Owner;
use crate::survey::Survey;
use arrayvec::ArrayVec;
use d64_image::BlockNo;
use std::marker::Model;

/// How many owners of a block are shown.
pub const SHOWN_OWNERS: usize = 8;

/// The owners of a block: the first eight of them, and how many there are.
#[derive(Drop)]
pub struct Owners {
    shown: ArrayVec<Owner, SHOWN_OWNERS>,
    count: usize,
}

impl Model for Owners {
    ghost use Rattle.d64_survey.specs.OwnerLists.{OwnersView};

    ghost Value = { OwnersView };

    ghost view = { λ owners. record { shown = owners.shown.items; count = owners.count } };
}

impl Owners {
    /// Owners of which these are shown, and this many are counted.
    pub(crate) fn of(shown: ArrayVec<Owner, SHOWN_OWNERS>, count: usize) -> Owners
        ensures { result ≡ record { shown = shown.items; count = count } }
    {
        Owners { shown, count }
    }

    /// The first eight, in order.
    pub fn shown(&self) -> &[Owner]
        ensures { result.now ≡ self.now.shown }
    {
        self.shown.as_slice()
    }

    /// How many there are.
    pub fn count(&self) -> usize
        ensures { result ≡ self.now.count }
    {
        self.count
    }
}

impl Survey<'_> {
    /// The owners of a block: how many there are, and the first eight in order: the map, the
    /// directory, and then the parts of files by their slots, data before side blocks.
    pub fn owners(&self, block: BlockNo) -> Owners
        ensures shown { result.shown ≡ take 8 (owners_of self.now block) }
        ensures count { result.count ≡ length (owners_of self.now block) }
    {
        self.table().owners(block)
    }
}
