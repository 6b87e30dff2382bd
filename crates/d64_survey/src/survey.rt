//! The survey of an image: its slots, who owns its blocks, and its faults.
ghost use Rattle.std.specs.Prelude.{◌≡◌, ◌*◌, ◌≤◌, length, option_map};
ghost use Rattle.d64_image.specs.declared.block.TheConstants.{BLOCKS};
ghost use Rattle.d64_files.specs.Directory.{entries, entry_of};
ghost use Rattle.d64_survey.specs.Owners.{directory_way, way_slots, slot_name, is_owned, is_shared};
ghost use Rattle.d64_survey.specs.OwnerTables.{RecordsOwners};
ghost use Rattle.d64_survey.specs.Inspection.{slot_cell};

use crate::owner_table::{Claimant, OwnerTable};
use crate::walking::walk;
use crate::way_end::WayEnd;
use d64_files::{BlockList, DIRECTORY_SECTOR, Entry, SLOTS_PER_BLOCK, SlotNo, Slots, entry_in};
use d64_image::{BlockNo, Image};
use d64_map::{DIRECTORY_TRACK, map_block};
use std::marker::Model;

/// The survey of an image: the directory's way, walked once, and the owners of all blocks. It
/// allocates nothing.
///
/// In clauses it is the image itself.
#[derive(Drop)]
pub struct Survey<'a> {
    image: &'a Image,
    directory: BlockList,
    end: WayEnd,
    owners: OwnerTable,
}

impl<'a> Model for Survey<'a> {
    ghost use Rattle.std.specs.Prelude.{◌≡◌, ℕ, List};
    ghost use Rattle.d64_files.specs.Chain.{LieIn};
    ghost use Rattle.d64_survey.specs.Owners.{directory_way};
    ghost use Rattle.d64_survey.specs.OwnerTables.{RecordsOwners};

    ghost Value = { List (List ℕ) };

    ghost view = { λ survey. survey.image.now };

    ghost invariant = { λ survey. (survey.directory ≡ (directory_way survey.image.now).0) × (survey.end ≡ (directory_way survey.image.now).1)
        × LieIn survey.image.now survey.directory × RecordsOwners survey.image.now survey.owners };
}

impl<'a> Survey<'a> {
    /// Surveys an image.
    pub fn of(image: &'a Image) -> Survey<'a>
        ensures { result ≡ image.now }
    {
        let mut directory = BlockList::empty();
        let end = walk(image, DIRECTORY_TRACK, DIRECTORY_SECTOR, &mut directory);
        let mut owners = OwnerTable::empty();
        owners.claim(map_block(), Claimant::Map);
        owners.claim_all(directory.as_slice(), Claimant::Directory);
        owners.claim_files(image, Slots::along(image, directory.copy()));
        Survey {
            image,
            directory,
            end,
            owners,
        }
    }

    /// The image.
    pub fn image(&self) -> &'a Image
        ensures { result.now ≡ self.now }
    {
        self.image
    }

    /// The blocks of the directory's way, in its order.
    pub fn directory(&self) -> &[BlockNo]
        ensures value { result.now ≡ (directory_way self.now).0 }
        ensures len { length result.now ≤ BLOCKS }
    {
        self.directory.as_slice()
    }

    /// How the directory's way ends.
    pub fn directory_end(&self) -> WayEnd
        ensures { result ≡ (directory_way self.now).1 }
    {
        self.end
    }

    /// The slots of the directory's way, also if it doesn't end as a chain, and of whatever kinds.
    pub fn slots(&self) -> Slots<'a>
        ensures slots { result ≡ entries self.now (way_slots self.now) }
        ensures len { length result ≤ 8 * BLOCKS }
    {
        Slots::along(self.image, self.directory.copy())
    }

    /// The entry of a slot of the directory's way, or None if it has no such slot.
    pub fn entry(&self, slot: SlotNo) -> Option<Entry<'a>>
        ensures { result ≡ option_map (λ cell. entry_of self.now (slot, cell)) (slot_cell self.now slot) }
    {
        match self
            .directory
            .as_slice()
            .get(slot.place() / SLOTS_PER_BLOCK)
        {
            Some(block) => Some(entry_in(self.image, *block, slot)),
            None => None,
        }
    }

    /// The name in a slot of the directory's way, of at most 16 bytes; empty if it has no such slot.
    pub fn slot_name(&self, slot: SlotNo) -> &'a [u8]
        ensures { result.now ≡ slot_name self.now slot }
    {
        match self.entry(slot) {
            Some(entry) => entry.name(),
            None => &[],
        }
    }

    /// Whether a block has an owner.
    pub fn is_owned(&self, block: BlockNo) -> bool
        ensures { result ≡ is_owned self.now block }
    {
        self.owners.count(block) > 0
    }

    /// Whether a block has more than one owner.
    pub fn is_shared(&self, block: BlockNo) -> bool
        ensures { result ≡ is_shared self.now block }
    {
        self.owners.count(block) > 1
    }

    /// The table of the owners of all blocks.
    pub(crate) fn table(&self) -> &OwnerTable
        ensures { RecordsOwners self.now result.now }
    {
        &self.owners
    }
}
