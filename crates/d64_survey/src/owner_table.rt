//! The owners of all blocks, in a table.
ghost use Rattle.std.specs.Prelude.{◌≡◌, ◌+◌, ◌*◌, ◌<◌, ◌≤◌, List, ℕ, [], ◌∷◌, ◌++◌, All, length, nat_lt};
ghost use Rattle.std.specs.List.{flat_map};
ghost use Rattle.d64_image.specs.declared.block.TheConstants.{BLOCKS};
ghost use Rattle.d64_files.specs.Slot.{EntryView};
ghost use Rattle.d64_survey.specs.Owners.{blocks_from, owned_as, slot_owners};
ghost use Rattle.d64_survey.specs.OwnerLists.{AreListed};
ghost use Rattle.d64_survey.specs.OwnerTables.{owner_kept, row_owners, owner_row_of, Adds, AddsFew, CountsUpTo};
ghost use Rattle.d64_survey.specs.declared.owner.Owner.{Owner};

use crate::owner::{Owner, Part, data_pair, side_pair};
use crate::owner_list::{Owners, SHOWN_OWNERS};
use crate::walking::walk;
use arrayvec::ArrayVec;
use d64_files::{BlockList, Entry, SlotNo, Slots};
use d64_image::{BLOCKS, BlockNo, Image};

/// An owner, in fewer bytes than an `Owner` has. The default is the map.
#[derive(Clone, Copy, Default)]
pub(crate) enum Claimant {
    #[default]
    Map,
    Directory,
    /// The data of the file of a slot.
    Data(u16),
    /// The side blocks of the file of a slot.
    Side(u16),
}

/// The owners of one block: the first eight of them, and how many there are.
#[derive(Clone, Copy)]
struct Row {
    first: [Claimant; SHOWN_OWNERS],
    count: u32,
}

/// The owners of each block that a disk may have.
#[derive(Drop)]
pub(crate) struct OwnerTable {
    rows: [Row; BLOCKS],
}

impl Claimant {
    /// The owner.
    fn owner(self) -> Owner
        ensures { result ≡ owner_kept self }
    {
        match self {
            Claimant::Map => Owner::Map,
            Claimant::Directory => Owner::Directory,
            Claimant::Data(slot) => Owner::File(SlotNo::at(usize::from(slot)), Part::Data),
            Claimant::Side(slot) => Owner::File(SlotNo::at(usize::from(slot)), Part::Side),
        }
    }
}

impl Row {
    /// Adds an owner after the others.
    fn add(&mut self, claimant: Claimant)
        requires { self.old.count < 1000000000 }
        ensures listed { (all : List Owner) → AreListed all (row_owners self.old) → AreListed (all ++ owner_kept claimant ∷ []) (row_owners self.new) }
        ensures count { self.new.count ≡ self.old.count + 1 }
    {
        let place = self.count as usize;
        if place < SHOWN_OWNERS {
            self.first[place] = claimant;
        }
        self.count += 1;
    }

    /// The first eight, in order, and how many there are.
    fn owners(&self) -> Owners
        ensures { result ≡ row_owners self.now }
    {
        let mut shown = ArrayVec::new();
        let count = self.count as usize;
        for claimant in &self.first[..count.min(SHOWN_OWNERS)] {
            shown.push(claimant.owner());
        }
        Owners::of(shown, count)
    }
}

impl OwnerTable {
    /// The table in which no block has an owner.
    pub(crate) fn empty() -> OwnerTable
        ensures listed { (block : ℕ) → block < BLOCKS → AreListed [] (row_owners (owner_row_of result block)) }
        ensures few { CountsUpTo 0 result }
    {
        OwnerTable {
            rows: [Row {
                first: [Claimant::Map; SHOWN_OWNERS],
                count: 0,
            }; BLOCKS],
        }
    }

    /// How many owners a block has.
    pub(crate) fn count(&self, block: BlockNo) -> u32
        ensures { result ≡ (owner_row_of self.now block).count }
    {
        self.rows[block.index()].count
    }

    /// The owners of a block.
    pub(crate) fn owners(&self, block: BlockNo) -> Owners
        ensures { result ≡ row_owners (owner_row_of self.now block) }
    {
        self.rows[block.index()].owners()
    }

    /// Adds an owner of a block.
    pub(crate) fn claim(&mut self, block: BlockNo, claimant: Claimant)
        requires { CountsUpTo 100000000 self.old }
        ensures listed { Adds self.old ((block, owner_kept claimant) ∷ []) self.new }
        ensures few { AddsFew self.old 1 self.new }
    {
        self.rows[block.index()].add(claimant);
    }

    /// Adds an owner of each of the blocks.
    pub(crate) fn claim_all(&mut self, blocks: &[BlockNo], claimant: Claimant)
        requires room { CountsUpTo 50000000 self.old }
        requires len { length blocks.now ≤ BLOCKS }
        ensures listed { Adds self.old (owned_as (owner_kept claimant) blocks.now) self.new }
        ensures few { AddsFew self.old 768 self.new }
    {
        for block in blocks {
            self.claim(*block, claimant);
        }
    }

    /// Adds an owner of the blocks of the way from a pair, if there is one.
    fn claim_way(&mut self, image: &Image, pair: Option<(u8, u8)>, claimant: Claimant)
        requires { CountsUpTo 50000000 self.old }
        ensures listed { Adds self.old (owned_as (owner_kept claimant) (blocks_from image.now pair)) self.new }
        ensures few { AddsFew self.old 768 self.new }
    {
        match pair {
            Some((track, sector)) => {
                let mut blocks = BlockList::empty();
                walk(image, track, sector, &mut blocks);
                self.claim_all(blocks.as_slice(), claimant);
            }
            None => {}
        }
    }

    /// Adds the parts of a slot's file, each as an owner of its blocks.
    fn claim_file(&mut self, image: &Image, entry: &Entry)
        requires room { CountsUpTo 40000000 self.old }
        requires slot { entry.now.slot < 8 * BLOCKS }
        ensures listed { Adds self.old (slot_owners image.now (entry.now.slot, entry.now.bytes)) self.new }
        ensures few { AddsFew self.old 1536 self.new }
    {
        let slot = entry.slot().place() as u16;
        self.claim_way(image, data_pair(entry), Claimant::Data(slot));
        self.claim_way(image, side_pair(entry), Claimant::Side(slot));
    }

    /// Adds the parts of the files of slots, each as an owner of its blocks.
    pub(crate) fn claim_files(&mut self, image: &Image, slots: Slots)
        requires room { CountsUpTo 1000 self.old }
        requires len { length slots ≤ 8 * BLOCKS }
        requires numbers { All (λ (entry : EntryView). entry.slot < 8 * BLOCKS) slots }
        ensures { Adds self.old (flat_map (λ (entry : EntryView). slot_owners image.now (entry.slot, entry.bytes)) slots.entry) self.new }
    {
        for entry in slots {
            self.claim_file(image, &entry);
        }
    }
}
