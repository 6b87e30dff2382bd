//! The blocks of a slot's file.
ghost use Rattle.std.specs.Prelude.{◌≡◌, ℕ, ◌||◌, nat_eq};
ghost use Rattle.std.specs.List.{list_any};
ghost use Rattle.std.specs.FinSet as set;
ghost use Rattle.d64_map.specs.Map.{free_blocks};
ghost use Rattle.d64_survey.specs.Owners.{blocks_from, is_shared};
ghost use Rattle.d64_survey.specs.SlotBlocks.{slot_blocks};
ghost use Rattle.d64_survey.specs.Flaws.{any_shared, is_broken_from, is_broken};
ghost use Rattle.d64_inventory.specs.Rows.{is_of_file};

use d64_files::{BlockList, Entry};
use d64_image::{BlockNo, BlockSet};
use d64_survey::{Survey, data_pair, side_pair, walk};

/// The blocks of a slot's file, and what its ways show.
#[derive(Drop)]
pub(crate) struct FileBlocks {
    pub(crate) members: BlockSet,
    /// Whether a way of it isn't a whole chain.
    pub(crate) is_broken: bool,
    /// Whether one of its blocks has more than one owner.
    pub(crate) is_shared: bool,
    /// Whether one of its blocks is marked free.
    pub(crate) is_marked_free: bool,
}

impl FileBlocks {
    /// The blocks of a slot's file, data and side blocks. `free` is the set of the blocks that the
    /// map marks free.
    pub(crate) fn of(survey: &Survey, free: &BlockSet, entry: &Entry) -> FileBlocks
        requires { free.now ≡ free_blocks survey.now }
        ensures members { (block : ℕ) → set.contains result.members block ≡ is_of_file survey.now entry.now.bytes block }
        ensures broken { result.is_broken ≡ is_broken survey.now entry.now.bytes }
        ensures shared { result.is_shared ≡ any_shared survey.now (slot_blocks survey.now entry.now.bytes) }
        ensures free { result.is_marked_free ≡ list_any (set.contains (free_blocks survey.now)) (slot_blocks survey.now entry.now.bytes) }
    {
        let mut all = FileBlocks {
            members: BlockSet::empty(),
            is_broken: false,
            is_shared: false,
            is_marked_free: false,
        };
        all.add_way(survey, free, data_pair(entry));
        all.add_way(survey, free, side_pair(entry));
        all
    }

    /// Adds the blocks of the way from a pair, if there is one.
    fn add_way(&mut self, survey: &Survey, free: &BlockSet, pair: Option<(u8, u8)>)
        ensures blocks { (block : ℕ) → set.contains self.new.members block ≡ (set.contains self.old.members block || list_any (nat_eq block) (blocks_from survey.now pair)) }
        ensures broken { self.new.is_broken ≡ (self.old.is_broken || is_broken_from survey.now pair) }
        ensures shared { self.new.is_shared ≡ (self.old.is_shared || any_shared survey.now (blocks_from survey.now pair)) }
        ensures free { self.new.is_marked_free ≡ (self.old.is_marked_free || list_any (set.contains free.now) (blocks_from survey.now pair)) }
    {
        match pair {
            Some((track, sector)) => {
                let mut blocks = BlockList::empty();
                let end = walk(survey.image(), track, sector, &mut blocks);
                self.is_broken = self.is_broken || !end.is_whole();
                self.add_all(survey, free, blocks.as_slice());
            }
            None => {}
        }
    }

    /// Adds blocks.
    fn add_all(&mut self, survey: &Survey, free: &BlockSet, blocks: &[BlockNo])
        ensures blocks { (block : ℕ) → set.contains self.new.members block ≡ (set.contains self.old.members block || list_any (nat_eq block) blocks.now) }
        ensures broken { self.new.is_broken ≡ self.old.is_broken }
        ensures shared { self.new.is_shared ≡ (self.old.is_shared || any_shared survey.now blocks.now) }
        ensures free { self.new.is_marked_free ≡ (self.old.is_marked_free || list_any (set.contains free.now) blocks.now) }
    {
        for block in blocks {
            self.add(survey, free, *block);
        }
    }

    /// Adds a block.
    fn add(&mut self, survey: &Survey, free: &BlockSet, block: BlockNo)
        ensures members { self.new.members ≡ set.insert self.old.members block }
        ensures broken { self.new.is_broken ≡ self.old.is_broken }
        ensures shared { self.new.is_shared ≡ (self.old.is_shared || is_shared survey.now block) }
        ensures free { self.new.is_marked_free ≡ (self.old.is_marked_free || set.contains free.now block) }
    {
        self.members.add(block);
        self.is_shared |= survey.is_shared(block);
        self.is_marked_free |= free.has(block);
    }
}
