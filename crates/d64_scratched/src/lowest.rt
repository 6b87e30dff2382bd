//! The lowest number of the scratched slots whose ways have a block.
ghost use Rattle.std.specs.Prelude.{length, ◌≡◌, ◌<◌, ◌≤◌, ◌*◌, ℕ, nat_lt, ◌&&◌, ◌||◌, nat_eq, false};
ghost use Rattle.std.specs.List.{list_any};
ghost use Rattle.d64_image.specs.declared.block.TheConstants.{BLOCKS};
ghost use Rattle.d64_scratched.specs.Claims.{lowest_of, Lowers, RecordsClaims};
ghost use Rattle.d64_scratched.specs.Scratched.{is_scratched, scratched_way};
ghost use Rattle.d64_survey.specs.Owners.{way_slots};

use crate::scratched::is_scratched;
use d64_files::{BlockList, Entry};
use d64_image::{BLOCKS, BlockNo, Image};
use d64_survey::{Survey, walk};

/// For each block that a disk may have the lowest number of the scratched slots whose ways have it,
/// or a number above that of any slot.
#[derive(Drop)]
pub(crate) struct LowestSlots {
    lowest: [u16; BLOCKS],
}

impl LowestSlots {
    /// The table in which no way has a block.
    fn empty() -> LowestSlots
        ensures { (block slot : ℕ) → block < BLOCKS → slot < 65536 → nat_lt (lowest_of result block) slot ≡ false }
    {
        LowestSlots {
            lowest: [u16::MAX; BLOCKS],
        }
    }

    /// The lowest slots for all blocks of an image. It walks the way of each scratched slot once.
    pub(crate) fn of(survey: &Survey) -> LowestSlots
        ensures listed { RecordsClaims survey.now result }
        ensures few { length (way_slots survey.now) ≤ 8 * BLOCKS }
    {
        let mut lowest = LowestSlots::empty();
        for entry in survey.slots() {
            if is_scratched(&entry) {
                lowest.note(survey.image(), &entry);
            }
        }
        lowest
    }

    /// Whether a slot with a lower number than this has the block.
    pub(crate) fn is_below(&self, block: BlockNo, slot: usize) -> bool
        ensures { result ≡ nat_lt (lowest_of self.now block) slot }
    {
        usize::from(self.lowest[block.index()]) < slot
    }

    /// Notes a slot for each block of its way.
    fn note(&mut self, image: &Image, entry: &Entry)
        requires { entry.now.slot < 8 * BLOCKS }
        ensures { Lowers self.old (scratched_way image.now entry.now.bytes).0 entry.now.slot self.new }
    {
        let mut way = BlockList::empty();
        let (track, sector) = entry.first_pair();
        walk(image, track, sector, &mut way);
        self.lower_all(way.as_slice(), entry.slot().place() as u16);
    }

    /// Notes a slot for each of the blocks.
    fn lower_all(&mut self, blocks: &[BlockNo], slot: u16)
        ensures { Lowers self.old blocks.now slot self.new }
    {
        for block in blocks {
            self.lower(*block, slot);
        }
    }

    /// Notes a slot for a block.
    fn lower(&mut self, block: BlockNo, slot: u16)
        ensures { (other number : ℕ) → other < BLOCKS → nat_lt (lowest_of self.new other) number ≡ (nat_lt (lowest_of self.old other) number || (nat_eq other block && nat_lt slot number)) }
    {
        let place = block.index();
        if slot < self.lowest[place] {
            self.lowest[place] = slot;
        }
    }
}
