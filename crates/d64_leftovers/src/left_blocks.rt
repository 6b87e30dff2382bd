//! The blocks to which nothing on a disk leads: they have no owner, and no slot leads to them.
ghost use Rattle.std.specs.Prelude.{◌≡◌, ◌<◌, ◌≤◌, ◌==◌, ◌||◌, ℕ, [], ◌∷◌, nat_eq, length, filter};
ghost use Rattle.std.specs.List.{flat_map, list_any};
ghost use Rattle.std.specs.FinSet as set;
ghost use Rattle.d64_image.specs.declared.block.TheConstants.{BLOCKS};
ghost use Rattle.d64_image.specs.Block.{pair_at};
ghost use Rattle.d64_files.specs.Chain.{LieIn};
ghost use Rattle.d64_files.specs.Slot.{EntryView};
ghost use Rattle.d64_survey.specs.Owners.{way_slots};
ghost use Rattle.d64_leftovers.specs.Orphans.{blocks_led_to, blocks_linked, is_block_left, left_blocks};

use d64_files::{BlockList, Entry, Slots, block_in};
use d64_image::{BlockNo, BlockSet, Image};
use d64_map::DIRECTORY_TRACK;
use d64_scratched::is_scratched;
use d64_survey::{Survey, walk};

/// Adds blocks to a set.
fn add_all(members: &mut BlockSet, blocks: &[BlockNo])
    ensures { (block : ℕ) → set.contains members.new block ≡ (set.contains members.old block || list_any (nat_eq block) blocks.now) }
{
    for block in blocks {
        members.add(*block);
    }
}

/// The set of blocks.
pub(crate) fn set_of(blocks: &[BlockNo]) -> BlockSet
    ensures { (block : ℕ) → set.contains result block ≡ list_any (nat_eq block) blocks.now }
{
    let mut members = BlockSet::empty();
    add_all(&mut members, blocks);
    members
}

/// Adds the blocks to which a slot leads to a set.
fn add_slot(members: &mut BlockSet, image: &Image, entry: &Entry)
    ensures { (block : ℕ) → set.contains members.new block ≡ (set.contains members.old block || list_any (nat_eq block) (blocks_led_to image.now entry.now.bytes)) }
{
    if entry.used() || is_scratched(entry) {
        let mut way = BlockList::empty();
        let (track, sector) = entry.first_pair();
        walk(image, track, sector, &mut way);
        add_all(members, way.as_slice());
    }
}

/// Adds the blocks to which slots lead to a set.
fn add_slots(members: &mut BlockSet, image: &Image, slots: Slots)
    ensures { (block : ℕ) → set.contains members.new block ≡ (set.contains members.old block || list_any (nat_eq block) (flat_map (λ (entry : EntryView). blocks_led_to image.now entry.bytes) slots.entry)) }
{
    for entry in slots {
        add_slot(members, image, &entry);
    }
}

/// The blocks to which a slot of an image leads.
fn blocks_with_slots(survey: &Survey) -> BlockSet
    ensures { (block : ℕ) → set.contains result block ≡ list_any (nat_eq block) (flat_map (blocks_led_to survey.now) (way_slots survey.now)) }
{
    let mut members = BlockSet::empty();
    add_slots(&mut members, survey.image(), survey.slots());
    members
}

/// The blocks of an image that have no owner, and to which no slot leads, rising. It walks the way
/// of each slot once.
pub(crate) fn left_blocks(survey: &Survey) -> BlockList
    ensures left { result ≡ left_blocks survey.now }
    ensures held { LieIn survey.now result }
{
    let with_slots = blocks_with_slots(survey);
    let mut left = BlockList::empty();
    for block in survey.image().blocks() {
        if !survey.is_owned(block) && !with_slots.has(block) {
            left.push(block);
        }
    }
    left
}

/// Those of these blocks that are on the track of directories.
pub(crate) fn on_directory_track(image: &Image, blocks: &[BlockNo]) -> BlockList
    requires held { LieIn image.now blocks.now }
    requires few { length blocks.now ≤ BLOCKS }
    ensures blocks { result ≡ filter (λ block. (pair_at block).0 == 18) blocks.now }
    ensures held { LieIn image.now result }
{
    let mut found = BlockList::empty();
    for block in blocks {
        if block.track() == DIRECTORY_TRACK {
            found.push(*block);
        }
    }
    found
}

/// Adds the block to which a block of an image links, if it links to one, to a set.
fn add_link(members: &mut BlockSet, image: &Image, block: BlockNo)
    requires { block < length image.now }
    ensures { (other : ℕ) → set.contains members.new other ≡ (set.contains members.old other || list_any (nat_eq other) (blocks_linked image.now (block ∷ []))) }
{
    let bytes = image.sector(block);
    match block_in(image, bytes[0], bytes[1]) {
        Some(next) => members.add(next),
        None => {}
    }
}

/// The blocks to which these blocks of an image link.
pub(crate) fn blocks_linked(image: &Image, blocks: &[BlockNo]) -> BlockSet
    requires { LieIn image.now blocks.now }
    ensures { (block : ℕ) → set.contains result block ≡ list_any (nat_eq block) (blocks_linked image.now blocks.now) }
{
    let mut linked = BlockSet::empty();
    for block in blocks {
        add_link(&mut linked, image, *block);
    }
    linked
}
