//! The orphans of a dump: chains of blocks that no slot leads to.
ghost use Rattle.std.specs.Prelude.{◌≡◌, ◌<◌, ◌≤◌, ◌+◌, ◌*◌, ℕ, Some, None, length, nat_lt, option_map, if◌then◌else◌};
ghost use Rattle.std.specs.List.{find, list_all, slice_get};
ghost use Rattle.std.specs.Option.{option_and_then};
ghost use Rattle.d64_image.specs.declared.block.TheConstants.{BLOCKS};
ghost use Rattle.d64_image.specs.Block.{pair_at};
ghost use Rattle.d64_files.specs.Chain.{LieIn};
ghost use Rattle.d64_files.specs.FileData.{data_along};
ghost use Rattle.d64_files.specs.Slot.{EntryView};
ghost use Rattle.d64_survey.specs.Way.{way};
ghost use Rattle.d64_leftovers.specs.Orphans.{is_among_left, is_head, is_orphan_way, is_named_by, left_blocks, old_slot, old_slot_of, orphan_row};

use crate::deleted_files::unreadable_count;
use crate::left_blocks::{blocks_linked, left_blocks, on_directory_track, set_of};
use crate::orphan_row::{OldSlot, OrphanRow};
use d64_files::{BlockList, Entry, Slots, data_of};
use d64_image::{BlockNo, BlockSet, Image};
use d64_inventory::{Inventory, field_of};
use d64_map::DIRECTORY_TRACK;
use d64_survey::{Inspection, walk};
use std::marker::Model;

/// What must be known of a dump to make the rows of its orphans. It takes no memory of its own.
///
/// In clauses it is the dump itself.
#[derive(Drop)]
pub(crate) struct Orphans<'a> {
    inspection: &'a Inspection<'a>,
    /// The blocks that have no owner, and to which no slot leads.
    left: BlockList,
    among_left: BlockSet,
    /// The blocks to which those of `left` link.
    linked: BlockSet,
    /// Those of `left` on track 18, in which an earlier directory may have been.
    old_directory: BlockList,
}

impl<'a> Model for Orphans<'a> {
    ghost use Rattle.std.specs.Prelude.{◌≡◌, ◌==◌, ℕ, nat_eq, filter};
    ghost use Rattle.d64_image.specs.Block.{pair_at};
    ghost use Rattle.std.specs.List.{list_any};
    ghost use Rattle.std.specs.FinSet as set;
    ghost use Rattle.d64_files.specs.Chain.{LieIn};
    ghost use Rattle.d64_survey.specs.Dump.{DumpView};
    ghost use Rattle.d64_leftovers.specs.Orphans.{is_among_left, blocks_linked, left_blocks};

    ghost Value = { DumpView };

    ghost view = { λ orphans. orphans.inspection.now };

    ghost invariant = { λ orphans. (orphans.left ≡ left_blocks orphans.inspection.now.image)
        × LieIn orphans.inspection.now.image orphans.left
        × ((block : ℕ) → set.contains orphans.among_left block ≡ is_among_left orphans.inspection.now.image block)
        × ((block : ℕ) → set.contains orphans.linked block ≡ list_any (nat_eq block) (blocks_linked orphans.inspection.now.image (left_blocks orphans.inspection.now.image)))
        × (orphans.old_directory ≡ filter (λ block. (pair_at block).0 == 18) (left_blocks orphans.inspection.now.image))
        × LieIn orphans.inspection.now.image orphans.old_directory };
}

/// How many bytes the data of blocks of the image have, one after another.
fn data_length(image: &Image, blocks: &[BlockNo]) -> usize
    requires held { LieIn image.now blocks.now }
    requires few { length blocks.now ≤ BLOCKS }
    ensures { result ≡ length (data_along image.now blocks.now) }
{
    let mut bytes = 0;
    for block in blocks {
        bytes += data_of(image.sector(*block)).len();
    }
    bytes
}

/// Returns what an old slot says.
fn old_slot_of(entry: &Entry) -> OldSlot
    ensures { result ≡ old_slot_of entry.now.bytes }
{
    OldSlot {
        field: field_of(entry),
        kind: entry.kind(),
        type_byte: entry.type_byte(),
        closed: entry.closed(),
        locked: entry.locked(),
        size: entry.blocks(),
    }
}

/// Whether a slot of an old directory names a head, the first block of an orphan.
fn is_named_by(head: BlockNo, entry: &Entry) -> bool
    ensures { result ≡ is_named_by entry.now.image head entry.now.bytes }
{
    if !entry.used() {
        return false;
    }
    if !entry.has_kind() {
        return false;
    }
    match entry.start() {
        Some(first) => first == head,
        None => false,
    }
}

/// The first of these slots that names a head.
fn old_slot_among(slots: Slots, head: BlockNo) -> Option<OldSlot>
    ensures { result ≡ option_map (λ (entry : EntryView). old_slot_of entry.bytes) (find (λ (entry : EntryView). is_named_by entry.image head entry.bytes) slots.entry) }
{
    for entry in slots {
        if is_named_by(head, &entry) {
            return Some(old_slot_of(&entry));
        }
    }
    None
}

impl<'a> Orphans<'a> {
    /// What must be known of a dump that was inspected. It walks the way of each slot once.
    pub(crate) fn of(inspection: &'a Inspection<'a>) -> Orphans<'a>
        ensures { result ≡ inspection.now }
    {
        let left = left_blocks(inspection.survey());
        let among_left = set_of(left.as_slice());
        let linked = blocks_linked(inspection.image(), left.as_slice());
        let old_directory = on_directory_track(inspection.image(), left.as_slice());
        Orphans {
            inspection,
            left,
            among_left,
            linked,
            old_directory,
        }
    }

    /// How many blocks are left.
    pub(crate) fn left_count(&self) -> usize
        ensures { result ≡ length (left_blocks self.now.image) }
    {
        self.left.as_slice().len()
    }

    /// The block at a place among those that are left, if it is a head.
    pub(crate) fn head_at(&self, place: usize) -> Option<BlockNo>
        ensures { result ≡ option_and_then (λ block. if is_head self.now.image block then Some block else None) (slice_get (left_blocks self.now.image) place) }
    {
        match self.left.as_slice().get(place) {
            Some(block) => {
                if self.is_head(*block) {
                    Some(*block)
                } else {
                    None
                }
            }
            None => None,
        }
    }

    /// Whether a block that is left is the head of an orphan.
    fn is_head(&self, block: BlockNo) -> bool
        ensures { result ≡ is_head self.now.image block }
    {
        if self.linked.has(block) {
            return false;
        }
        if block.track() == DIRECTORY_TRACK {
            return false;
        }
        self.leads_along_left(block)
    }

    /// Whether the way from a block is a whole chain of blocks that are left, and has data.
    fn leads_along_left(&self, block: BlockNo) -> bool
        ensures { result ≡ is_orphan_way self.now.image (way self.now.image (pair_at block)) }
    {
        let image = self.inspection.image();
        let mut blocks = BlockList::empty();
        let end = walk(image, block.track(), block.sector(), &mut blocks);
        if !end.is_whole() {
            return false;
        }
        if !self.are_left(blocks.as_slice()) {
            return false;
        }
        data_length(image, blocks.as_slice()) > 0
    }

    /// Whether all of the blocks are left.
    fn are_left(&self, blocks: &[BlockNo]) -> bool
        ensures { result ≡ list_all (is_among_left self.now.image) blocks.now }
    {
        blocks.iter().all(|block| self.among_left.has(*block))
    }

    /// The first slot of an old directory that names a head.
    fn old_slot(&self, head: BlockNo) -> Option<OldSlot>
        ensures { result ≡ option_map old_slot_of (old_slot self.now.image head) }
    {
        let slots = Slots::along(self.inspection.image(), self.old_directory.copy());
        old_slot_among(slots, head)
    }

    /// Returns the row of the orphan of a head, with the digests that the inventory of the dump
    /// keeps.
    pub(crate) fn row(&self, inventory: &mut Inventory, head: BlockNo) -> OrphanRow
        requires { inventory.old ≡ self.now }
        ensures row { result ≡ orphan_row self.now head }
        ensures same { inventory.new ≡ inventory.old }
    {
        let all = self.inspection;
        let mut way = BlockList::empty();
        walk(all.image(), head.track(), head.sector(), &mut way);
        let blocks = way.as_slice();
        OrphanRow {
            first: head,
            old: self.old_slot(head),
            blocks: blocks.len(),
            content: inventory.content_along(head.track(), head.sector()),
            read_errors: unreadable_count(all.codes(), blocks),
        }
    }
}
