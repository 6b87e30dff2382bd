//! The deleted files of a dump.
ghost use Rattle.std.specs.Prelude.{◌≡◌, ◌++◌, Some, count_by, option_map};
ghost use Rattle.std.specs.List.{find};
ghost use Rattle.d64_survey.specs.Owners.{is_owned};
ghost use Rattle.d64_leftovers.specs.Deleted.{unreadable_count, deleted_row};

use crate::deleted_row::DeletedRow;
use d64_files::{BlockList, Entry};
use d64_image::BlockNo;
use d64_inventory::{Inventory, field_of};
use d64_scratched::ScratchedSlots;
use d64_survey::{Inspection, Survey, code_of, is_read_error, walk};
use std::marker::Model;

/// A dump that was inspected, with its scratched slots, as the rows of deleted files need it. It
/// takes no memory of its own.
///
/// In clauses it is the dump itself.
#[derive(Drop)]
pub(crate) struct DeletedFiles<'a> {
    inspection: &'a Inspection<'a>,
    slots: ScratchedSlots<'a, 'a>,
}

impl<'a> Model for DeletedFiles<'a> {
    ghost use Rattle.std.specs.Prelude.{◌≡◌};
    ghost use Rattle.d64_survey.specs.Dump.{DumpView};

    ghost Value = { DumpView };

    ghost view = { λ files. files.inspection.now };

    ghost invariant = { λ files. files.slots ≡ files.inspection.now.image };
}

/// Returns how many of the blocks have a read error.
pub(crate) fn unreadable_count(codes: Option<&[u8]>, blocks: &[BlockNo]) -> usize
    ensures { result ≡ unreadable_count (option_map (λ codes. codes.now) codes.entry) blocks.now }
{
    blocks
        .iter()
        .filter(|block| is_read_error(code_of(codes, **block)))
        .count()
}

/// Returns the first of the blocks that has an owner, or None if no block has one.
fn first_owned(survey: &Survey, blocks: &[BlockNo]) -> Option<BlockNo>
    ensures { result ≡ find (is_owned survey.now) blocks.now }
{
    blocks.iter().copied().find(|block| survey.is_owned(*block))
}

impl<'a> DeletedFiles<'a> {
    /// Finds the scratched slots of a dump that was inspected. It walks the way of each of them
    /// once.
    pub(crate) fn of(inspection: &'a Inspection<'a>) -> DeletedFiles<'a>
        ensures { result ≡ inspection.now }
    {
        DeletedFiles {
            inspection,
            slots: ScratchedSlots::of(inspection.survey()),
        }
    }

    /// Returns the row of a scratched slot of the dump's image, with the digests that the inventory
    /// of the dump keeps. It walks the way of the slot at most three times.
    pub(crate) fn row(&self, inventory: &mut Inventory, entry: &Entry) -> DeletedRow
        requires { inventory.old ≡ self.now }
        ensures row { result ≡ deleted_row self.now (entry.now.slot, entry.now.bytes) }
        ensures same { inventory.new ≡ inventory.old }
    {
        let all = self.inspection;
        let mut way = BlockList::empty();
        let (track, sector) = entry.first_pair();
        walk(all.image(), track, sector, &mut way);
        let blocks = way.as_slice();
        DeletedRow {
            slot: entry.slot().place(),
            field: field_of(entry),
            size: entry.blocks(),
            first: (track, sector),
            blocks: blocks.len(),
            content: inventory.content_along(track, sector),
            losses: self.slots.losses(all.codes(), entry),
            reused: first_owned(all.survey(), blocks),
            read_errors: unreadable_count(all.codes(), blocks),
        }
    }
}
