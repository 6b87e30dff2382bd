//! `Source`: a dump, from which the wanted rows are made.
ghost use Rattle.std.specs.Prelude.{◌≡◌, true, Some, None, length, if◌then◌else◌, ◌&&◌};
ghost use Rattle.d64_files.specs.Slot.{is_used};
ghost use Rattle.d64_survey.specs.Owners.{way_slots};
ghost use Rattle.d64_survey.specs.Inspection.{slot_cell};
ghost use Rattle.d64_scratched.specs.Scratched.{is_scratched};
ghost use Rattle.d64_inventory.specs.Rows.{file_row_of};
ghost use Rattle.d64_leftovers.specs.Deleted.{deleted_row};
ghost use Rattle.d64_leftovers.specs.Rows.{row_of_slot, blocks_wanted};
ghost use Rattle.d64_leftovers.specs.Sources.{wanted_row_at, orphan_at};
ghost use Rattle.d64_leftovers.specs.declared.row.ListedRow.TheVariants.{File, Deleted};

use crate::deleted_files::DeletedFiles;
use crate::orphans::Orphans;
use crate::row::ListedRow;
use crate::selection::Selection;
use d64_files::{Entry, SlotNo};
use d64_inventory::Inventory;
use d64_scratched::is_scratched;
use d64_survey::Inspection;
use std::marker::Model;

/// A dump that was inspected, with what its wanted rows need.
///
/// In clauses it is the dump, and which rows are wanted.
#[derive(Drop)]
pub(crate) struct Source<'a> {
    inspection: &'a Inspection<'a>,
    inventory: Inventory<'a>,
    with_files: bool,
    /// None if deleted files aren't wanted.
    deleted: Option<DeletedFiles<'a>>,
    /// None if orphans aren't wanted.
    orphans: Option<Orphans<'a>>,
}

impl<'a> Model for Source<'a> {
    ghost use Rattle.std.specs.Prelude.{◌≡◌, IfSome, is_some};
    ghost use Rattle.d64_leftovers.specs.Sources.{SourceView};

    ghost Value = { SourceView };

    ghost view = { λ source. record {
      dump = source.inspection.now;
      wanted = record { files = source.with_files; deleted = is_some source.deleted; orphans = is_some source.orphans };
    } };

    ghost invariant = { λ source. (source.inventory ≡ source.inspection.now)
        × IfSome source.deleted (λ deleted. deleted ≡ source.inspection.now)
        × IfSome source.orphans (λ orphans. orphans ≡ source.inspection.now) };
}

impl<'a> Source<'a> {
    /// Prepares a dump that was inspected for its wanted rows.
    pub(crate) fn of(inspection: &'a Inspection<'a>, wanted: Selection) -> Source<'a>
        ensures { result ≡ record { dump = inspection.now; wanted = wanted } }
    {
        let deleted = if wanted.deleted {
            Some(DeletedFiles::of(inspection))
        } else {
            None
        };
        let orphans = if wanted.orphans {
            Some(Orphans::of(inspection))
        } else {
            None
        };
        Source {
            inspection,
            inventory: Inventory::of(inspection),
            with_files: wanted.files,
            deleted,
            orphans,
        }
    }

    /// How many blocks are left over, of which some may be heads of orphans; none if those aren't
    /// wanted.
    pub(crate) fn left_count(&self) -> usize
        ensures { result ≡ length (blocks_wanted self.now.wanted self.now.dump) }
    {
        match &self.orphans {
            Some(orphans) => orphans.left_count(),
            None => 0,
        }
    }

    /// The row of the orphan whose head is the block at a place among those, or None if there is no
    /// such block, or it is no head.
    pub(crate) fn orphan(&mut self, place: usize) -> Option<ListedRow>
        ensures row { result ≡ orphan_at self.old place }
        ensures same { self.new ≡ self.old }
    {
        match &self.orphans {
            Some(orphans) => match orphans.head_at(place) {
                Some(head) => Some(ListedRow::Orphan(orphans.row(&mut self.inventory, head))),
                None => None,
            },
            None => None,
        }
    }

    /// Returns how many slots the directory's way has.
    pub(crate) fn slot_count(&self) -> usize
        ensures { result ≡ length (way_slots self.now.dump.image) }
    {
        self.inventory.slot_count()
    }

    /// Returns the row of the file of a used slot, or None if files aren't wanted.
    fn file_row(&mut self, entry: &Entry) -> Option<ListedRow>
        requires slot { slot_cell self.old.dump.image entry.now.slot ≡ Some entry.now.bytes }
        requires used { is_used entry.now.bytes ≡ true }
        ensures row { result ≡ (if self.old.wanted.files then Some (File (file_row_of self.old.dump (entry.now.slot, entry.now.bytes))) else None) }
        ensures same { self.new ≡ self.old }
    {
        if !self.with_files {
            return None;
        }
        match self.inventory.row(entry.slot()) {
            Some(row) => Some(ListedRow::File(row)),
            None => None,
        }
    }

    /// Returns the row of the deleted file of a slot that isn't used, or None if deleted files
    /// aren't wanted, or the slot isn't scratched.
    fn deleted_row(&mut self, entry: &Entry) -> Option<ListedRow>
        ensures row { result ≡ (if self.old.wanted.deleted && is_scratched entry.now.bytes then Some (Deleted (deleted_row self.old.dump (entry.now.slot, entry.now.bytes))) else None) }
        ensures same { self.new ≡ self.old }
    {
        match &self.deleted {
            Some(files) => {
                if is_scratched(entry) {
                    Some(ListedRow::Deleted(files.row(&mut self.inventory, entry)))
                } else {
                    None
                }
            }
            None => None,
        }
    }

    /// Returns the row of an entry of the dump's image, or None if it has no row that is wanted.
    fn row_of_entry(&mut self, entry: &Entry) -> Option<ListedRow>
        requires { slot_cell self.old.dump.image entry.now.slot ≡ Some entry.now.bytes }
        ensures row { result ≡ row_of_slot self.old.wanted self.old.dump (entry.now.slot, entry.now.bytes) }
        ensures same { self.new ≡ self.old }
    {
        if entry.used() {
            self.file_row(entry)
        } else {
            self.deleted_row(entry)
        }
    }

    /// Returns the row of a slot, or None if the directory's way has no such slot, or the slot has
    /// no row that is wanted.
    pub(crate) fn row(&mut self, slot: SlotNo) -> Option<ListedRow>
        ensures row { result ≡ wanted_row_at self.old slot }
        ensures same { self.new ≡ self.old }
    {
        match self.inspection.survey().entry(slot) {
            Some(entry) => self.row_of_entry(&entry),
            None => None,
        }
    }
}
