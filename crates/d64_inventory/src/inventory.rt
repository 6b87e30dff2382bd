//! The inventory of a dump.
ghost use Rattle.std.specs.Prelude.{◌≡◌, Some, None, length, count_by, if◌then◌else◌};
ghost use Rattle.std.specs.FinSet as set;
ghost use Rattle.d64_files.specs.Slot.{is_used, kind_of, field_of};
ghost use Rattle.d64_survey.specs.Way.{way};
ghost use Rattle.d64_survey.specs.Owners.{way_slots};
ghost use Rattle.d64_survey.specs.Inspection.{slot_cell};
ghost use Rattle.d64_survey.specs.declared.read_error.ReadError.{ReadError};
ghost use Rattle.d64_inventory.specs.Contents.{digested_along};
ghost use Rattle.d64_inventory.specs.Rows.{known_kind, record_length_by, file_row_of, row_at};

use crate::conditions::conditions;
use crate::content_table::ContentTable;
use crate::file_blocks::FileBlocks;
use crate::row::{Content, FileRow};
use d64_files::{Entry, Kind, SLOTS_PER_BLOCK, SlotNo};
use d64_image::BlockSet;
use d64_map::free_set;
use d64_survey::{Inspection, Part, ReadError, wholeness};
use std::marker::Model;

/// The inventory of a dump: a row for each file in its directory. It keeps the digests of contents,
/// so that each way is digested once, and allocates nothing.
///
/// In clauses it is the dump itself.
#[derive(Drop)]
pub struct Inventory<'a> {
    inspection: &'a Inspection<'a>,
    free: BlockSet,
    contents: ContentTable,
}

impl<'a> Model for Inventory<'a> {
    ghost use Rattle.std.specs.Prelude.{◌≡◌};
    ghost use Rattle.d64_map.specs.Map.{free_blocks};
    ghost use Rattle.d64_survey.specs.Dump.{DumpView};
    ghost use Rattle.d64_inventory.specs.ContentTables.{RecordsContents};

    ghost Value = { DumpView };

    ghost view = { λ inventory. inventory.inspection.now };

    ghost invariant = { λ inventory. (inventory.free ≡ free_blocks inventory.inspection.now.image)
        × RecordsContents inventory.inspection.now.image inventory.contents.contents };
}

/// The kind of the file of a slot, or None if the low four bits of its type byte are the number of
/// no kind.
fn known_kind(entry: &Entry) -> Option<Kind>
    ensures { result ≡ known_kind entry.now.bytes }
{
    if entry.has_kind() {
        Some(entry.kind())
    } else {
        None
    }
}

/// The field of the name in a slot: 16 bytes, of which the first shifted space ($A0) ends the name.
pub fn field_of(entry: &Entry) -> [u8; 16]
    ensures { result ≡ field_of entry.now.bytes }
{
    let mut field = [0; 16];
    field.copy_from_slice(entry.field());
    field
}

/// The length of a record of the file of a slot, as the slot has it, or None if its kind isn't REL.
fn record_length(entry: &Entry) -> Option<u8>
    ensures { result ≡ record_length_by (kind_of entry.now.bytes) entry.now.bytes }
{
    match entry.kind() {
        Kind::Rel => Some(entry.record_length()),
        Kind::Del | Kind::Seq | Kind::Prg | Kind::Usr => None,
    }
}

/// How many of the read errors are in blocks of the set.
fn count_errors(errors: &[ReadError], blocks: &BlockSet) -> usize
    ensures { result ≡ count_by (λ (error : ReadError). set.contains blocks.now error.block) errors.now }
{
    errors
        .iter()
        .filter(|error| blocks.has(error.block))
        .count()
}

impl<'a> Inventory<'a> {
    /// Makes the inventory of a dump that was inspected.
    pub fn of(inspection: &'a Inspection<'a>) -> Inventory<'a>
        ensures { result ≡ inspection.now }
    {
        let image = inspection.image();
        Inventory {
            inspection,
            free: free_set(image),
            contents: ContentTable::empty(image),
        }
    }

    /// How many slots the directory's way has.
    pub fn slot_count(&self) -> usize
        ensures { result ≡ length (way_slots self.now.image) }
    {
        SLOTS_PER_BLOCK * self.inspection.survey().directory().len()
    }

    /// The row of a slot and its file, or None if the directory's way has no such slot, or it isn't
    /// used. It walks the ways of the file at most twice.
    pub fn row(&mut self, slot: SlotNo) -> Option<FileRow>
        ensures row { result ≡ row_at self.old slot }
        ensures same { self.new ≡ self.old }
    {
        match self.inspection.survey().entry(slot) {
            Some(entry) => self.row_of_used(&entry),
            None => None,
        }
    }

    /// Returns the length and the digest of the content along the way from a track and a sector, or
    /// None if that way isn't a whole chain. The digest is computed only if it isn't kept for the
    /// way's first block.
    pub fn content_along(&mut self, track: u8, sector: u8) -> Option<Content>
        ensures content { result ≡ digested_along self.old.image (way self.old.image (track, sector)) }
        ensures same { self.new ≡ self.old }
    {
        self.contents
            .content_from(self.inspection.image(), track, sector)
    }

    /// The row of an entry of the dump's image, or None if its slot isn't used.
    fn row_of_used(&mut self, entry: &Entry) -> Option<FileRow>
        requires { slot_cell self.old.image entry.now.slot ≡ Some entry.now.bytes }
        ensures row { result ≡ (if is_used entry.now.bytes then Some (file_row_of self.old (entry.now.slot, entry.now.bytes)) else None) }
        ensures same { self.new ≡ self.old }
    {
        if entry.used() {
            Some(self.row_of_entry(entry))
        } else {
            None
        }
    }

    /// The row of an entry of the dump's image.
    fn row_of_entry(&mut self, entry: &Entry) -> FileRow
        requires { slot_cell self.old.image entry.now.slot ≡ Some entry.now.bytes }
        ensures row { result ≡ file_row_of self.old (entry.now.slot, entry.now.bytes) }
        ensures same { self.new ≡ self.old }
    {
        let all = self.inspection;
        let survey = all.survey();
        let file = FileBlocks::of(survey, &self.free, entry);
        let why = all.why(entry);
        FileRow {
            slot: entry.slot().place(),
            field: field_of(entry),
            kind: known_kind(entry),
            type_byte: entry.type_byte(),
            closed: entry.closed(),
            locked: entry.locked(),
            size: entry.blocks(),
            first: entry.first_pair(),
            record: record_length(entry),
            blocks: all.way_length(entry, Part::Data),
            side: all.way_length(entry, Part::Side),
            content: self.contents.content(all.image(), entry),
            whole: wholeness(entry, why.as_slice()),
            why,
            conditions: conditions(survey, entry, &file),
            read_errors: count_errors(all.read_errors(), &file.members),
        }
    }
}
