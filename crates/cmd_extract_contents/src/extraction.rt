//! The extraction of an image, file by file.
ghost use Rattle.std.specs.Prelude.{◌≡◌, not, is_some, Some, None, IfOk, OnOk, option_map};
ghost use Rattle.cmd_extract_contents.specs.Portions.{Portion, portion_at};
ghost use Rattle.cmd_extract_contents.specs.RowPortions.{row_portion};
ghost use Rattle.cmd_extract_contents.specs.Limits.{remaining_bytes, left_after, portion_within};

use crate::extent::Extent;
use crate::finding::{put_content_along, put_deleted, put_portion};
use d64_files::SlotNo;
use d64_leftovers::ListedRow;
use d64_survey::Survey;
use std::alloc::AllocError;
use std::marker::Model;

/// The most bytes that the files of an image may have together. A sound disk has at most 190,246;
/// slots that share blocks may have many times as many.
const EXTRACTED_BYTES: usize = 16_777_216;

/// The extraction of the files of an image, one after another: what is written of each, until they
/// have too many bytes together.
#[derive(Drop)]
pub struct ContentExtraction {
    /// How many bytes later files may have; None once there were too many.
    left: Option<usize>,
}

impl Model for ContentExtraction {
    ghost use Rattle.std.specs.Prelude.{ℕ, Option};

    ghost Value = { Option ℕ };

    ghost view = { λ extraction. extraction.left };
}

/// Returns how many bytes later files may have after one with `count` bytes, or None if there are
/// too many.
fn remaining_bytes(left: Option<usize>, count: usize) -> Option<usize>
    ensures { result ≡ remaining_bytes left count }
{
    left?.checked_sub(count)
}

impl ContentExtraction {
    /// Returns the extraction of an image of which nothing is written yet.
    pub fn new() -> ContentExtraction
        ensures { result ≡ Some 16777216 }
    {
        ContentExtraction {
            left: Some(EXTRACTED_BYTES),
        }
    }

    /// Replaces a list's contents by what is written of the file of the next slot, and returns how
    /// much of the file that is: its content, or a part if parts are wanted too. Returns None, and
    /// leaves the list with unspecified contents, if nothing is written: there is no such slot or
    /// nothing to write of it, or with this file, or with an earlier one, there are too many bytes.
    pub fn next(
        &mut self,
        survey: &Survey,
        slot: SlotNo,
        with_parts: bool,
        bytes: &mut Vec<u8>,
    ) -> Result<Option<Extent>, AllocError>
        ensures written { IfOk result (λ extent. option_map (λ extent. record { bytes = bytes.new.items; extent = extent }) extent
            ≡ portion_within self.old (portion_at with_parts survey.now slot)) }
        ensures left { OnOk result (self.new ≡ left_after self.old (portion_at with_parts survey.now slot)) }
    {
        let Some(entry) = survey.entry(slot) else {
            return Ok(None);
        };
        let found = put_portion(bytes, survey.image(), &entry, with_parts)?;
        Ok(self.within(found, bytes))
    }

    /// Replaces a list's contents by what is written of the file of the next row, and returns how
    /// much of the file that is, or None, as `next` does.
    pub fn next_row(
        &mut self,
        survey: &Survey,
        row: &ListedRow,
        with_parts: bool,
        bytes: &mut Vec<u8>,
    ) -> Result<Option<Extent>, AllocError>
        ensures written { IfOk result (λ extent. option_map (λ extent. record { bytes = bytes.new.items; extent = extent }) extent
            ≡ portion_within self.old (row_portion with_parts survey.now row.now)) }
        ensures left { OnOk result (self.new ≡ left_after self.old (row_portion with_parts survey.now row.now)) }
    {
        match row {
            ListedRow::File(file) => self.next(survey, SlotNo::at(file.slot), with_parts, bytes),
            ListedRow::Deleted(file) => {
                let found = put_deleted(bytes, survey.image(), file, with_parts)?;
                Ok(self.within(found, bytes))
            }
            ListedRow::Orphan(chain) => {
                let first = chain.first;
                let image = survey.image();
                let found = put_content_along(bytes, image, first.track(), first.sector())?;
                Ok(self.within(found, bytes))
            }
        }
    }

    /// Returns how much is written of a file of which this was found, with these bytes: nothing if
    /// they are too many.
    fn within(&mut self, found: Option<Extent>, bytes: &[u8]) -> Option<Extent>
        ensures written { option_map (λ extent. record { bytes = bytes.now; extent = extent }) result
            ≡ portion_within self.old (option_map (λ extent. record { bytes = bytes.now; extent = extent }) found) }
        ensures left { self.new ≡ left_after self.old (option_map (λ extent. record { bytes = bytes.now; extent = extent }) found) }
    {
        let extent = found?;
        self.left = remaining_bytes(self.left, bytes.len());
        self.left?;
        Some(extent)
    }

    /// Whether the files had too many bytes, so that one of them was not written, nor any later
    /// one.
    pub fn is_over(&self) -> bool
        ensures { result ≡ not (is_some self.now) }
    {
        self.left.is_none()
    }
}
