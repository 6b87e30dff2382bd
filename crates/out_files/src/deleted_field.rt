//! A deleted file as fields of a row of CSV.
ghost use Rattle.std.specs.Prelude.{◌≡◌, [], ◌++◌, OnOk};
ghost use Rattle.out_files.specs.DeletedRow.{loss_fields, deleted_fields};

use crate::csv_line::{push_content, push_entry, push_names, push_truth, push_type, push_ways};
use crate::spaced::spell_losses;
use d64_leftovers::DeletedRow;
use out_json_csv::CsvRow;
use std::alloc::AllocError;

/// Appends whether a deleted file is whole, why not, no conditions, and how many of its blocks have
/// a read error, to a row.
fn push_state(scratch: &mut Vec<u8>, line: &mut CsvRow, row: &DeletedRow) -> Result<(), AllocError>
    ensures { OnOk result (line.new ≡ line.old ++ loss_fields row.now) }
{
    push_truth(line, Some(row.losses.is_empty()))?;
    spell_losses(scratch, row.losses.as_slice())?;
    line.push_field(scratch.as_slice())?;
    line.push_field(b"")?;
    line.push_number(row.read_errors as u64)
}

/// Appends the fields of a deleted file, without the image and the slot, to a row.
pub(crate) fn push_deleted_fields(
    scratch: &mut Vec<u8>,
    line: &mut CsvRow,
    row: &DeletedRow,
) -> Result<(), AllocError>
    ensures { OnOk result (line.new ≡ line.old ++ deleted_fields row.now) }
{
    push_names(scratch, line, &row.field)?;
    push_type(line, None, 0, false, false)?;
    push_entry(line, row.size, row.first, None)?;
    push_ways(line, Some(row.blocks), None)?;
    push_content(scratch, line, row.content)?;
    push_state(scratch, line, row)
}
