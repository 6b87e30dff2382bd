//! A row of an image as a line for people.
ghost use Rattle.std.specs.Prelude.{◌≡◌, ◌++◌, OnOk};
ghost use Rattle.out_files.specs.RowText.{row_text, line_of_row};

use crate::deleted_table::push_deleted_text;
use crate::orphan_table::push_orphan_text;
use crate::table::push_file_text;
use d64_leftovers::ListedRow;
use d64_survey::Survey;
use std::alloc::AllocError;

/// Appends the text of a row, without the end of the line.
pub fn push_row_text(
    scratch: &mut Vec<u8>,
    out: &mut Vec<u8>,
    survey: &Survey,
    row: &ListedRow,
) -> Result<(), AllocError>
    ensures { OnOk result (out.new.items ≡ out.old.items ++ row_text survey.now row.now) }
{
    match row {
        ListedRow::File(file) => push_file_text(scratch, out, file),
        ListedRow::Deleted(file) => push_deleted_text(scratch, out, survey, file),
        ListedRow::Orphan(chain) => push_orphan_text(scratch, out, chain),
    }
}

/// Appends the line of a row.
pub fn push_row_line(
    scratch: &mut Vec<u8>,
    out: &mut Vec<u8>,
    survey: &Survey,
    row: &ListedRow,
) -> Result<(), AllocError>
    ensures { OnOk result (out.new.items ≡ out.old.items ++ line_of_row survey.now row.now) }
{
    push_row_text(scratch, out, survey, row)?;
    out.extend_from_slice(b"\n")
}
