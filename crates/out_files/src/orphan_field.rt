//! An orphan as fields of a row of CSV.
ghost use Rattle.std.specs.Prelude.{◌≡◌, [], ◌++◌, OnOk};
ghost use Rattle.out_files.specs.OrphanRow.{old_name_fields, old_type_fields, orphan_entry_fields, orphan_state_fields, orphan_fields};

use crate::csv_line::{push_content, push_count, push_names, push_type, push_ways};
use d64_leftovers::{OldSlot, OrphanRow};
use out_json_csv::CsvRow;
use std::alloc::AllocError;

/// Adds the name, and the field that it is in, to a row; empty ones if there is no old slot.
fn push_old_names(
    scratch: &mut Vec<u8>,
    line: &mut CsvRow,
    old: Option<OldSlot>,
) -> Result<(), AllocError>
    ensures { OnOk result (line.new ≡ line.old ++ old_name_fields old) }
{
    match old {
        Some(old) => push_names(scratch, line, &old.field),
        None => line.push_fields(&[b"", b""]),
    }
}

/// Adds the kind, and the type byte with what it says, to a row; empty ones if there is no old
/// slot.
fn push_old_type(line: &mut CsvRow, old: Option<OldSlot>) -> Result<(), AllocError>
    ensures { OnOk result (line.new ≡ line.old ++ old_type_fields old) }
{
    match old {
        Some(old) => push_type(line, Some(old.kind), old.type_byte, old.closed, old.locked),
        None => line.push_fields(&[b"", b"", b"", b""]),
    }
}

/// Adds the shown size, if an old slot has one, the first block, and no length of a record, to a
/// row.
fn push_orphan_entry(line: &mut CsvRow, row: &OrphanRow) -> Result<(), AllocError>
    ensures { OnOk result (line.new ≡ line.old ++ orphan_entry_fields row.now) }
{
    let size = match row.old {
        Some(old) => Some(usize::from(old.size)),
        None => None,
    };
    push_count(line, size)?;
    line.push_pair(row.first.track(), row.first.sector())?;
    line.push_field(b"")
}

/// Adds that it isn't known whether an orphan is whole, and how many of its blocks have a read
/// error, to a row.
fn push_orphan_state(line: &mut CsvRow, row: &OrphanRow) -> Result<(), AllocError>
    ensures { OnOk result (line.new ≡ line.old ++ orphan_state_fields row.now) }
{
    line.push_field(b"")?;
    line.push_field(b"")?;
    line.push_field(b"")?;
    line.push_number(row.read_errors as u64)
}

/// Adds the fields of an orphan, but for the image and the slot, to a row.
pub(crate) fn push_orphan_fields(
    scratch: &mut Vec<u8>,
    line: &mut CsvRow,
    row: &OrphanRow,
) -> Result<(), AllocError>
    ensures { OnOk result (line.new ≡ line.old ++ orphan_fields row.now) }
{
    push_old_names(scratch, line, row.old)?;
    push_old_type(line, row.old)?;
    push_orphan_entry(line, row)?;
    push_ways(line, Some(row.blocks), None)?;
    push_content(scratch, line, row.content)?;
    push_orphan_state(line, row)
}
