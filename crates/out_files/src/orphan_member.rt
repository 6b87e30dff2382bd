//! An orphan as members of a JSON object.
ghost use Rattle.out_json_csv.specs.Values.{PrintsMembers};
ghost use Rattle.out_files.specs.OrphanObject.{old_name_members, old_type_members, orphan_entry_members, orphan_state_members, orphan_members};

use crate::file_member::{
    put_conditions, put_content, put_count, put_names, put_truth, put_type, put_ways, put_why,
};
use d64_leftovers::{OldSlot, OrphanRow};
use json::Writer;
use out_json_csv::{put_null, put_number, put_pair};
use std::alloc::AllocError;

/// Prints the name, and the field that it is in; null if there is no old slot.
fn put_old_names(
    scratch: &mut Vec<u8>,
    writer: &mut Writer,
    old: Option<OldSlot>,
) -> Result<(), AllocError>
    ensures { PrintsMembers result writer.old writer.new (old_name_members old) }
{
    match old {
        Some(old) => put_names(scratch, writer, &old.field),
        None => {
            put_null(writer, "name")?;
            put_null(writer, "field")
        }
    }
}

/// Prints the kind, and the type byte with what it says; null if there is no old slot.
fn put_old_type(writer: &mut Writer, old: Option<OldSlot>) -> Result<(), AllocError>
    ensures { PrintsMembers result writer.old writer.new (old_type_members old) }
{
    match old {
        Some(old) => put_type(
            writer,
            Some(old.kind),
            old.type_byte,
            old.closed,
            old.locked,
        ),
        None => {
            put_null(writer, "kind")?;
            put_null(writer, "type")?;
            put_null(writer, "closed")?;
            put_null(writer, "locked")
        }
    }
}

/// Prints the shown size, if an old slot has one, the first block, and no length of a record.
fn put_orphan_entry(writer: &mut Writer, row: &OrphanRow) -> Result<(), AllocError>
    ensures { PrintsMembers result writer.old writer.new (orphan_entry_members row.now) }
{
    let size = match row.old {
        Some(old) => Some(usize::from(old.size)),
        None => None,
    };
    put_count(writer, "size", size)?;
    put_pair(writer, "first", row.first.track(), row.first.sector())?;
    put_null(writer, "record")
}

/// Prints that it isn't known whether an orphan is whole, and how many of its blocks have a read
/// error.
fn put_orphan_state(writer: &mut Writer, row: &OrphanRow) -> Result<(), AllocError>
    ensures { PrintsMembers result writer.old writer.new (orphan_state_members row.now) }
{
    put_truth(writer, "whole", None)?;
    put_why(writer, &[])?;
    put_conditions(writer, &[])?;
    put_number(writer, "read_errors", row.read_errors as u64)
}

/// Prints the members of an orphan, but for the image and the slot: those from its name to its read
/// errors.
pub(crate) fn put_orphan_members(
    scratch: &mut Vec<u8>,
    writer: &mut Writer,
    row: &OrphanRow,
) -> Result<(), AllocError>
    ensures { PrintsMembers result writer.old writer.new (orphan_members row.now) }
{
    put_old_names(scratch, writer, row.old)?;
    put_old_type(writer, row.old)?;
    put_orphan_entry(writer, row)?;
    put_ways(writer, Some(row.blocks), None)?;
    put_content(scratch, writer, row.content)?;
    put_orphan_state(writer, row)
}
