//! A deleted file as members of a JSON object.
ghost use Rattle.std.specs.Prelude.{[], ◌∷◌, map, codes};
ghost use Rattle.out_json_csv.specs.Values.{Prints, PrintsMembers, array_of};
ghost use Rattle.out_files.specs.DeletedObject.{loss_value, loss_members, deleted_members};

use crate::file_member::{
    put_conditions, put_content, put_entry, put_names, put_truth, put_type, put_ways,
};
use crate::loss_word::loss_word;
use d64_leftovers::DeletedRow;
use d64_scratched::Loss;
use json::Writer;
use out_json_csv::put_number;
use std::alloc::AllocError;

/// Prints an array of reasons.
fn put_losses(writer: &mut Writer, losses: &[Loss]) -> Result<(), AllocError>
    ensures { Prints result writer.old writer.new (array_of (map loss_value losses.now)) }
{
    writer.begin_array()?;
    for loss in losses {
        writer.string(loss_word(*loss))?;
    }
    writer.end_array()
}

/// Prints why a deleted file isn't whole.
fn put_why(writer: &mut Writer, losses: &[Loss]) -> Result<(), AllocError>
    ensures { PrintsMembers result writer.old writer.new ((codes "why", array_of (map loss_value losses.now)) ∷ []) }
{
    writer.key("why")?;
    put_losses(writer, losses)
}

/// Prints whether a deleted file is whole, why not, no conditions, and how many of its blocks have a
/// read error.
fn put_state(writer: &mut Writer, row: &DeletedRow) -> Result<(), AllocError>
    ensures { PrintsMembers result writer.old writer.new (loss_members row.now) }
{
    put_truth(writer, "whole", Some(row.losses.is_empty()))?;
    put_why(writer, row.losses.as_slice())?;
    put_conditions(writer, &[])?;
    put_number(writer, "read_errors", row.read_errors as u64)
}

/// Prints the members of a deleted file, from its name to its read errors; the image and the slot
/// are not among them.
pub(crate) fn put_deleted_members(
    scratch: &mut Vec<u8>,
    writer: &mut Writer,
    row: &DeletedRow,
) -> Result<(), AllocError>
    ensures { PrintsMembers result writer.old writer.new (deleted_members row.now) }
{
    put_names(scratch, writer, &row.field)?;
    put_type(writer, None, 0, false, false)?;
    put_entry(writer, row.size, row.first, None)?;
    put_ways(writer, Some(row.blocks), None)?;
    put_content(scratch, writer, row.content)?;
    put_state(writer, row)
}
