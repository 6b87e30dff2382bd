//! What is printed of a file, also of a deleted one or of an orphan, as JSON.
ghost use Rattle.std.specs.Prelude.{◌≡◌, ◌++◌, IfOk};
ghost use Rattle.out_json_csv.specs.Values.{PrintsMembers, line_of};
ghost use Rattle.out_files.specs.FileObject.{file_members};
ghost use Rattle.out_files.specs.DeletedObject.{deleted_members};
ghost use Rattle.out_files.specs.OrphanObject.{orphan_members};
ghost use Rattle.out_files.specs.RowObject.{place_members, orphan_place, row_members, leftover_members, row_object};

use crate::deleted_member::put_deleted_members;
use crate::file_member::put_file_members;
use crate::orphan_member::put_orphan_members;
use d64_inventory::FileRow;
use d64_leftovers::{DeletedRow, ListedRow, OrphanRow};
use json::Writer;
use out_json_csv::{Scratch, into_line, put_boolean, put_image, put_null, put_number};
use program_arguments::Leftovers;
use std::alloc::AllocError;

/// Prints the place of a file: the image, by its name on the host, and the slot.
fn put_place(
    scratch: &mut Vec<u8>,
    writer: &mut Writer,
    name: &[u8],
    slot: usize,
) -> Result<(), AllocError>
    ensures { PrintsMembers result writer.old writer.new (place_members name.now slot) }
{
    put_image(scratch, writer, name)?;
    put_number(writer, "slot", slot as u64)
}

/// Prints the members of a file, with its place.
fn put_placed_file(
    scratch: &mut Vec<u8>,
    writer: &mut Writer,
    name: &[u8],
    file: &FileRow,
) -> Result<(), AllocError>
    ensures { PrintsMembers result writer.old writer.new (place_members name.now file.now.slot ++ file_members file.now) }
{
    put_place(scratch, writer, name, file.slot)?;
    put_file_members(scratch, writer, file)
}

/// Prints the members of a deleted file, with its place.
fn put_placed_deleted(
    scratch: &mut Vec<u8>,
    writer: &mut Writer,
    name: &[u8],
    file: &DeletedRow,
) -> Result<(), AllocError>
    ensures { PrintsMembers result writer.old writer.new (place_members name.now file.now.slot ++ deleted_members file.now) }
{
    put_place(scratch, writer, name, file.slot)?;
    put_deleted_members(scratch, writer, file)
}

/// Prints the members of an orphan, with its place: it has no slot.
fn put_placed_orphan(
    scratch: &mut Vec<u8>,
    writer: &mut Writer,
    name: &[u8],
    chain: &OrphanRow,
) -> Result<(), AllocError>
    ensures { PrintsMembers result writer.old writer.new (orphan_place name.now ++ orphan_members chain.now) }
{
    put_orphan_place(scratch, writer, name)?;
    put_orphan_members(scratch, writer, chain)
}

/// Prints the image of an orphan, and that it has no slot.
fn put_orphan_place(
    scratch: &mut Vec<u8>,
    writer: &mut Writer,
    name: &[u8],
) -> Result<(), AllocError>
    ensures { PrintsMembers result writer.old writer.new (orphan_place name.now) }
{
    put_image(scratch, writer, name)?;
    put_null(writer, "slot")
}

/// Prints the members of a row, with its place.
#[tactic(auto, unfolding(crate::specs::RowObject::row_members))]
pub fn put_row_members(
    scratch: &mut Vec<u8>,
    writer: &mut Writer,
    name: &[u8],
    row: &ListedRow,
) -> Result<(), AllocError>
    ensures { PrintsMembers result writer.old writer.new (row_members name.now row.now) }
{
    match row {
        ListedRow::File(file) => put_placed_file(scratch, writer, name, file),
        ListedRow::Deleted(file) => put_placed_deleted(scratch, writer, name, file),
        ListedRow::Orphan(chain) => put_placed_orphan(scratch, writer, name, chain),
    }
}

/// Prints whether the file of a row was deleted, if deleted files are wanted, and whether it is an
/// orphan, if those are.
pub fn put_leftover_members(
    leftovers: Leftovers,
    writer: &mut Writer,
    row: &ListedRow,
) -> Result<(), AllocError>
    ensures { PrintsMembers result writer.old writer.new (leftover_members leftovers row.now) }
{
    if leftovers.deleted {
        put_boolean(writer, "deleted", row.is_deleted())?;
    }
    if leftovers.orphans {
        put_boolean(writer, "orphan", row.is_orphan())?;
    }
    Ok(())
}

/// Appends the line of a row to a text: an object of JSON with the name of its image and the
/// members of the file.
pub fn row_json(
    leftovers: Leftovers,
    scratch: &mut Scratch,
    name: &[u8],
    row: &ListedRow,
    out: Vec<u8>,
) -> Result<Vec<u8>, AllocError>
    ensures { IfOk result (λ text. text.items ≡ out.items ++ line_of (row_object leftovers name.now row.now)) }
{
    let start = out.len();
    let mut writer = Writer::new(out);
    writer.begin_object()?;
    put_row_members(&mut scratch.text, &mut writer, name, row)?;
    put_leftover_members(leftovers, &mut writer, row)?;
    writer.end_object()?;
    let text = into_line(writer, start)?;
    Ok(text)
}
