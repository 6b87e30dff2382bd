//! What is printed of a change as JSON.
ghost use Rattle.std.specs.Prelude.{◌≡◌, [], ◌∷◌, ◌++◌, map, codes, option_map, IfOk};
ghost use Rattle.json.specs.Json.{string};
ghost use Rattle.out_json_csv.specs.Values.{Prints, PrintsMembers, array_of, line_of};
ghost use Rattle.cmd_diff.specs.Changes.{DiskChanged, size_members, free_members, disk_object, entry_object};
ghost use Rattle.cmd_diff.specs.ChangeObject.{change_member, entry_value, changed_slot_members, changed_entry_members, slot_object, disk_members, block_value, blocks_member, blocks_object, change_object};

use d64_image::{BlockNo, Image};
use d64_inventory::FileRow;
use d64_map::blocks_free;
use d64_survey::Inspection;
use json::Writer;
use out_files::put_file_members;
use out_json_csv::{into_line, pair_text, put_boolean, put_label, put_null, put_number, put_text};
use std::alloc::AllocError;

/// Prints how many tracks the disk has, and whether there are read codes.
fn put_size(writer: &mut Writer, all: &Inspection) -> Result<(), AllocError>
    ensures { PrintsMembers result writer.old writer.new (size_members all.now) }
{
    put_number(writer, "tracks", u64::from(all.image().tracks()))?;
    put_boolean(writer, "codes", all.codes().is_some())
}

/// Prints how many blocks are free.
fn put_free(writer: &mut Writer, image: &Image) -> Result<(), AllocError>
    ensures { PrintsMembers result writer.old writer.new (free_members image.now) }
{
    put_number(writer, "free", u64::from(blocks_free(image)))
}

/// Prints what is compared of the disk.
fn put_disk(scratch: &mut Vec<u8>, writer: &mut Writer, all: &Inspection) -> Result<(), AllocError>
    ensures { Prints result writer.old writer.new (disk_object all.now) }
{
    writer.begin_object()?;
    put_size(writer, all)?;
    put_label(scratch, writer, all.image())?;
    put_free(writer, all.image())?;
    writer.end_object()
}

/// Prints what is compared of a file.
fn put_entry(scratch: &mut Vec<u8>, writer: &mut Writer, row: &FileRow) -> Result<(), AllocError>
    ensures { Prints result writer.old writer.new (entry_object row.now) }
{
    writer.begin_object()?;
    put_file_members(scratch, writer, row)?;
    writer.end_object()
}

/// Prints what is compared of a file, or null.
fn put_file(
    scratch: &mut Vec<u8>,
    writer: &mut Writer,
    key: &str,
    row: Option<&FileRow>,
) -> Result<(), AllocError>
    ensures { PrintsMembers result writer.old writer.new ((key.now, entry_value (option_map (λ row. row.now) row.entry)) ∷ []) }
{
    match row {
        Some(row) => {
            writer.key(key)?;
            put_entry(scratch, writer, row)
        }
        None => put_null(writer, key),
    }
}

/// Appends a line with what is compared of the disk to a text.
pub(crate) fn disk_line_json(
    scratch: &mut Vec<u8>,
    all: &Inspection,
    out: Vec<u8>,
) -> Result<Vec<u8>, AllocError>
    ensures { IfOk result (λ text. text.items ≡ out.items ++ line_of (disk_object all.now)) }
{
    let start = out.len();
    let mut writer = Writer::new(out);
    put_disk(scratch, &mut writer, all)?;
    into_line(writer, start)
}

/// Appends a line with what is compared of a file to a text.
pub(crate) fn entry_line_json(
    scratch: &mut Vec<u8>,
    row: &FileRow,
    out: Vec<u8>,
) -> Result<Vec<u8>, AllocError>
    ensures { IfOk result (λ text. text.items ≡ out.items ++ line_of (entry_object row.now)) }
{
    let start = out.len();
    let mut writer = Writer::new(out);
    put_entry(scratch, &mut writer, row)?;
    into_line(writer, start)
}

/// Prints an array of blocks.
fn put_blocks(writer: &mut Writer, blocks: &[BlockNo]) -> Result<(), AllocError>
    ensures { Prints result writer.old writer.new (array_of (map block_value blocks.now)) }
{
    writer.begin_array()?;
    for block in blocks {
        let text = pair_text(block.track(), block.sector());
        writer.string(text.as_str())?;
    }
    writer.end_array()
}

/// Prints the member of blocks.
fn put_block_list(writer: &mut Writer, blocks: &[BlockNo]) -> Result<(), AllocError>
    ensures { PrintsMembers result writer.old writer.new (blocks_member blocks.now ∷ []) }
{
    writer.key("blocks")?;
    put_blocks(writer, blocks)
}

/// Appends the line of a change of blocks to a text.
pub(crate) fn blocks_json(
    word: &str,
    blocks: &[BlockNo],
    out: Vec<u8>,
) -> Result<Vec<u8>, AllocError>
    ensures { IfOk result (λ text. text.items ≡ out.items ++ line_of (blocks_object word.now blocks.now)) }
{
    let start = out.len();
    let mut writer = Writer::new(out);
    writer.begin_object()?;
    put_text(&mut writer, "change", word)?;
    put_block_list(&mut writer, blocks)?;
    writer.end_object()?;
    let text = into_line(writer, start)?;
    Ok(text)
}

/// Prints the disk before and after.
fn put_disks(
    scratch: &mut Vec<u8>,
    writer: &mut Writer,
    old: &Inspection,
    new: &Inspection,
) -> Result<(), AllocError>
    ensures { PrintsMembers result writer.old writer.new (disk_members old.now new.now) }
{
    writer.key("old")?;
    put_disk(scratch, writer, old)?;
    writer.key("new")?;
    put_disk(scratch, writer, new)
}

/// Appends the line of a change of the disk to a text.
pub(crate) fn disks_json(
    scratch: &mut Vec<u8>,
    old: &Inspection,
    new: &Inspection,
    out: Vec<u8>,
) -> Result<Vec<u8>, AllocError>
    ensures { IfOk result (λ text. text.items ≡ out.items ++ line_of (change_object (DiskChanged old.now new.now))) }
{
    let start = out.len();
    let mut writer = Writer::new(out);
    writer.begin_object()?;
    put_text(&mut writer, "change", "disk")?;
    put_disks(scratch, &mut writer, old, new)?;
    writer.end_object()?;
    let text = into_line(writer, start)?;
    Ok(text)
}

/// Prints a slot and how it changed.
fn put_slot(writer: &mut Writer, slot: usize, word: &str) -> Result<(), AllocError>
    ensures { PrintsMembers result writer.old writer.new (changed_slot_members slot word.now) }
{
    put_number(writer, "slot", slot as u64)?;
    put_text(writer, "change", word)
}

/// Prints the file before and after, if there is one.
fn put_files(
    scratch: &mut Vec<u8>,
    writer: &mut Writer,
    old: Option<&FileRow>,
    new: Option<&FileRow>,
) -> Result<(), AllocError>
    ensures { PrintsMembers result writer.old writer.new (changed_entry_members (option_map (λ row. row.now) old.entry) (option_map (λ row. row.now) new.entry)) }
{
    put_file(scratch, writer, "old", old)?;
    put_file(scratch, writer, "new", new)
}

/// Appends the line of a change of a slot to a text, with the file before and after, if there is
/// one.
pub(crate) fn slot_json(
    scratch: &mut Vec<u8>,
    slot: usize,
    word: &str,
    old: Option<&FileRow>,
    new: Option<&FileRow>,
    out: Vec<u8>,
) -> Result<Vec<u8>, AllocError>
    ensures { IfOk result (λ text. text.items ≡ out.items ++ line_of (slot_object slot word.now (option_map (λ row. row.now) old.entry) (option_map (λ row. row.now) new.entry))) }
{
    let start = out.len();
    let mut writer = Writer::new(out);
    writer.begin_object()?;
    put_slot(&mut writer, slot, word)?;
    put_files(scratch, &mut writer, old, new)?;
    writer.end_object()?;
    let text = into_line(writer, start)?;
    Ok(text)
}
