//! What is printed of a file, also of a deleted one or of an orphan, as CSV.
ghost use Rattle.std.specs.Prelude.{◌≡◌, [], ◌∷◌, ◌++◌, codes, decimal, OnOk, IfOk};
ghost use Rattle.std.specs.Option.{option_map_or};
ghost use Rattle.out_messages.specs.FileText.{kind_letters};
ghost use Rattle.out_files.specs.FileRow.{decimal_or_empty, truth_or_empty, name_fields, type_fields, entry_fields, way_fields, content_fields, file_state_fields, file_fields};
ghost use Rattle.out_files.specs.DeletedRow.{deleted_fields};
ghost use Rattle.out_files.specs.OrphanRow.{orphan_fields};
ghost use Rattle.out_json_csv.specs.Rows.{host_field};
ghost use Rattle.out_files.specs.CsvRow.{place_fields, row_fields, leftover_texts, leftover_fields, csv_row, file_columns, file_header_row, name_alone, failed_file_row};
ghost use Rattle.out_json_csv.specs.FailedDumps.{no_dump_error};

use crate::deleted_field::push_deleted_fields;
use crate::orphan_field::push_orphan_fields;
use crate::spaced::{spell_flaws, spell_numbers};
use d64_files::{Kind, name_in};
use d64_inventory::{Content, FileRow};
use d64_leftovers::{DeletedRow, ListedRow, OrphanRow};
use out_json_csv::{CsvRow, Scratch, UNREAD, end_row, no_dump_error};
use out_messages::kind_letters;
use program_arguments::Leftovers;
use std::alloc::AllocError;

/// The columns that each row has, but for those of leftovers and the error.
const COLUMNS: [&[u8]; 19] = [
    b"image",
    b"slot",
    b"name",
    b"field",
    b"kind",
    b"type",
    b"closed",
    b"locked",
    b"size",
    b"first",
    b"record",
    b"blocks",
    b"side",
    b"bytes",
    b"sha256",
    b"whole",
    b"why",
    b"conditions",
    b"read_errors",
];

/// The columns of such a row after the name of the image, with nothing in them.
const EMPTY: [&[u8]; 18] = [b""; 18];

/// Appends the name, and the field in which it is, to a row.
pub(crate) fn push_names(
    scratch: &mut Vec<u8>,
    line: &mut CsvRow,
    field: &[u8; 16],
) -> Result<(), AllocError>
    ensures { OnOk result (line.new ≡ line.old ++ name_fields field.now) }
{
    line.push_name(scratch, name_in(field))?;
    line.push_hexadecimal(scratch, field)
}

/// Appends the letters of a kind to a row, or an empty field.
fn push_kind(line: &mut CsvRow, kind: Option<Kind>) -> Result<(), AllocError>
    ensures { OnOk result (line.new ≡ line.old ++ option_map_or kind_letters kind [] ∷ []) }
{
    match kind {
        Some(kind) => line.push_field(kind_letters(kind).as_bytes()),
        None => line.push_field(b""),
    }
}

/// Appends a number to a row, or an empty field.
pub(crate) fn push_count(line: &mut CsvRow, count: Option<usize>) -> Result<(), AllocError>
    ensures { OnOk result (line.new ≡ line.old ++ decimal_or_empty count ∷ []) }
{
    match count {
        Some(count) => line.push_number(count as u64),
        None => line.push_field(b""),
    }
}

/// Appends the length of a record to a row, or an empty field.
fn push_record(line: &mut CsvRow, length: Option<u8>) -> Result<(), AllocError>
    ensures { OnOk result (line.new ≡ line.old ++ decimal_or_empty length ∷ []) }
{
    match length {
        Some(length) => line.push_number(u64::from(length)),
        None => line.push_field(b""),
    }
}

/// Appends `true`, `false`, or an empty field to a row.
pub(crate) fn push_truth(line: &mut CsvRow, truth: Option<bool>) -> Result<(), AllocError>
    ensures { OnOk result (line.new ≡ line.old ++ truth_or_empty truth ∷ []) }
{
    match truth {
        Some(truth) => line.push_boolean(truth),
        None => line.push_field(b""),
    }
}

/// Appends the kind, and the type byte with what it says of the file, whether it is closed and
/// whether it is locked, to a row.
pub(crate) fn push_type(
    line: &mut CsvRow,
    kind: Option<Kind>,
    type_byte: u8,
    closed: bool,
    locked: bool,
) -> Result<(), AllocError>
    ensures { OnOk result (line.new ≡ line.old ++ type_fields kind type_byte closed locked) }
{
    push_kind(line, kind)?;
    line.push_number(u64::from(type_byte))?;
    line.push_boolean(closed)?;
    line.push_boolean(locked)
}

/// Appends the size that the directory has, the pair of the first block, and the length of a
/// record, to a row.
pub(crate) fn push_entry(
    line: &mut CsvRow,
    size: u16,
    first: (u8, u8),
    record_length: Option<u8>,
) -> Result<(), AllocError>
    ensures { OnOk result (line.new ≡ line.old ++ entry_fields size first record_length) }
{
    let (track, sector) = first;
    line.push_number(u64::from(size))?;
    line.push_pair(track, sector)?;
    push_record(line, record_length)
}

/// Appends how many blocks the data chain and the side chain have, to a row.
pub(crate) fn push_ways(
    line: &mut CsvRow,
    blocks: Option<usize>,
    side: Option<usize>,
) -> Result<(), AllocError>
    ensures { OnOk result (line.new ≡ line.old ++ way_fields blocks side) }
{
    push_count(line, blocks)?;
    push_count(line, side)
}

/// Appends how many bytes the content has, and their digest, to a row.
pub(crate) fn push_content(
    scratch: &mut Vec<u8>,
    line: &mut CsvRow,
    content: Option<Content>,
) -> Result<(), AllocError>
    ensures { OnOk result (line.new ≡ line.old ++ content_fields content) }
{
    match content {
        Some(content) => {
            line.push_number(content.bytes as u64)?;
            line.push_hexadecimal(scratch, &content.digest)
        }
        None => {
            line.push_field(b"")?;
            line.push_field(b"")
        }
    }
}

/// Appends whether the file is whole, why not, the conditions that it breaks, and how many of its
/// blocks have a read error, to a row.
fn push_state(scratch: &mut Vec<u8>, line: &mut CsvRow, row: &FileRow) -> Result<(), AllocError>
    ensures { OnOk result (line.new ≡ line.old ++ file_state_fields row.now) }
{
    push_truth(line, row.whole)?;
    spell_flaws(scratch, row.why.as_slice())?;
    line.push_field(scratch.as_slice())?;
    spell_numbers(scratch, row.conditions.as_slice())?;
    line.push_field(scratch.as_slice())?;
    line.push_number(row.read_errors as u64)
}

/// Appends the fields of a file, without the image and the slot, to a row.
pub(crate) fn push_file_fields(
    scratch: &mut Vec<u8>,
    line: &mut CsvRow,
    row: &FileRow,
) -> Result<(), AllocError>
    ensures { OnOk result (line.new ≡ line.old ++ file_fields row.now) }
{
    push_names(scratch, line, &row.field)?;
    push_type(line, row.kind, row.type_byte, row.closed, row.locked)?;
    push_entry(line, row.size, row.first, row.record)?;
    push_ways(line, row.blocks, row.side)?;
    push_content(scratch, line, row.content)?;
    push_state(scratch, line, row)
}

/// Begins a row: the name of the image, and the slot.
fn begin_place(scratch: &mut Scratch, name: &[u8], slot: usize) -> Result<(), AllocError>
    ensures { OnOk result (scratch.new.row ≡ place_fields name.now slot) }
{
    scratch.row.clear();
    scratch.row.push_host_name(&mut scratch.text, name)?;
    scratch.row.push_number(slot as u64)
}

/// Begins the row of a file that is there: the name of its image, the slot, and the file's fields.
fn begin_file_row(scratch: &mut Scratch, name: &[u8], file: &FileRow) -> Result<(), AllocError>
    ensures { OnOk result (scratch.new.row ≡ place_fields name.now file.now.slot ++ file_fields file.now) }
{
    begin_place(scratch, name, file.slot)?;
    push_file_fields(&mut scratch.text, &mut scratch.row, file)
}

/// Begins the row of a deleted file: the name of its image, the slot, and the file's fields.
fn begin_deleted_row(
    scratch: &mut Scratch,
    name: &[u8],
    file: &DeletedRow,
) -> Result<(), AllocError>
    ensures { OnOk result (scratch.new.row ≡ place_fields name.now file.now.slot ++ deleted_fields file.now) }
{
    begin_place(scratch, name, file.slot)?;
    push_deleted_fields(&mut scratch.text, &mut scratch.row, file)
}

/// Begins the row of an orphan, which has no slot.
fn begin_orphan_row(scratch: &mut Scratch, name: &[u8], chain: &OrphanRow) -> Result<(), AllocError>
    ensures { OnOk result (scratch.new.row ≡ (host_field name.now ∷ [] ∷ []) ++ orphan_fields chain.now) }
{
    begin_orphan_place(scratch, name)?;
    push_orphan_fields(&mut scratch.text, &mut scratch.row, chain)
}

/// Begins a row: the name of the image, and no slot.
fn begin_orphan_place(scratch: &mut Scratch, name: &[u8]) -> Result<(), AllocError>
    ensures { OnOk result (scratch.new.row ≡ host_field name.now ∷ [] ∷ []) }
{
    scratch.row.clear();
    scratch.row.push_host_name(&mut scratch.text, name)?;
    scratch.row.push_field(b"")
}

/// Begins the row of a file, also of a deleted one, or of an orphan.
#[tactic(auto, unfolding(crate::specs::CsvRow::row_fields))]
pub fn begin_row(scratch: &mut Scratch, name: &[u8], row: &ListedRow) -> Result<(), AllocError>
    ensures { OnOk result (scratch.new.row ≡ row_fields name.now row.now) }
{
    match row {
        ListedRow::File(file) => begin_file_row(scratch, name, file),
        ListedRow::Deleted(file) => begin_deleted_row(scratch, name, file),
        ListedRow::Orphan(chain) => begin_orphan_row(scratch, name, chain),
    }
}

/// Appends to a row of CSV whether the file of a row was deleted, if deleted files are wanted, and
/// whether it is an orphan, if those are.
pub fn push_leftover_fields(
    leftovers: Leftovers,
    line: &mut CsvRow,
    row: &ListedRow,
) -> Result<(), AllocError>
    ensures { OnOk result (line.new ≡ line.old ++ leftover_fields leftovers row.now) }
{
    if leftovers.deleted {
        line.push_boolean(row.is_deleted())?;
    }
    if leftovers.orphans {
        line.push_boolean(row.is_orphan())?;
    }
    Ok(())
}

/// Appends texts in the columns of leftovers that are wanted: of deleted files, and of orphans.
pub fn push_leftovers(
    leftovers: Leftovers,
    line: &mut CsvRow,
    deleted: &[u8],
    orphan: &[u8],
) -> Result<(), AllocError>
    ensures { OnOk result (line.new ≡ line.old ++ leftover_texts leftovers deleted.now orphan.now) }
{
    if leftovers.deleted {
        line.push_field(deleted)?;
    }
    if leftovers.orphans {
        line.push_field(orphan)?;
    }
    Ok(())
}

/// Appends the row of a file to a text.
pub fn row_csv(
    leftovers: Leftovers,
    scratch: &mut Scratch,
    name: &[u8],
    row: &ListedRow,
    out: Vec<u8>,
) -> Result<Vec<u8>, AllocError>
    ensures { IfOk result (λ text. text.items ≡ out.items ++ csv_row leftovers name.now row.now) }
{
    begin_row(scratch, name, row)?;
    push_leftover_fields(leftovers, &mut scratch.row, row)?;
    end_row(&mut scratch.row, b"", out)
}

/// Begins the header row: the columns but for those of leftovers and the error.
pub fn begin_header(scratch: &mut Scratch) -> Result<(), AllocError>
    ensures { OnOk result (scratch.new.row ≡ file_columns) }
{
    scratch.row.clear();
    scratch.row.push_fields(&COLUMNS)
}

/// Appends the header row to a text.
pub fn files_header(
    leftovers: Leftovers,
    scratch: &mut Scratch,
    out: Vec<u8>,
) -> Result<Vec<u8>, AllocError>
    ensures { IfOk result (λ text. text.items ≡ out.items ++ file_header_row leftovers) }
{
    begin_header(scratch)?;
    push_leftovers(leftovers, &mut scratch.row, b"deleted", b"orphan")?;
    end_row(&mut scratch.row, b"error", out)
}

/// Begins a row with only a name.
pub fn begin_name_alone(scratch: &mut Scratch, name: &[u8]) -> Result<(), AllocError>
    ensures { OnOk result (scratch.new.row ≡ name_alone name.now) }
{
    scratch.row.clear();
    scratch.row.push_host_name(&mut scratch.text, name)?;
    scratch.row.push_fields(&EMPTY)
}

/// Appends a row with only a name and an error.
fn push_failed(
    leftovers: Leftovers,
    scratch: &mut Scratch,
    name: &[u8],
    error: &[u8],
    out: Vec<u8>,
) -> Result<Vec<u8>, AllocError>
    ensures { IfOk result (λ text. text.items ≡ out.items ++ failed_file_row leftovers name.now error.now) }
{
    begin_name_alone(scratch, name)?;
    push_leftovers(leftovers, &mut scratch.row, b"", b"")?;
    end_row(&mut scratch.row, error, out)
}

/// Appends the row of an image that cannot be read to a text.
pub fn unread_file_csv(
    leftovers: Leftovers,
    scratch: &mut Scratch,
    name: &[u8],
    out: Vec<u8>,
) -> Result<Vec<u8>, AllocError>
    ensures { IfOk result (λ text. text.items ≡ out.items ++ failed_file_row leftovers name.now (codes "cannot be read")) }
{
    push_failed(leftovers, scratch, name, UNREAD.as_bytes(), out)
}

/// Appends the row of a file with these bytes, which is not a dump, to a text.
pub fn no_dump_file_csv(
    leftovers: Leftovers,
    scratch: &mut Scratch,
    name: &[u8],
    bytes: &[u8],
    out: Vec<u8>,
) -> Result<Vec<u8>, AllocError>
    ensures { IfOk result (λ text. text.items ≡ out.items ++ failed_file_row leftovers name.now (no_dump_error bytes.now)) }
{
    push_failed(
        leftovers,
        scratch,
        name,
        no_dump_error(bytes).as_bytes(),
        out,
    )
}
