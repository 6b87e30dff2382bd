//! A file on a disk as members of a JSON object.
ghost use Rattle.std.specs.Prelude.{[], ◌∷◌, map, codes};
ghost use Rattle.json.specs.Json.{string};
ghost use Rattle.out_json_csv.specs.Values.{Prints, PrintsMembers, array_of, numeral, numeral_or_null};
ghost use Rattle.out_files.specs.FileObject.{kind_value, boolean_or_null, flaw_value, name_members, type_members, entry_members, way_members, content_members, file_state_members, file_members};

use crate::flaw_word::flaw_word;
use d64_files::{Kind, name_in};
use d64_inventory::{Content, FileRow};
use d64_survey::Flaw;
use json::Writer;
use out_json_csv::{
    put_boolean, put_hexadecimal, put_name, put_null, put_number, put_pair, put_text,
};
use out_messages::kind_letters;
use std::alloc::AllocError;

/// Prints the name, and the field in which it is.
pub(crate) fn put_names(
    scratch: &mut Vec<u8>,
    writer: &mut Writer,
    field: &[u8; 16],
) -> Result<(), AllocError>
    ensures { PrintsMembers result writer.old writer.new (name_members field.now) }
{
    put_name(scratch, writer, "name", name_in(field))?;
    put_hexadecimal(scratch, writer, "field", field)
}

/// Prints a kind, or null.
fn put_kind(writer: &mut Writer, key: &str, kind: Option<Kind>) -> Result<(), AllocError>
    ensures { PrintsMembers result writer.old writer.new ((key.now, kind_value kind) ∷ []) }
{
    match kind {
        Some(kind) => put_text(writer, key, kind_letters(kind)),
        None => put_null(writer, key),
    }
}

/// Prints a number, or null.
pub(crate) fn put_count(
    writer: &mut Writer,
    key: &str,
    count: Option<usize>,
) -> Result<(), AllocError>
    ensures { PrintsMembers result writer.old writer.new ((key.now, numeral_or_null count) ∷ []) }
{
    match count {
        Some(count) => put_number(writer, key, count as u64),
        None => put_null(writer, key),
    }
}

/// Prints the length of a record, or null.
fn put_record(writer: &mut Writer, key: &str, length: Option<u8>) -> Result<(), AllocError>
    ensures { PrintsMembers result writer.old writer.new ((key.now, numeral_or_null length) ∷ []) }
{
    match length {
        Some(length) => put_number(writer, key, u64::from(length)),
        None => put_null(writer, key),
    }
}

/// Prints true, false, or null.
pub(crate) fn put_truth(
    writer: &mut Writer,
    key: &str,
    truth: Option<bool>,
) -> Result<(), AllocError>
    ensures { PrintsMembers result writer.old writer.new ((key.now, boolean_or_null truth) ∷ []) }
{
    match truth {
        Some(truth) => put_boolean(writer, key, truth),
        None => put_null(writer, key),
    }
}

/// Prints the kind, and the type byte with what it says of the file: whether it is closed, and
/// whether it is locked.
pub(crate) fn put_type(
    writer: &mut Writer,
    kind: Option<Kind>,
    type_byte: u8,
    closed: bool,
    locked: bool,
) -> Result<(), AllocError>
    ensures { PrintsMembers result writer.old writer.new (type_members kind type_byte closed locked) }
{
    put_kind(writer, "kind", kind)?;
    put_number(writer, "type", u64::from(type_byte))?;
    put_boolean(writer, "closed", closed)?;
    put_boolean(writer, "locked", locked)
}

/// Prints the size that the directory has, the pair of the first block, and the length of a record.
pub(crate) fn put_entry(
    writer: &mut Writer,
    size: u16,
    first: (u8, u8),
    record_length: Option<u8>,
) -> Result<(), AllocError>
    ensures { PrintsMembers result writer.old writer.new (entry_members size first record_length) }
{
    let (track, sector) = first;
    put_number(writer, "size", u64::from(size))?;
    put_pair(writer, "first", track, sector)?;
    put_record(writer, "record", record_length)
}

/// Prints how many blocks the data chain and the side chain have.
pub(crate) fn put_ways(
    writer: &mut Writer,
    blocks: Option<usize>,
    side: Option<usize>,
) -> Result<(), AllocError>
    ensures { PrintsMembers result writer.old writer.new (way_members blocks side) }
{
    put_count(writer, "blocks", blocks)?;
    put_count(writer, "side", side)
}

/// Prints the content: how many bytes it has, and their digest.
pub(crate) fn put_content(
    scratch: &mut Vec<u8>,
    writer: &mut Writer,
    content: Option<Content>,
) -> Result<(), AllocError>
    ensures { PrintsMembers result writer.old writer.new (content_members content) }
{
    match content {
        Some(content) => {
            put_number(writer, "bytes", content.bytes as u64)?;
            put_hexadecimal(scratch, writer, "sha256", &content.digest)
        }
        None => {
            put_null(writer, "bytes")?;
            put_null(writer, "sha256")
        }
    }
}

/// Prints an array of reasons.
fn put_flaws(writer: &mut Writer, flaws: &[Flaw]) -> Result<(), AllocError>
    ensures { Prints result writer.old writer.new (array_of (map flaw_value flaws.now)) }
{
    writer.begin_array()?;
    for flaw in flaws {
        writer.string(flaw_word(*flaw))?;
    }
    writer.end_array()
}

/// Prints an array of numbers.
fn put_numbers(writer: &mut Writer, numbers: &[u8]) -> Result<(), AllocError>
    ensures { Prints result writer.old writer.new (array_of (map numeral numbers.now)) }
{
    writer.begin_array()?;
    for number in numbers {
        writer.u64(u64::from(*number))?;
    }
    writer.end_array()
}

/// Prints why a file is not whole.
pub(crate) fn put_why(writer: &mut Writer, flaws: &[Flaw]) -> Result<(), AllocError>
    ensures { PrintsMembers result writer.old writer.new ((codes "why", array_of (map flaw_value flaws.now)) ∷ []) }
{
    writer.key("why")?;
    put_flaws(writer, flaws)
}

/// Prints the numbers of the conditions that a file breaks.
pub(crate) fn put_conditions(writer: &mut Writer, numbers: &[u8]) -> Result<(), AllocError>
    ensures { PrintsMembers result writer.old writer.new ((codes "conditions", array_of (map numeral numbers.now)) ∷ []) }
{
    writer.key("conditions")?;
    put_numbers(writer, numbers)
}

/// Prints whether the file is whole, why not, the conditions that it breaks, and how many of its
/// blocks have a read error.
fn put_state(writer: &mut Writer, row: &FileRow) -> Result<(), AllocError>
    ensures { PrintsMembers result writer.old writer.new (file_state_members row.now) }
{
    put_truth(writer, "whole", row.whole)?;
    put_why(writer, row.why.as_slice())?;
    put_conditions(writer, row.conditions.as_slice())?;
    put_number(writer, "read_errors", row.read_errors as u64)
}

/// Prints the members of a file, from its name to its read errors; the image and the slot are not
/// among them.
pub fn put_file_members(
    scratch: &mut Vec<u8>,
    writer: &mut Writer,
    row: &FileRow,
) -> Result<(), AllocError>
    ensures { PrintsMembers result writer.old writer.new (file_members row.now) }
{
    put_names(scratch, writer, &row.field)?;
    put_type(writer, row.kind, row.type_byte, row.closed, row.locked)?;
    put_entry(writer, row.size, row.first, row.record)?;
    put_ways(writer, row.blocks, row.side)?;
    put_content(scratch, writer, row.content)?;
    put_state(writer, row)
}
