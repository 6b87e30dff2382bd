//! Faults and read errors as JSON.
ghost use Rattle.std.specs.Prelude.{◌≡◌, [], ◌∷◌, map};
ghost use Rattle.json.specs.Json.{string};
ghost use Rattle.out_json_csv.specs.Values.{Prints, PrintsMembers, array_of, numeral_or_null};
ghost use Rattle.out_json_csv.specs.Pairs.{block_field};
ghost use Rattle.cmd_check.specs.Findings.{last_value, end_word as end_word_of, end_value, end_members, block_members, fault_members, fault_object, read_error_object};

use crate::owner::{part_word, put_owners, put_slot};
use d64_image::BlockNo;
use d64_survey::{Fault, LastBlock, ReadError, Survey, WayEnd, drive_status};
use json::Writer;
use out_json_csv::{put_null, put_number, put_pair, put_text};
use std::alloc::AllocError;

/// Prints a member whose value is the pair of a block.
fn put_block(writer: &mut Writer, key: &str, block: BlockNo) -> Result<(), AllocError>
    ensures { PrintsMembers result writer.old writer.new ((key.now, string (block_field block)) ∷ []) }
{
    put_pair(writer, key, block.track(), block.sector())
}

/// Prints where a chain ends: at its last block, or null.
fn put_last(writer: &mut Writer, key: &str, at: LastBlock) -> Result<(), AllocError>
    ensures { PrintsMembers result writer.old writer.new ((key.now, last_value at) ∷ []) }
{
    match at {
        LastBlock::Missing => put_null(writer, key),
        LastBlock::Block(block) => put_block(writer, key, block),
    }
}

/// Returns the word for the end of a chain.
fn end_word(end: WayEnd) -> &'static str
    ensures { result.now ≡ end_word_of end }
{
    match end {
        WayEnd::End => "end",
        WayEnd::Off(..) => "off",
        WayEnd::Loop(..) => "loop",
    }
}

/// Prints the pair at which a chain ends, or null.
fn put_end(writer: &mut Writer, key: &str, end: WayEnd) -> Result<(), AllocError>
    ensures { PrintsMembers result writer.old writer.new ((key.now, end_value end) ∷ []) }
{
    match end {
        WayEnd::End => put_null(writer, key),
        WayEnd::Off(track, sector) | WayEnd::Loop(track, sector) => put_pair(
            writer, key, track, sector,
        ),
    }
}

/// Prints the members of the end of a chain: its last block, the word for its end, and the pair
/// there.
fn put_way(writer: &mut Writer, at: LastBlock, end: WayEnd) -> Result<(), AllocError>
    ensures { PrintsMembers result writer.old writer.new (end_members at end) }
{
    put_last(writer, "at", at)?;
    put_text(writer, "end", end_word(end))?;
    put_end(writer, "to", end)
}

/// Prints the members of a block and its owners.
fn put_owned(
    scratch: &mut Vec<u8>,
    writer: &mut Writer,
    survey: &Survey,
    block: BlockNo,
) -> Result<(), AllocError>
    ensures { PrintsMembers result writer.old writer.new (block_members survey.now block) }
{
    put_block(writer, "block", block)?;
    put_owners(scratch, writer, survey, block)
}

/// Prints what a fault has beside its number.
fn put_fault_members(
    scratch: &mut Vec<u8>,
    writer: &mut Writer,
    survey: &Survey,
    fault: &Fault,
) -> Result<(), AllocError>
    ensures { PrintsMembers result writer.old writer.new (fault_members survey.now fault.now) }
{
    match fault {
        Fault::WrongCount(track, count, marked) => {
            put_number(writer, "track", u64::from(*track))?;
            put_number(writer, "count", u64::from(*count))?;
            put_number(writer, "marked", u64::from(*marked))
        }
        Fault::BrokenDirectory(at, end) => put_way(writer, *at, *end),
        Fault::UnknownKind(slot, type_byte) => {
            put_slot(scratch, writer, survey, *slot)?;
            put_number(writer, "type", u64::from(*type_byte))
        }
        Fault::BrokenFile(slot, part, at, end) => {
            put_slot(scratch, writer, survey, *slot)?;
            put_text(writer, "what", part_word(*part))?;
            put_way(writer, *at, *end)
        }
        Fault::Shared(block) | Fault::MarkedFree(block) => put_owned(
            scratch, writer, survey, *block,
        ),
    }
}

/// Prints a fault.
fn put_fault(
    scratch: &mut Vec<u8>,
    writer: &mut Writer,
    survey: &Survey,
    fault: &Fault,
) -> Result<(), AllocError>
    ensures { Prints result writer.old writer.new (fault_object survey.now fault.now) }
{
    writer.begin_object()?;
    put_number(writer, "condition", u64::from(fault.number()))?;
    put_fault_members(scratch, writer, survey, fault)?;
    writer.end_object()
}

/// Prints an array of faults.
pub(crate) fn put_faults(
    scratch: &mut Vec<u8>,
    writer: &mut Writer,
    survey: &Survey,
    faults: &[Fault],
) -> Result<(), AllocError>
    ensures { Prints result writer.old writer.new (array_of (map (fault_object survey.now) faults.now)) }
{
    writer.begin_array()?;
    for fault in faults {
        put_fault(scratch, writer, survey, fault)?;
    }
    writer.end_array()
}

/// Prints the drive's status for a read code, or null.
fn put_status(writer: &mut Writer, key: &str, status: Option<u8>) -> Result<(), AllocError>
    ensures { PrintsMembers result writer.old writer.new ((key.now, numeral_or_null status) ∷ []) }
{
    match status {
        Some(status) => put_number(writer, key, u64::from(status)),
        None => put_null(writer, key),
    }
}

/// Prints a read error.
fn put_read_error(
    scratch: &mut Vec<u8>,
    writer: &mut Writer,
    survey: &Survey,
    error: &ReadError,
) -> Result<(), AllocError>
    ensures { Prints result writer.old writer.new (read_error_object survey.now error.now) }
{
    writer.begin_object()?;
    put_block(writer, "block", error.block)?;
    put_number(writer, "code", u64::from(error.code))?;
    put_status(writer, "status", drive_status(error.code))?;
    put_owners(scratch, writer, survey, error.block)?;
    writer.end_object()
}

/// Prints an array of read errors.
pub(crate) fn put_read_errors(
    scratch: &mut Vec<u8>,
    writer: &mut Writer,
    survey: &Survey,
    errors: &[ReadError],
) -> Result<(), AllocError>
    ensures { Prints result writer.old writer.new (array_of (map (read_error_object survey.now) errors.now)) }
{
    writer.begin_array()?;
    for error in errors {
        put_read_error(scratch, writer, survey, error)?;
    }
    writer.end_array()
}
