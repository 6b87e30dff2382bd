//! Why files may be missing from a table.
ghost use Rattle.std.specs.Prelude.{◌≡◌, ◌++◌, nat_eq, OnOk};
ghost use Rattle.std.specs.List.{list_any};
ghost use Rattle.out_files.specs.FileTable.{broken_line, broken_lines, is_of_directory, unreadable_line, unreadable_lines, missing_lines};

use d64_image::BlockNo;
use d64_map::map_block;
use d64_survey::{Fault, Inspection, ReadError, Survey};
use out_messages::{push_fault, push_read_error};
use std::alloc::AllocError;

/// How each of these lines begins, and how it ends.
const START: &[u8] = b"  ";

const END: &[u8] = b", so files may be missing\n";

/// The number of the condition that the directory is a whole chain.
const DIRECTORY_CONDITION: u8 = 2;

/// Appends the line of a fault of the directory's chain.
#[tactic(auto, unfolding(crate::specs::FileTable::broken_line, out_messages::specs::Words::line_below))]
fn push_broken_line(out: &mut Vec<u8>, survey: &Survey, fault: &Fault) -> Result<(), AllocError>
    ensures { OnOk result (out.new.items ≡ out.old.items ++ broken_line survey.now fault.now) }
{
    if fault.number() != DIRECTORY_CONDITION {
        return Ok(());
    }
    out.extend_from_slice(START)?;
    push_fault(out, survey, *fault)?;
    out.extend_from_slice(END)
}

/// Appends a line for each fault of the directory's chain.
#[tactic(auto, unfolding(crate::specs::FileTable::broken_lines))]
fn push_broken_lines(out: &mut Vec<u8>, survey: &Survey, list: &[Fault]) -> Result<(), AllocError>
    ensures { OnOk result (out.new.items ≡ out.old.items ++ broken_lines survey.now list.now) }
{
    for fault in list {
        push_broken_line(out, survey, fault)?;
    }
    Ok(())
}

/// Whether a block is one of these.
fn is_among(block: BlockNo, blocks: &[BlockNo]) -> bool
    ensures { result ≡ list_any (λ own. nat_eq own block) blocks.now }
{
    blocks.iter().any(|own| *own == block)
}

/// Whether a block is 18/0 or one of the directory's chain.
fn is_of_directory(survey: &Survey, block: BlockNo) -> bool
    ensures { result ≡ is_of_directory survey.now block }
{
    map_block() == block || is_among(block, survey.directory())
}

/// Appends the line of a read error in such a block.
#[tactic(auto, unfolding(crate::specs::FileTable::unreadable_line, out_messages::specs::Words::line_below))]
fn push_unreadable_line(
    out: &mut Vec<u8>,
    survey: &Survey,
    error: &ReadError,
) -> Result<(), AllocError>
    ensures { OnOk result (out.new.items ≡ out.old.items ++ unreadable_line survey.now error.now) }
{
    if !is_of_directory(survey, error.block) {
        return Ok(());
    }
    out.extend_from_slice(START)?;
    push_read_error(out, survey, *error)?;
    out.extend_from_slice(END)
}

/// Appends a line for each read error in such a block.
#[tactic(auto, unfolding(crate::specs::FileTable::unreadable_lines))]
fn push_unreadable_lines(
    out: &mut Vec<u8>,
    survey: &Survey,
    list: &[ReadError],
) -> Result<(), AllocError>
    ensures { OnOk result (out.new.items ≡ out.old.items ++ unreadable_lines survey.now list.now) }
{
    for error in list {
        push_unreadable_line(out, survey, error)?;
    }
    Ok(())
}

/// Appends a line for each reason why files may be missing from a table: the directory is not a
/// whole chain, or 18/0 or a block of the directory was read with an error.
#[tactic(auto, unfolding(crate::specs::FileTable::missing_lines))]
pub(crate) fn push_missing_lines(
    out: &mut Vec<u8>,
    inspection: &Inspection,
) -> Result<(), AllocError>
    ensures { OnOk result (out.new.items ≡ out.old.items ++ missing_lines inspection.now) }
{
    let survey = inspection.survey();
    push_broken_lines(out, survey, inspection.faults())?;
    push_unreadable_lines(out, survey, inspection.read_errors())?;
    Ok(())
}
