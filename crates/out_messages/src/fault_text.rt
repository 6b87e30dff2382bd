//! The faults of an image and its read errors, in words.
ghost use Rattle.std.specs.Prelude.{◌≡◌, ◌++◌, false, codes, OnOk};
ghost use Rattle.out_messages.specs.OwnerText.{file_part};
ghost use Rattle.out_messages.specs.FaultText.{last_text, are_many, breaks_text, loops_text, ends_text, off_text, loop_text, end_text, count_text, wrong_kind_text, owned_text, fault_text, drive_status_text, belonging_text, read_error_text};

use crate::number::push_number;
use crate::owner_text::{push_owners, push_part};
use crate::words::{push_block, push_count, push_pair};
use d64_files::SlotNo;
use d64_image::BlockNo;
use d64_survey::{Fault, LastBlock, Part, ReadError, Survey, WayEnd, drive_status};
use std::alloc::AllocError;

/// Appends the last block of a chain, or what names its first block if the chain has none.
#[tactic(auto, unfolding(crate::specs::FaultText::last_text))]
fn push_last(out: &mut Vec<u8>, at: LastBlock) -> Result<(), AllocError>
    ensures { OnOk result (out.new.items ≡ out.old.items ++ last_text at) }
{
    match at {
        LastBlock::Missing => out.extend_from_slice(b"its first block"),
        LastBlock::Block(block) => push_block(out, block),
    }
}

/// Whether the name for a part of a file is a plural.
fn are_many(part: Part) -> bool
    ensures { result ≡ are_many part }
{
    match part {
        Part::Data => false,
        Part::Side => true,
    }
}

/// Returns the verb for a chain that leads off the disk; `many` asks for the plural.
fn breaks_text(many: bool) -> &'static [u8]
    ensures { result.now ≡ breaks_text many }
{
    if many {
        b" break off: "
    } else {
        b" breaks off: "
    }
}

/// Returns the verb for a chain that leads back; `many` asks for the plural.
fn loops_text(many: bool) -> &'static [u8]
    ensures { result.now ≡ loops_text many }
{
    if many { b" loop: " } else { b" loops: " }
}

/// Returns the verb for a chain that is whole; `many` asks for the plural.
fn ends_text(many: bool) -> &'static [u8]
    ensures { result.now ≡ ends_text many }
{
    if many { b" are whole" } else { b" is whole" }
}

/// Appends that a chain leads off the disk; `many` asks for the plural.
#[tactic(auto, unfolding(crate::specs::FaultText::off_text))]
fn push_off(
    out: &mut Vec<u8>,
    many: bool,
    at: LastBlock,
    track: u8,
    sector: u8,
) -> Result<(), AllocError>
    ensures { OnOk result (out.new.items ≡ out.old.items ++ off_text many at (track, sector)) }
{
    out.extend_from_slice(breaks_text(many))?;
    push_last(out, at)?;
    out.extend_from_slice(b" leads to ")?;
    push_pair(out, track, sector)?;
    out.extend_from_slice(b", which is not on the disk")?;
    Ok(())
}

/// Appends that a chain leads back to a block of its own; `many` asks for the plural.
#[tactic(auto, unfolding(crate::specs::FaultText::loop_text))]
fn push_loop(
    out: &mut Vec<u8>,
    many: bool,
    at: LastBlock,
    track: u8,
    sector: u8,
) -> Result<(), AllocError>
    ensures { OnOk result (out.new.items ≡ out.old.items ++ loop_text many at (track, sector)) }
{
    out.extend_from_slice(loops_text(many))?;
    push_last(out, at)?;
    out.extend_from_slice(b" leads back to ")?;
    push_pair(out, track, sector)?;
    Ok(())
}

/// Appends how a chain ends that is not whole, or how several do.
fn push_end(out: &mut Vec<u8>, many: bool, at: LastBlock, end: WayEnd) -> Result<(), AllocError>
    ensures { OnOk result (out.new.items ≡ out.old.items ++ end_text many at end) }
{
    match end {
        WayEnd::End => out.extend_from_slice(ends_text(many)),
        WayEnd::Off(track, sector) => push_off(out, many, at, track, sector),
        WayEnd::Loop(track, sector) => push_loop(out, many, at, track, sector),
    }
}

/// Appends the map's count of a track, and what it marks there.
#[tactic(auto, unfolding(crate::specs::FaultText::count_text))]
fn push_track_counts(out: &mut Vec<u8>, track: u8, count: u8, marked: u8) -> Result<(), AllocError>
    ensures { OnOk result (out.new.items ≡ out.old.items ++ count_text track count marked) }
{
    out.extend_from_slice(b"track ")?;
    push_number(out, usize::from(track))?;
    out.extend_from_slice(b": the map counts ")?;
    push_count(out, usize::from(count), b"free block")?;
    out.extend_from_slice(b" and marks ")?;
    push_number(out, usize::from(marked))?;
    Ok(())
}

/// Appends that a type byte has no kind.
#[tactic(auto, unfolding(crate::specs::FaultText::wrong_kind_text))]
fn push_type(
    out: &mut Vec<u8>,
    survey: &Survey,
    slot: SlotNo,
    type_byte: u8,
) -> Result<(), AllocError>
    ensures { OnOk result (out.new.items ≡ out.old.items ++ wrong_kind_text survey.now slot type_byte) }
{
    push_part(out, survey, slot, Part::Data)?;
    out.extend_from_slice(b" has the type byte ")?;
    push_number(out, usize::from(type_byte))?;
    out.extend_from_slice(b", which is not a file type")?;
    Ok(())
}

/// Appends a block, a text, and the owners of the block.
fn push_owned(
    out: &mut Vec<u8>,
    survey: &Survey,
    block: BlockNo,
    words: &[u8],
) -> Result<(), AllocError>
    ensures { OnOk result (out.new.items ≡ out.old.items ++ owned_text survey.now block words.now) }
{
    push_block(out, block)?;
    out.extend_from_slice(words)?;
    push_owners(out, survey, block)
}

/// Appends how the directory ends.
fn push_directory(out: &mut Vec<u8>, at: LastBlock, end: WayEnd) -> Result<(), AllocError>
    ensures { OnOk result (out.new.items ≡ out.old.items ++ (codes "the directory" ++ end_text false at end)) }
{
    out.extend_from_slice(b"the directory")?;
    push_end(out, false, at, end)
}

/// Appends how a part of a file ends.
fn push_file(
    out: &mut Vec<u8>,
    survey: &Survey,
    file: (SlotNo, Part),
    at: LastBlock,
    end: WayEnd,
) -> Result<(), AllocError>
    ensures { OnOk result (out.new.items ≡ out.old.items ++ (file_part survey.now file.0 file.1 ++ end_text (are_many file.1) at end)) }
{
    push_part(out, survey, file.0, file.1)?;
    push_end(out, are_many(file.1), at, end)
}

/// Appends a fault in words.
#[tactic(auto, unfolding(crate::specs::FaultText::fault_text))]
pub fn push_fault(out: &mut Vec<u8>, survey: &Survey, fault: Fault) -> Result<(), AllocError>
    ensures { OnOk result (out.new.items ≡ out.old.items ++ fault_text survey.now fault) }
{
    match fault {
        Fault::WrongCount(track, count, marked) => push_track_counts(out, track, count, marked),
        Fault::BrokenDirectory(at, end) => push_directory(out, at, end),
        Fault::UnknownKind(slot, type_byte) => push_type(out, survey, slot, type_byte),
        Fault::BrokenFile(slot, part, at, end) => push_file(out, survey, (slot, part), at, end),
        Fault::Shared(block) => push_owned(out, survey, block, b" is shared by "),
        Fault::MarkedFree(block) => push_owned(
            out,
            survey,
            block,
            b" is marked free, but belongs to ",
        ),
    }
}

/// Appends the drive's status for a read code, if it has one.
#[tactic(auto, unfolding(crate::specs::FaultText::drive_status_text))]
pub fn push_status(out: &mut Vec<u8>, status: Option<u8>) -> Result<(), AllocError>
    ensures { OnOk result (out.new.items ≡ out.old.items ++ drive_status_text status) }
{
    match status {
        Some(number) => {
            out.extend_from_slice(b", drive error ")?;
            push_number(out, usize::from(number))
        }
        None => Ok(()),
    }
}

/// Appends the owners of a block, if it has any.
#[tactic(auto, unfolding(crate::specs::FaultText::belonging_text))]
fn push_belonging(out: &mut Vec<u8>, survey: &Survey, block: BlockNo) -> Result<(), AllocError>
    ensures { OnOk result (out.new.items ≡ out.old.items ++ belonging_text survey.now block) }
{
    if survey.owners(block).count() == 0 {
        return out.extend_from_slice(b", belongs to no file");
    }
    out.extend_from_slice(b", belongs to ")?;
    push_owners(out, survey, block)?;
    Ok(())
}

/// Appends a read error in words.
#[tactic(auto, unfolding(crate::specs::FaultText::read_error_text))]
pub fn push_read_error(
    out: &mut Vec<u8>,
    survey: &Survey,
    error: ReadError,
) -> Result<(), AllocError>
    ensures { OnOk result (out.new.items ≡ out.old.items ++ read_error_text survey.now error) }
{
    push_block(out, error.block)?;
    out.extend_from_slice(b" could not be read: code ")?;
    push_number(out, usize::from(error.code))?;
    push_status(out, drive_status(error.code))?;
    push_belonging(out, survey, error.block)?;
    Ok(())
}
