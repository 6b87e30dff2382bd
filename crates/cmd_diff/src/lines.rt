//! What is printed of a change for people.
ghost use Rattle.std.specs.Prelude.{◌≡◌, ◌++◌, OnOk};
ghost use Rattle.std.specs.List.{flat_map};
ghost use Rattle.out_files.specs.FileTable.{slot_line};
ghost use Rattle.cmd_diff.specs.ChangeText.{read_codes_text, dos_text, tracks_text, free_text, disk_size_text, disk_line, old_line, new_line, same_line, both_lines, listed_block, blocks_line, heading};

use d64_files::disk_dos;
use d64_image::{BlockNo, Image};
use d64_inventory::FileRow;
use d64_map::blocks_free;
use d64_survey::Inspection;
use host_storage::push_shown;
use out_files::push_file_line;
use out_messages::{push_block, push_count, push_label, push_number};
use petscii::push_spelling;
use std::alloc::AllocError;

/// What a line of the old dump begins with, and one of the new dump.
pub(crate) const OLD: &[u8] = b"-";

pub(crate) const NEW: &[u8] = b"+";

/// What the line of blocks with other bytes begins with, and that of blocks with another read code.
pub(crate) const OTHER_BYTES: &[u8] = b"blocks that differ:";

pub(crate) const OTHER_CODES: &[u8] = b"blocks whose read codes differ:";

/// Returns what ends the disk's line.
fn codes_text(has_codes: bool) -> &'static [u8]
    ensures { result.now ≡ read_codes_text has_codes }
{
    if has_codes {
        b", with read codes\n"
    } else {
        b"\n"
    }
}

/// Appends the DOS version.
#[tactic(auto, unfolding(crate::specs::ChangeText::dos_text))]
fn push_dos(out: &mut Vec<u8>, image: &Image) -> Result<(), AllocError>
    ensures { OnOk result (out.new.items ≡ out.old.items ++ dos_text image.now) }
{
    out.extend_from_slice(b" ")?;
    push_spelling(out, disk_dos(image))?;
    out.extend_from_slice(b", ")
}

/// Appends how many tracks there are.
#[tactic(auto, unfolding(crate::specs::ChangeText::tracks_text))]
fn push_tracks(out: &mut Vec<u8>, image: &Image) -> Result<(), AllocError>
    ensures { OnOk result (out.new.items ≡ out.old.items ++ tracks_text image.now) }
{
    push_number(out, usize::from(image.tracks()))?;
    out.extend_from_slice(b" tracks, ")
}

/// Appends how many blocks are free.
#[tactic(auto, unfolding(crate::specs::ChangeText::free_text))]
fn push_free(out: &mut Vec<u8>, image: &Image) -> Result<(), AllocError>
    ensures { OnOk result (out.new.items ≡ out.old.items ++ free_text image.now) }
{
    push_count(out, blocks_free(image) as usize, b"block")?;
    out.extend_from_slice(b" free")
}

/// Appends what the disk's line says after its label.
#[tactic(auto, unfolding(crate::specs::ChangeText::disk_size_text))]
fn push_size(out: &mut Vec<u8>, all: &Inspection) -> Result<(), AllocError>
    ensures { OnOk result (out.new.items ≡ out.old.items ++ disk_size_text all.now) }
{
    push_dos(out, all.image())?;
    push_tracks(out, all.image())?;
    push_free(out, all.image())?;
    out.extend_from_slice(codes_text(all.codes().is_some()))
}

/// Appends the disk's line.
#[tactic(auto, unfolding(crate::specs::ChangeText::disk_line))]
fn push_disk(out: &mut Vec<u8>, all: &Inspection) -> Result<(), AllocError>
    ensures { OnOk result (out.new.items ≡ out.old.items ++ disk_line all.now) }
{
    out.extend_from_slice(b"disk ")?;
    push_label(out, all.image())?;
    push_size(out, all)
}

/// Appends the lines of the disk, before and after.
pub(crate) fn push_disks(
    out: &mut Vec<u8>,
    old: &Inspection,
    new: &Inspection,
) -> Result<(), AllocError>
    ensures { OnOk result (out.new.items ≡ out.old.items ++ (old_line (disk_line old.now) ++ new_line (disk_line new.now))) }
{
    out.extend_from_slice(OLD)?;
    push_disk(out, old)?;
    out.extend_from_slice(NEW)?;
    push_disk(out, new)
}

/// Appends a line of the old dump.
fn push_old(out: &mut Vec<u8>, line: &[u8]) -> Result<(), AllocError>
    ensures { OnOk result (out.new.items ≡ out.old.items ++ old_line line.now) }
{
    out.extend_from_slice(OLD)?;
    out.extend_from_slice(line)
}

/// Appends a line of the new dump.
fn push_new(out: &mut Vec<u8>, line: &[u8]) -> Result<(), AllocError>
    ensures { OnOk result (out.new.items ≡ out.old.items ++ new_line line.now) }
{
    out.extend_from_slice(NEW)?;
    out.extend_from_slice(line)
}

/// Appends the line for a file that changed although its two lines are equal, if they are.
fn push_same(out: &mut Vec<u8>, old: &[u8], new: &[u8]) -> Result<(), AllocError>
    ensures { OnOk result (out.new.items ≡ out.old.items ++ same_line old.now new.now) }
{
    if old != new {
        return Ok(());
    }
    out.extend_from_slice(b"  (the same line, but the file's content, blocks or entry differ)\n")
}

/// Appends the lines of a file, before and after.
#[tactic(auto, unfolding(crate::specs::ChangeText::both_lines))]
pub(crate) fn push_both(out: &mut Vec<u8>, old: &[u8], new: &[u8]) -> Result<(), AllocError>
    ensures { OnOk result (out.new.items ≡ out.old.items ++ both_lines old.now new.now) }
{
    push_old(out, old)?;
    push_new(out, new)?;
    push_same(out, old, new)
}

/// Appends the line of a file that is only in the old dump.
pub(crate) fn push_removed(
    scratch: &mut Vec<u8>,
    out: &mut Vec<u8>,
    row: &FileRow,
) -> Result<(), AllocError>
    ensures { OnOk result (out.new.items ≡ out.old.items ++ old_line (slot_line row.now)) }
{
    out.extend_from_slice(OLD)?;
    push_file_line(scratch, out, row)
}

/// Appends the line of a file that is only in the new dump.
pub(crate) fn push_added(
    scratch: &mut Vec<u8>,
    out: &mut Vec<u8>,
    row: &FileRow,
) -> Result<(), AllocError>
    ensures { OnOk result (out.new.items ≡ out.old.items ++ new_line (slot_line row.now)) }
{
    out.extend_from_slice(NEW)?;
    push_file_line(scratch, out, row)
}

/// Appends blocks, each after a space.
fn push_listed(out: &mut Vec<u8>, blocks: &[BlockNo]) -> Result<(), AllocError>
    ensures { OnOk result (out.new.items ≡ out.old.items ++ flat_map listed_block blocks.now) }
{
    for block in blocks {
        out.extend_from_slice(b" ")?;
        push_block(out, *block)?;
    }
    Ok(())
}

/// Appends a line of blocks.
#[tactic(auto, unfolding(crate::specs::ChangeText::blocks_line))]
pub(crate) fn push_blocks(
    out: &mut Vec<u8>,
    word: &[u8],
    blocks: &[BlockNo],
) -> Result<(), AllocError>
    ensures { OnOk result (out.new.items ≡ out.old.items ++ blocks_line word.now blocks.now) }
{
    out.extend_from_slice(word)?;
    push_listed(out, blocks)?;
    out.extend_from_slice(b"\n")
}

/// Appends the names of the dumps.
#[tactic(auto, unfolding(crate::specs::ChangeText::heading))]
pub(crate) fn push_heading(out: &mut Vec<u8>, old: &[u8], new: &[u8]) -> Result<(), AllocError>
    ensures { OnOk result (out.new.items ≡ out.old.items ++ heading old.now new.now) }
{
    out.extend_from_slice(b"--- ")?;
    push_shown(out, old)?;
    out.extend_from_slice(b"\n+++ ")?;
    push_shown(out, new)?;
    out.extend_from_slice(b"\n")
}
