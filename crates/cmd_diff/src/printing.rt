//! Printing what changed, in one of the two forms.
ghost use Rattle.std.specs.Prelude.{◌≡◌, ◌∷◌, ◌++◌, codes, option_map, IfOk, OnOk};
ghost use Rattle.d64_inventory.specs.Rows.{FileRowView};
ghost use Rattle.cmd_diff.specs.Changes.{DiskChanged, Added, Removed, FileChanged, disk_change, slot_change, slot_count, slot_changes, changes};
ghost use Rattle.cmd_diff.specs.Differences.{printed_change, printed_changes, printed_list, printed_blocks, under_names, printed_difference};

use crate::blocks::{list_changed_blocks, list_changed_codes};
use crate::drafts::Drafts;
use crate::lines::{
    OTHER_BYTES, OTHER_CODES, push_added, push_blocks, push_both, push_disks, push_heading,
    push_removed,
};
use crate::objects::{blocks_json, disks_json, slot_json};
use crate::slots::slot_count;
use d64_files::SlotNo;
use d64_image::BlockNo;
use d64_inventory::{FileRow, Inventory};
use d64_survey::Inspection;
use out_files::push_file_line;
use program_arguments::DiffForm;
use std::alloc::AllocError;
use std::mem;

/// Appends what is printed of two disks whose objects differ.
fn print_disks(
    form: DiffForm,
    drafts: &mut Drafts,
    old: &Inspection,
    new: &Inspection,
    out: Vec<u8>,
) -> Result<Vec<u8>, AllocError>
    ensures { IfOk result (λ text. text.items ≡ out.items ++ printed_change form (DiskChanged old.now new.now)) }
{
    match form {
        DiffForm::Text => {
            let mut text = out;
            push_disks(&mut text, old, new)?;
            Ok(text)
        }
        DiffForm::Json => disks_json(&mut drafts.text, old, new, out),
    }
}

/// Appends the change of the disk, if its objects differ.
#[tactic(auto, unfolding(crate::specs::Differences::printed_changes))]
fn print_disk(
    form: DiffForm,
    drafts: &mut Drafts,
    old: &Inspection,
    new: &Inspection,
    out: Vec<u8>,
) -> Result<Vec<u8>, AllocError>
    ensures { IfOk result (λ text. text.items ≡ out.items ++ printed_changes form (disk_change old.now new.now)) }
{
    let is_same = drafts.is_same_disk(old, new)?;
    if is_same {
        return Ok(out);
    }
    print_disks(form, drafts, old, new, out)
}

/// Appends what is printed of a file that is only in the new dump.
fn print_added(
    form: DiffForm,
    drafts: &mut Drafts,
    row: &FileRow,
    out: Vec<u8>,
) -> Result<Vec<u8>, AllocError>
    ensures { IfOk result (λ text. text.items ≡ out.items ++ printed_change form (Added row.now)) }
{
    match form {
        DiffForm::Text => {
            let mut text = out;
            push_added(&mut drafts.text, &mut text, row)?;
            Ok(text)
        }
        DiffForm::Json => slot_json(&mut drafts.text, row.slot, "added", None, Some(row), out),
    }
}

/// Appends what is printed of a file that is only in the old dump.
fn print_removed(
    form: DiffForm,
    drafts: &mut Drafts,
    row: &FileRow,
    out: Vec<u8>,
) -> Result<Vec<u8>, AllocError>
    ensures { IfOk result (λ text. text.items ≡ out.items ++ printed_change form (Removed row.now)) }
{
    match form {
        DiffForm::Text => {
            let mut text = out;
            push_removed(&mut drafts.text, &mut text, row)?;
            Ok(text)
        }
        DiffForm::Json => slot_json(&mut drafts.text, row.slot, "removed", Some(row), None, out),
    }
}

/// Appends the lines of a file whose rows differ.
fn push_changed(
    drafts: &mut Drafts,
    out: &mut Vec<u8>,
    old: &FileRow,
    new: &FileRow,
) -> Result<(), AllocError>
    ensures { OnOk result (out.new.items ≡ out.old.items ++ printed_change DiffForm.Text (FileChanged old.now new.now)) }
{
    drafts.old.clear();
    push_file_line(&mut drafts.text, &mut drafts.old, old)?;
    drafts.new.clear();
    push_file_line(&mut drafts.text, &mut drafts.new, new)?;
    push_both(out, drafts.old.as_slice(), drafts.new.as_slice())
}

/// Appends what is printed of a file whose rows differ.
fn print_changed(
    form: DiffForm,
    drafts: &mut Drafts,
    old: &FileRow,
    new: &FileRow,
    out: Vec<u8>,
) -> Result<Vec<u8>, AllocError>
    ensures { IfOk result (λ text. text.items ≡ out.items ++ printed_change form (FileChanged old.now new.now)) }
{
    match form {
        DiffForm::Text => {
            let mut text = out;
            push_changed(drafts, &mut text, old, new)?;
            Ok(text)
        }
        DiffForm::Json => slot_json(
            &mut drafts.text,
            old.slot,
            "changed",
            Some(old),
            Some(new),
            out,
        ),
    }
}

/// Appends the change of a file in a slot that is used in both dumps, if its rows differ.
#[tactic(auto, unfolding(crate::specs::Differences::printed_changes))]
fn print_file(
    form: DiffForm,
    drafts: &mut Drafts,
    old: &FileRow,
    new: &FileRow,
    out: Vec<u8>,
) -> Result<Vec<u8>, AllocError>
    ensures { IfOk result (λ text. text.items ≡ out.items ++ printed_changes form (slot_change (Some old.now) (Some new.now))) }
{
    let is_same = drafts.is_same_entry(old, new)?;
    if is_same {
        return Ok(out);
    }
    print_changed(form, drafts, old, new, out)
}

/// Appends the change of a slot, by the files that it has in both dumps.
#[tactic(auto, unfolding(crate::specs::Differences::printed_changes))]
fn print_slot(
    form: DiffForm,
    drafts: &mut Drafts,
    old: Option<FileRow>,
    new: Option<FileRow>,
    out: Vec<u8>,
) -> Result<Vec<u8>, AllocError>
    ensures { IfOk result (λ text. text.items ≡ out.items ++ printed_changes form (slot_change old new)) }
{
    match (old, new) {
        (None, None) => Ok(out),
        (None, Some(new)) => print_added(form, drafts, &new, out),
        (Some(old), None) => print_removed(form, drafts, &old, out),
        (Some(old), Some(new)) => print_file(form, drafts, &old, &new, out),
    }
}

/// Appends the changes of all slots, in their order.
fn print_slots(
    form: DiffForm,
    drafts: &mut Drafts,
    old: &Inspection,
    new: &Inspection,
    out: Vec<u8>,
) -> Result<Vec<u8>, AllocError>
    ensures { IfOk result (λ text. text.items ≡ out.items ++ printed_changes form (slot_changes old.now new.now (slot_count old.now new.now))) }
{
    let mut text = out;
    let mut before = Inventory::of(old);
    let mut after = Inventory::of(new);
    for slot in 0..slot_count(old, new) {
        let old_row = before.row(SlotNo::at(slot));
        let new_row = after.row(SlotNo::at(slot));
        text = print_slot(form, drafts, old_row, new_row, text)?;
    }
    Ok(text)
}

/// Appends what is printed of blocks: a line that begins with this heading, or an object whose
/// change has this name.
fn print_block_list(
    form: DiffForm,
    heading: &[u8],
    word: &str,
    blocks: &[BlockNo],
    out: Vec<u8>,
) -> Result<Vec<u8>, AllocError>
    ensures { IfOk result (λ text. text.items ≡ out.items ++ printed_list form heading.now word.now blocks.now) }
{
    match form {
        DiffForm::Text => {
            let mut text = out;
            push_blocks(&mut text, heading, blocks)?;
            Ok(text)
        }
        DiffForm::Json => blocks_json(word, blocks, out),
    }
}

/// Appends what is printed of blocks, if there are any.
fn print_blocks(
    form: DiffForm,
    heading: &[u8],
    word: &str,
    blocks: &[BlockNo],
    out: Vec<u8>,
) -> Result<Vec<u8>, AllocError>
    ensures { IfOk result (λ text. text.items ≡ out.items ++ printed_blocks form heading.now word.now blocks.now) }
{
    match blocks {
        [] => Ok(out),
        [_, ..] => print_block_list(form, heading, word, blocks, out),
    }
}

/// Appends all changes, in their order.
pub(crate) fn print_changes(
    form: DiffForm,
    drafts: &mut Drafts,
    old: &Inspection,
    new: &Inspection,
    out: Vec<u8>,
) -> Result<Vec<u8>, AllocError>
    ensures { IfOk result (λ text. text.items ≡ out.items ++ printed_changes form (changes old.now new.now)) }
{
    let disk = print_disk(form, drafts, old, new, out)?;
    let files = print_slots(form, drafts, old, new, disk)?;
    list_changed_blocks(old.image(), new.image(), &mut drafts.blocks)?;
    let blocks = print_blocks(form, OTHER_BYTES, "blocks", drafts.blocks.as_slice(), files)?;
    list_changed_codes(old, new, &mut drafts.blocks)?;
    print_blocks(form, OTHER_CODES, "codes", drafts.blocks.as_slice(), blocks)
}

/// Appends lines for people, with the names of the dumps before them.
#[tactic(auto, unfolding(crate::specs::Differences::under_names))]
fn push_under_names(
    out: &mut Vec<u8>,
    old_name: &[u8],
    new_name: &[u8],
    lines: &[u8],
) -> Result<(), AllocError>
    ensures { OnOk result (out.new.items ≡ out.old.items ++ under_names old_name.now new_name.now lines.now) }
{
    if lines.is_empty() {
        return out.extend_from_slice(b"only good read codes differ\n");
    }
    push_heading(out, old_name, new_name)?;
    out.extend_from_slice(lines)
}

/// Appends all changes for people, with the names of the dumps before them.
pub(crate) fn push_difference(
    drafts: &mut Drafts,
    old_name: &[u8],
    new_name: &[u8],
    old: &Inspection,
    new: &Inspection,
    out: &mut Vec<u8>,
) -> Result<(), AllocError>
    ensures { OnOk result (out.new.items ≡ out.old.items ++ printed_difference DiffForm.Text old_name.now new_name.now old.now new.now) }
{
    let mut lines = mem::replace(&mut drafts.lines, Vec::new(drafts.alloc));
    lines.clear();
    let lines = print_changes(DiffForm::Text, drafts, old, new, lines)?;
    push_under_names(out, old_name, new_name, lines.as_slice())?;
    drafts.lines = lines;
    Ok(())
}
