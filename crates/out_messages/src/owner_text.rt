//! Who owns a block, in words.
ghost use Rattle.std.specs.Prelude.{◌≡◌, ◌≤◌, ◌<◌, ◌++◌, length, OnOk};
ghost use Rattle.out_messages.specs.OwnerText.{part_text, file_part, owner_text, separator, owners_from, more_text, owner_list, block_owners};

use crate::number::push_number;
use crate::words::push_quoted;
use d64_files::SlotNo;
use d64_image::BlockNo;
use d64_survey::{Owner, Part, SHOWN_OWNERS, Survey};
use std::alloc::AllocError;

/// Returns what comes before the name of a file to name this part of it.
fn part_text(part: Part) -> &'static [u8]
    ensures { result.now ≡ part_text part }
{
    match part {
        Part::Data => b"",
        Part::Side => b"the side sectors of ",
    }
}

/// Appends a part of the file of a slot.
#[tactic(auto, unfolding(crate::specs::OwnerText::file_part))]
pub(crate) fn push_part(
    out: &mut Vec<u8>,
    survey: &Survey,
    slot: SlotNo,
    part: Part,
) -> Result<(), AllocError>
    ensures { OnOk result (out.new.items ≡ out.old.items ++ file_part survey.now slot part) }
{
    out.extend_from_slice(part_text(part))?;
    push_quoted(out, survey.slot_name(slot))
}

/// Appends an owner.
fn push_owner(out: &mut Vec<u8>, survey: &Survey, owner: Owner) -> Result<(), AllocError>
    ensures { OnOk result (out.new.items ≡ out.old.items ++ owner_text survey.now owner) }
{
    match owner {
        Owner::Map => out.extend_from_slice(b"the map"),
        Owner::Directory => out.extend_from_slice(b"the directory"),
        Owner::File(slot, part) => push_part(out, survey, slot, part),
    }
}

/// Returns what comes before the item at a place in a list of `count`.
fn separator(count: usize, place: usize) -> &'static [u8]
    requires { place < 100000000 }
    ensures { result.now ≡ separator count place }
{
    if place == 0 {
        return b"";
    }
    if place + 1 == count { b" and " } else { b", " }
}

/// Appends the owners that are named, in a list of `count`.
fn push_shown_owners(
    out: &mut Vec<u8>,
    survey: &Survey,
    count: usize,
    owners: &[Owner],
) -> Result<(), AllocError>
    requires { length owners.now ≤ 8 }
    ensures { OnOk result (out.new.items ≡ out.old.items ++ owners_from survey.now count 0 owners.now) }
{
    let mut place = 0;
    for owner in owners {
        out.extend_from_slice(separator(count, place))?;
        push_owner(out, survey, *owner)?;
        place += 1;
    }
    Ok(())
}

/// Appends how many owners there are beside those that are named, if there are more.
fn push_more(out: &mut Vec<u8>, count: usize) -> Result<(), AllocError>
    ensures { OnOk result (out.new.items ≡ out.old.items ++ more_text count) }
{
    if count <= SHOWN_OWNERS {
        return Ok(());
    }
    out.extend_from_slice(b" and ")?;
    push_number(out, count - SHOWN_OWNERS)?;
    out.extend_from_slice(b" more")
}

/// Appends the owners of a block, at most eight of them by name.
#[tactic(auto, unfolding(crate::specs::OwnerText::block_owners))]
pub fn push_owners(out: &mut Vec<u8>, survey: &Survey, block: BlockNo) -> Result<(), AllocError>
    ensures { OnOk result (out.new.items ≡ out.old.items ++ block_owners survey.now block) }
{
    let owners = survey.owners(block);
    push_shown_owners(out, survey, owners.count(), owners.shown())?;
    push_more(out, owners.count())
}
