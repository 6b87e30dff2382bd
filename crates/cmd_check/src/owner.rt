//! The owners of a block as JSON.
ghost use Rattle.std.specs.Prelude.{◌≡◌, map};
ghost use Rattle.d64_survey.specs.Owners.{owners_of};
ghost use Rattle.out_json_csv.specs.Values.{Prints, PrintsMembers, array_of};
ghost use Rattle.cmd_check.specs.Owners.{part_word as part_word_of, owner_word as owner_word_of, slot_members, owner_object, more_than_eight, owner_members};

use d64_files::SlotNo;
use d64_image::BlockNo;
use d64_survey::{Owner, Part, SHOWN_OWNERS, Survey};
use json::Writer;
use out_json_csv::{put_name, put_number, put_text};
use std::alloc::AllocError;

/// Returns the word for a part of a file.
pub(crate) fn part_word(part: Part) -> &'static str
    ensures { result.now ≡ part_word_of part }
{
    match part {
        Part::Data => "data",
        Part::Side => "side",
    }
}

/// Returns the word for an owner.
fn owner_word(owner: Owner) -> &'static str
    ensures { result.now ≡ owner_word_of owner }
{
    match owner {
        Owner::Map => "map",
        Owner::Directory => "directory",
        Owner::File(_, part) => part_word(part),
    }
}

/// Prints the members of a slot: its number, and its name in text form.
pub(crate) fn put_slot(
    scratch: &mut Vec<u8>,
    writer: &mut Writer,
    survey: &Survey,
    slot: SlotNo,
) -> Result<(), AllocError>
    ensures { PrintsMembers result writer.old writer.new (slot_members survey.now slot) }
{
    put_number(writer, "slot", slot.place() as u64)?;
    put_name(scratch, writer, "name", survey.slot_name(slot))
}

/// Prints an owner.
fn put_owner(
    scratch: &mut Vec<u8>,
    writer: &mut Writer,
    survey: &Survey,
    owner: &Owner,
) -> Result<(), AllocError>
    ensures { Prints result writer.old writer.new (owner_object survey.now owner.now) }
{
    writer.begin_object()?;
    put_text(writer, "what", owner_word(*owner))?;
    match owner {
        Owner::Map | Owner::Directory => {}
        Owner::File(slot, _) => put_slot(scratch, writer, survey, *slot)?,
    }
    writer.end_object()
}

/// Prints an array of owners.
fn put_owner_list(
    scratch: &mut Vec<u8>,
    writer: &mut Writer,
    survey: &Survey,
    owners: &[Owner],
) -> Result<(), AllocError>
    ensures { Prints result writer.old writer.new (array_of (map (owner_object survey.now) owners.now)) }
{
    writer.begin_array()?;
    for owner in owners {
        put_owner(scratch, writer, survey, owner)?;
    }
    writer.end_array()
}

/// Prints how many owners there are beside those that are shown, if there are more.
fn put_more(writer: &mut Writer, count: usize) -> Result<(), AllocError>
    ensures { PrintsMembers result writer.old writer.new (more_than_eight count) }
{
    if count <= SHOWN_OWNERS {
        return Ok(());
    }
    put_number(writer, "more", (count - SHOWN_OWNERS) as u64)
}

/// Prints the members of the owners of a block: the first eight, and how many more there are.
pub(crate) fn put_owners(
    scratch: &mut Vec<u8>,
    writer: &mut Writer,
    survey: &Survey,
    block: BlockNo,
) -> Result<(), AllocError>
    ensures { PrintsMembers result writer.old writer.new (owner_members survey.now (owners_of survey.now block)) }
{
    let owners = survey.owners(block);
    writer.key("owners")?;
    put_owner_list(scratch, writer, survey, owners.shown())?;
    put_more(writer, owners.count())
}
