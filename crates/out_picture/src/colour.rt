//! The colours of blocks.
ghost use Rattle.std.specs.Prelude.{◌≡◌, ◌++◌, OnOk};
ghost use Rattle.out_picture.specs.Colours.{colour_of_slot, colour_of_owner, colour_of_unowned, colour_of, class_of};

use crate::block_state::is_marked_free;
use d64_files::SlotNo;
use d64_image::{BlockNo, Image};
use d64_survey::{Owner, Survey};
use out_messages::push_number;
use std::alloc::AllocError;

/// The number of colours for files.
const FILE_COLOURS: usize = 16;

/// The colour of a block.
#[derive(Clone, Copy, PartialEq, Eq)]
pub(crate) enum Colour {
    Free,
    Unowned,
    System,
    /// One of the sixteen colours of files, from 0.
    File(u8),
}

/// Returns the colour of the file of a slot.
pub(crate) fn colour_of_slot(slot: SlotNo) -> Colour
    ensures { result ≡ colour_of_slot slot }
{
    Colour::File((slot.place() % FILE_COLOURS) as u8)
}

/// Returns the colour of an owner's blocks.
fn colour_of_owner(owner: Owner) -> Colour
    ensures { result ≡ colour_of_owner owner }
{
    match owner {
        Owner::Map | Owner::Directory => Colour::System,
        Owner::File(slot, _) => colour_of_slot(slot),
    }
}

/// Returns the colour of a block without owners.
fn colour_of_unowned(image: &Image, block: BlockNo) -> Colour
    ensures { result ≡ colour_of_unowned image.now block }
{
    if is_marked_free(image, block) {
        Colour::Free
    } else {
        Colour::Unowned
    }
}

/// Returns the colour of a block: that of its first owner, if it has one.
#[tactic(auto, unfolding(crate::specs::Colours::colour_of))]
pub(crate) fn colour_of(survey: &Survey, block: BlockNo) -> Colour
    ensures { result ≡ colour_of survey.now block }
{
    match survey.owners(block).shown().first() {
        Some(owner) => colour_of_owner(*owner),
        None => colour_of_unowned(survey.image(), block),
    }
}

/// Appends the class of the colour.
#[tactic(auto, unfolding(crate::specs::Colours::class_of))]
pub(crate) fn push_class(out: &mut Vec<u8>, colour: Colour) -> Result<(), AllocError>
    ensures { OnOk result (out.new.items ≡ out.old.items ++ class_of colour) }
{
    match colour {
        Colour::Free => out.extend_from_slice(b"free"),
        Colour::Unowned => out.extend_from_slice(b"unowned"),
        Colour::System => out.extend_from_slice(b"system"),
        Colour::File(number) => {
            out.extend_from_slice(b"c")?;
            push_number(out, usize::from(number))
        }
    }
}
