//! Regions of a disk: the blocks that belong to the same file, to no file, or to the disk itself.
ghost use Rattle.std.specs.Prelude.{◌≡◌};
ghost use Rattle.std.specs.List.{slice_get};
ghost use Rattle.d64_survey.specs.Owners.{owners_of};
ghost use Rattle.out_picture.specs.Regions.{colour_of_region, is_bare_in, is_file_of, is_owned_in, is_in};
ghost use Rattle.out_picture.specs.States.{is_system};

use crate::colour::{Colour, colour_of_slot};
use d64_files::SlotNo;
use d64_image::BlockNo;
use d64_survey::{Owner, Survey};

/// Blocks that have the same first owner, or no owner.
#[derive(Clone, Copy, PartialEq, Eq)]
pub(crate) enum Region {
    Free,
    Unowned,
    System,
    File(SlotNo),
}

/// Returns the colour of a region.
pub(crate) fn colour_of_region(region: &Region) -> Colour
    ensures { result ≡ colour_of_region region.now }
{
    match region {
        Region::Free => Colour::Free,
        Region::Unowned => Colour::Unowned,
        Region::System => Colour::System,
        Region::File(slot) => colour_of_slot(*slot),
    }
}

/// Returns the first owner of a block.
pub(crate) fn first_owner(survey: &Survey, block: BlockNo) -> Option<Owner>
    ensures { result ≡ slice_get (owners_of survey.now block) 0 }
{
    match survey.owners(block).shown().first() {
        Some(owner) => Some(*owner),
        None => None,
    }
}

/// Whether a block without owners is in a region.
fn is_bare_in(region: &Region, is_free: bool) -> bool
    ensures { result ≡ is_bare_in region.now is_free }
{
    match region {
        Region::Free => is_free,
        Region::Unowned => !is_free,
        Region::System | Region::File(_) => false,
    }
}

/// Whether an owner is the map or the directory.
fn is_system(owner: Owner) -> bool
    ensures { result ≡ is_system owner }
{
    match owner {
        Owner::Map | Owner::Directory => true,
        Owner::File(_, _) => false,
    }
}

/// Whether an owner is the file of a slot.
fn is_file_of(slot: SlotNo, owner: Owner) -> bool
    ensures { result ≡ is_file_of slot owner }
{
    match owner {
        Owner::Map | Owner::Directory => false,
        Owner::File(other, _) => other.place() == slot.place(),
    }
}

/// Whether a block with this first owner is in a region.
fn is_owned_in(region: &Region, owner: Owner) -> bool
    ensures { result ≡ is_owned_in region.now owner }
{
    match region {
        Region::Free | Region::Unowned => false,
        Region::System => is_system(owner),
        Region::File(slot) => is_file_of(*slot, owner),
    }
}

/// Whether a block with this first owner is in a region, by whether it is marked free.
pub(crate) fn is_in(region: &Region, owner: Option<Owner>, is_free: bool) -> bool
    ensures { result ≡ is_in region.now owner is_free }
{
    match owner {
        Some(owner) => is_owned_in(region, owner),
        None => is_bare_in(region, is_free),
    }
}
