//! The writers that change a slot of the directory in place (the VICE manual, "The D64 disk image
//! format").
//!
//! They write through a patch, so that their changes can be undone.
ghost use Rattle.std.specs.Prelude.{◌≡◌, ◌+◌, ◌<◌, ◌≤◌, length, OnOk, OnErr};
ghost use Rattle.d64_image.specs.Patch.{StillRestores};
ghost use Rattle.d64_files.specs.Clearing.{with_cleared_slot, with_name, with_type};
ghost use Rattle.d64_files.specs.Directory.{slots};
ghost use Rattle.d64_files.specs.Writing.{with_bytes, slot_block, slot_start};

use crate::block_bytes::write_at;
use crate::directory_blocks::block_of_slot;
use crate::entry::{SLOT_BYTES, SlotNo};
use crate::kind::Kind;
use crate::name::Name;
use crate::slots::SLOTS_PER_BLOCK;
use crate::writing::CLOSED;
use d64_image::{Image, Patch};
use std::alloc::AllocError;

/// The place of the type byte in a slot.
const TYPE_BYTE: usize = 2;

/// How many bytes after the type byte the field of the name begins.
const NAME_AFTER_TYPE: usize = 3;

/// Writes bytes over a part of a slot, from a place after its type byte on.
fn write_in_slot(
    image: &mut Image,
    patch: &mut Patch,
    slot: SlotNo,
    place: usize,
    part: &[u8],
) -> Result<(), AllocError>
    requires slot { slot < length (slots image.old) }
    requires part { place + length part.now ≤ 30 }
    ensures written { OnOk result (image.new ≡ with_bytes image.old (slot_block image.old slot) (slot_start slot + place) part.now) }
    ensures back { StillRestores image.old patch.old image.new patch.new }
    ensures unchanged { OnErr result ((image.new ≡ image.old) × (patch.new ≡ patch.old)) }
{
    let block = block_of_slot(image, slot);
    let start = SLOT_BYTES * (slot.place() % SLOTS_PER_BLOCK) + TYPE_BYTE;
    let mut bytes = *image.sector(block);
    write_at(&mut bytes, start + place, part);
    patch.write(image, block, &bytes)
}

/// Makes a slot of the directory an unused one: its type byte becomes $00. The rest of its entry
/// stays, and so does every other byte of the image.
///
/// An error comes if there is no memory to keep the bytes of the slot's block; then the image is
/// unchanged. The directory must have that slot.
#[tactic(auto, unfolding(crate::specs::Clearing::with_cleared_slot))]
pub fn clear_slot(image: &mut Image, patch: &mut Patch, slot: SlotNo) -> Result<(), AllocError>
    requires { slot < length (slots image.old) }
    ensures cleared { OnOk result (image.new ≡ with_cleared_slot image.old slot) }
    ensures back { StillRestores image.old patch.old image.new patch.new }
    ensures unchanged { OnErr result ((image.new ≡ image.old) × (patch.new ≡ patch.old)) }
{
    write_in_slot(image, patch, slot, 0, &[0])
}

/// Makes the file of a slot of the directory a closed one of this kind, which isn't locked: the type
/// byte becomes $80 and the kind's number. The rest of its entry stays, and so does every other byte
/// of the image.
///
/// An error comes if there is no memory to keep the bytes of the slot's block; then the image is
/// unchanged. The directory must have that slot.
#[tactic(auto, unfolding(crate::specs::Clearing::with_type))]
pub fn set_type(
    image: &mut Image,
    patch: &mut Patch,
    slot: SlotNo,
    kind: Kind,
) -> Result<(), AllocError>
    requires { slot < length (slots image.old) }
    ensures typed { OnOk result (image.new ≡ with_type image.old slot kind) }
    ensures back { StillRestores image.old patch.old image.new patch.new }
    ensures unchanged { OnErr result ((image.new ≡ image.old) × (patch.new ≡ patch.old)) }
{
    write_in_slot(image, patch, slot, 0, &[CLOSED + kind.number()])
}

/// Writes a name into the field of a slot of the directory, filled with shifted spaces. Every other
/// byte of the image stays.
///
/// An error comes if there is no memory to keep the bytes of the slot's block; then the image is
/// unchanged. The directory must have that slot.
#[tactic(auto, unfolding(crate::specs::Clearing::with_name))]
pub fn set_name(
    image: &mut Image,
    patch: &mut Patch,
    slot: SlotNo,
    name: &Name,
) -> Result<(), AllocError>
    requires { slot < length (slots image.old) }
    ensures named { OnOk result (image.new ≡ with_name image.old slot name.now) }
    ensures back { StillRestores image.old patch.old image.new patch.new }
    ensures unchanged { OnErr result ((image.new ≡ image.old) × (patch.new ≡ patch.old)) }
{
    write_in_slot(image, patch, slot, NAME_AFTER_TYPE, &name.field())
}
