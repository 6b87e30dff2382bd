//! Giving the disk another name, and another id.
ghost use Rattle.std.specs.Prelude.{◌≡◌, OnOk, OnErr};
ghost use Rattle.d64_image.specs.Patch.{StillRestores};
ghost use Rattle.d64_effects.specs.DiskName.{labelled, named_disk};

use d64_files::{ID_START, NAME_START, Name, write_at};
use d64_image::{BLOCK_BYTES, Image, Patch};
use d64_map::map_block;
use std::alloc::AllocError;

/// The map's block with another name, and another id, if one is given.
#[tactic(auto, unfolding(d64_effects::specs::DiskName::labelled))]
fn labelled(old: &[u8; BLOCK_BYTES], name: &Name, id: Option<[u8; 2]>) -> [u8; BLOCK_BYTES]
    ensures { result ≡ labelled old.now name.now id }
{
    let mut block = *old;
    write_at(&mut block, NAME_START, &name.field());
    match id {
        Some(id) => write_at(&mut block, ID_START, &id),
        None => {}
    }
    block
}

/// Gives the disk another name, and another id, if one is given. No other byte changes, and the
/// image needn't be sound. An error comes if there is no memory to keep the map's block; then image
/// and patch are unchanged.
#[tactic(auto, unfolding(d64_effects::specs::DiskName::named_disk))]
pub(crate) fn name_disk(
    image: &mut Image,
    patch: &mut Patch,
    name: &Name,
    id: Option<[u8; 2]>,
) -> Result<(), AllocError>
    ensures named { OnOk result (image.new ≡ named_disk image.old name.now id) }
    ensures unchanged { OnErr result ((image.new ≡ image.old) × (patch.new ≡ patch.old)) }
    ensures back { StillRestores image.old patch.old image.new patch.new }
{
    image.known_image();
    let block = labelled(image.sector(map_block()), name, id);
    patch.write(image, map_block(), &block)
}
