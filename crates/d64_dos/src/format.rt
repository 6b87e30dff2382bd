//! Making an empty disk, block by block.
ghost use Rattle.std.specs.Prelude.{◌≡◌, ◌<◌, length, replicate, OnOk};
ghost use Rattle.d64_image.specs.declared.image.TheConstants.{BLOCK_BYTES};
ghost use Rattle.d64_image.specs.Image.{with_sector};
ghost use Rattle.d64_image.specs.Patch.{StillRestores};
ghost use Rattle.d64_effects.specs.Format.{header, free_when_formatted, blank_disk, formatted_disk};

use d64_files::{
    DIRECTORY_SECTOR, DOS_VERSION_START, FILLER, ID_START, NAME_START, Name, directory_block,
    empty_directory, write_at,
};
use d64_image::{BLOCK_BYTES, BlockNo, BlockSet, Image, Patch};
use d64_map::{DIRECTORY_TRACK, map_block, put_map};
use std::alloc::AllocError;

/// The beginning of the map's block: the link to the directory's first block, and the mark of the
/// 1541's format.
const LINK_AND_FORMAT: [u8; 4] = [DIRECTORY_TRACK, DIRECTORY_SECTOR, 0x41, 0x00];

/// The DOS version and the format, as a directory shows them: `2A`.
const DOS_VERSION: [u8; 2] = *b"2A";

/// How many bytes the disk's label has, from its name on: the name, the id and the DOS version.
const LABEL_BYTES: usize = 27;

/// The map's block of a formatted disk, in which the map is still to be written.
fn header(name: &Name, id: &[u8; 2]) -> [u8; BLOCK_BYTES]
    ensures { result ≡ header name.now id.now }
{
    let mut header = [0; BLOCK_BYTES];
    write_at(&mut header, 0, &LINK_AND_FORMAT);
    write_at(&mut header, NAME_START, &[FILLER; LABEL_BYTES]);
    write_at(&mut header, NAME_START, name.bytes());
    write_at(&mut header, ID_START, id);
    write_at(&mut header, DOS_VERSION_START, &DOS_VERSION);
    header
}

/// The free blocks of a formatted disk, by its number of tracks: all but those of the map and of
/// the directory.
fn free_when_formatted(image: &Image) -> BlockSet
    ensures { result ≡ free_when_formatted (length image.now) }
{
    let mut free = BlockSet::empty();
    for block in image.blocks() {
        free.add(block);
    }
    free.remove(map_block());
    free.remove(directory_block());
    free
}

/// Writes zeros into a block of the image, if it has other bytes: a block that the patch need not
/// keep needs no memory.
fn blank_block(image: &mut Image, patch: &mut Patch, block: BlockNo) -> Result<(), AllocError>
    requires { block < length image.old }
    ensures blank { OnOk result (image.new ≡ with_sector image.old block (replicate BLOCK_BYTES 0)) }
    ensures back { StillRestores image.old patch.old image.new patch.new }
{
    let blank = [0; BLOCK_BYTES];
    if *image.sector(block) == blank {
        return Ok(());
    }
    patch.write(image, block, &blank)
}

/// Writes zeros into all blocks.
fn blank(image: &mut Image, patch: &mut Patch) -> Result<(), AllocError>
    ensures blank { OnOk result (image.new ≡ blank_disk (length image.old)) }
    ensures back { StillRestores image.old patch.old image.new patch.new }
{
    for block in image.blocks() {
        blank_block(image, patch, block)?;
    }
    Ok(())
}

/// Makes an empty disk with that name and id. An error comes if there is no memory to keep a
/// block's bytes: then some blocks may be written, and putting the patch back still gives the image
/// from before.
pub(crate) fn format(
    image: &mut Image,
    patch: &mut Patch,
    name: &Name,
    id: &[u8; 2],
) -> Result<(), AllocError>
    ensures formatted { OnOk result (image.new ≡ formatted_disk (length image.old) name.now id.now) }
    ensures back { StillRestores image.old patch.old image.new patch.new }
{
    image.known_image();
    let free = free_when_formatted(image);
    blank(image, patch)?;
    patch.write(image, map_block(), &header(name, id))?;
    patch.write(image, directory_block(), &empty_directory())?;
    put_map(image, patch, &free)
}
