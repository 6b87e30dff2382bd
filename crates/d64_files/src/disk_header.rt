//! The header of a disk: its name, its id and its DOS version, which are in the map's block.
ghost use Rattle.std.specs.Prelude.{◌≡◌};
ghost use Rattle.d64_image.specs.Image.{IsBlock, sector_at};
ghost use Rattle.d64_map.specs.Map.{map_block};
ghost use Rattle.d64_files.specs.DiskHeader.{disk_dos as disk_dos_of, disk_id as disk_id_of, disk_name as disk_name_of};

use crate::name::name_in;
use d64_image::{BLOCK_BYTES, Image};
use d64_map::map_block;

/// The place of the disk's name in the map's block, a field of 16 bytes.
pub const NAME_START: usize = 0x90;

/// The place of the disk's id in the map's block, two bytes.
pub const ID_START: usize = 0xA2;

/// The place of the DOS version and the format in the map's block, two bytes.
pub const DOS_VERSION_START: usize = 0xA5;

/// The map's block of an image, which has the disk's name, its id and its DOS version too.
pub fn header_of(image: &Image) -> &[u8; BLOCK_BYTES]
    ensures value { result.now ≡ sector_at image.now map_block }
    ensures block { IsBlock result.now }
{
    image.known_image();
    image.sector(map_block())
}

/// The disk's name: at most 16 bytes, up to the first $A0.
pub fn disk_name(image: &Image) -> &[u8]
    ensures { result.now ≡ disk_name_of image.now }
{
    name_in(&header_of(image)[NAME_START..NAME_START + 16])
}

/// The disk's id, two bytes.
pub fn disk_id(image: &Image) -> &[u8]
    ensures { result.now ≡ disk_id_of image.now }
{
    &header_of(image)[ID_START..ID_START + 2]
}

/// The DOS version and the format, two bytes: `2A` for a disk of the 1541.
pub fn disk_dos(image: &Image) -> &[u8]
    ensures { result.now ≡ disk_dos_of image.now }
{
    &header_of(image)[DOS_VERSION_START..DOS_VERSION_START + 2]
}
