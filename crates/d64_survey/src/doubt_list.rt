//! The doubts of an image.
ghost use Rattle.std.specs.Prelude.{◌≡◌, ◌+◌, ◌<◌, ◌≤◌, ◌++◌, ◌||◌, length};
ghost use Rattle.d64_map.specs.Map.{map_block as map_block_of};
ghost use Rattle.d64_files.specs.Directory.{directory_start};
ghost use Rattle.d64_survey.specs.Doubts.{has_other_version, is_blank, is_for_geos, has_strays, has_filler, where_doubted, doubts};

use crate::doubt::Doubt;
use crate::survey::Survey;
use arrayvec::ArrayVec;
use d64_files::directory_block;
use d64_image::{BLOCK_BYTES, BLOCKS_OF_35, BlockNo, Image};
use d64_map::{free_set, map_block};

/// How many doubts there are.
pub const DOUBTS: usize = 4;

/// The version byte of a disk of the 1541, in byte 2 of the map's block (the 1541 User's Guide,
/// "Disk format").
const VERSION: u8 = 0x41;

/// What copiers write in place of a block that they can't read.
const FILLER: [u8; BLOCK_BYTES] =
    *b"-=[BAD SECTOR]=--=[BAD SECTOR]=--=[BAD SECTOR]=--=[BAD SECTOR]=-\
    -=[BAD SECTOR]=--=[BAD SECTOR]=--=[BAD SECTOR]=--=[BAD SECTOR]=-\
    -=[BAD SECTOR]=--=[BAD SECTOR]=--=[BAD SECTOR]=--=[BAD SECTOR]=-\
    -=[BAD SECTOR]=--=[BAD SECTOR]=--=[BAD SECTOR]=--=[BAD SECTOR]=-";

/// Whether the map's block doesn't have the version byte of a 1541's disk.
fn has_other_version(image: &Image) -> bool
    ensures { result ≡ has_other_version image.now }
{
    image.known_image();
    image.sector(map_block())[2] != VERSION
}

/// Whether the bytes of a block are all equal.
#[tactic(auto, unfolding(crate::specs::Doubts::is_blank))]
pub fn is_blank(image: &Image, block: BlockNo) -> bool
    requires { block < length image.now }
    ensures { result ≡ is_blank image.now block }
{
    let bytes = image.sector(block);
    bytes.iter().all(|byte| *byte == bytes[0])
}

/// Whether the map's block or the directory's first one is blank.
fn is_directory_blank(image: &Image) -> bool
    ensures { result ≡ (is_blank image.now map_block_of || is_blank image.now directory_start) }
{
    image.known_image();
    is_blank(image, map_block()) || is_blank(image, directory_block())
}

/// Whether the map's block has the text by which GEOS knows its disks.
fn is_for_geos(image: &Image) -> bool
    ensures { result ≡ is_for_geos image.now }
{
    image.known_image();
    image.sector(map_block())[0xAD..].starts_with(b"GEOS format")
}

/// Whether a block of tracks 1 to 35 is marked used and has no owner, on a disk that isn't one of
/// GEOS.
fn has_strays(survey: &Survey) -> bool
    ensures { result ≡ has_strays survey.now }
{
    let image = survey.image();
    if is_for_geos(image) {
        return false;
    }
    let free = free_set(image);
    let mut is_any = false;
    for block in image.blocks() {
        is_any = is_any
            || (block.index() < BLOCKS_OF_35 && !survey.is_owned(block) && !free.has(block));
    }
    is_any
}

/// Whether there is a block that a copier wrote for one that it couldn't read.
#[tactic(auto, unfolding(crate::specs::Doubts::has_filler, crate::specs::Doubts::filler))]
fn has_filler(image: &Image) -> bool
    ensures { result ≡ has_filler image.now }
{
    let mut is_any = false;
    for block in image.blocks() {
        is_any = is_any || image.has_bytes(block, &FILLER);
    }
    is_any
}

/// Appends a doubt if there is one.
fn doubt_if(list: &mut ArrayVec<Doubt, DOUBTS>, doubt: Doubt, is_asked: bool)
    requires { length list.old.items < 4 }
    ensures list { list.new.items ≡ list.old.items ++ where_doubted is_asked doubt }
    ensures few { length list.new.items ≤ length list.old.items + 1 }
{
    if is_asked {
        list.push(doubt);
    }
}

impl Survey<'_> {
    /// The reasons to doubt the image, in order.
    pub fn doubts(&self) -> ArrayVec<Doubt, DOUBTS>
        ensures { result.items ≡ doubts self.now }
    {
        let image = self.image();
        let mut list = ArrayVec::new();
        doubt_if(&mut list, Doubt::Version, has_other_version(image));
        doubt_if(&mut list, Doubt::Blank, is_directory_blank(image));
        doubt_if(&mut list, Doubt::Unowned, has_strays(self));
        doubt_if(&mut list, Doubt::Filler, has_filler(image));
        list
    }
}
