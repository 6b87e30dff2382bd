//! The walk along the links of blocks.
ghost use Rattle.std.specs.Prelude.{◌≡◌};
ghost use Rattle.d64_files.specs.Chain.{LieIn};
ghost use Rattle.d64_survey.specs.Way.{way};

use crate::way_end::WayEnd;
use d64_files::{BlockList, block_in};
use d64_image::{BLOCKS, BlockSet, Image};

/// Walks the way from a track and a sector: replaces the list by its blocks, and returns how it
/// ends. It allocates nothing, and visits no block twice.
pub fn walk(image: &Image, track: u8, sector: u8, blocks: &mut BlockList) -> WayEnd
    ensures way { (blocks.new, result) ≡ way image.now (track, sector) }
    ensures held { LieIn image.now blocks.new }
{
    blocks.clear();
    let mut seen = BlockSet::empty();
    let mut at_track = track;
    let mut at_sector = sector;
    for _ in 0..BLOCKS + 1 {
        match block_in(image, at_track, at_sector) {
            None => return WayEnd::Off(at_track, at_sector),
            Some(block) => {
                if seen.has(block) {
                    return WayEnd::Loop(at_track, at_sector);
                }
                seen.add(block);
                blocks.push(block);
                let bytes = image.sector(block);
                if bytes[0] == 0 {
                    return WayEnd::End;
                }
                at_track = bytes[0];
                at_sector = bytes[1];
            }
        }
    }
    WayEnd::End
}
