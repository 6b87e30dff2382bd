//! Blocks, and the zones of a disk.
ghost use Rattle.std.specs.Prelude.{◌≡◌, ◌<◌, ◌≤◌, SomeIff, IfSome};
ghost use Rattle.std.specs.Iterator.{YieldsFirst, item_count};
ghost use Rattle.std.specs.List.{range_with_len};
ghost use Rattle.d64_image.specs.Block.{pair_at, block_of};
ghost use Rattle.d64_image.specs.declared.block.TheConstants.{BLOCKS};

use crate::track::{TRACKS, TrackNo};
use std::marker::Model;

/// How many blocks an image has at most: those of 40 tracks.
pub const BLOCKS: usize = 768;

/// How many blocks an image of 35 tracks has.
pub const BLOCKS_OF_35: usize = 683;

/// Neighbouring tracks with the same number of sectors.
#[derive(Clone, Copy)]
struct Zone {
    first_track: u8,
    first_block: u16,
    sectors: u8,
}

/// The zones of a disk, from the outermost track inward.
const ZONES: [Zone; 4] = [
    Zone {
        first_track: 1,
        first_block: 0,
        sectors: 21,
    },
    Zone {
        first_track: 18,
        first_block: 357,
        sectors: 19,
    },
    Zone {
        first_track: 25,
        first_block: 490,
        sectors: 18,
    },
    Zone {
        first_track: 31,
        first_block: 598,
        sectors: 17,
    },
];

/// The first block of each track, by the track's number, which counts from 1. The last one is where
/// the last track ends.
const TRACK_STARTS: [u16; 42] = [
    0, 0, 21, 42, 63, 84, 105, 126, 147, 168, 189, 210, 231, 252, 273, 294, 315, 336, 357, 376,
    395, 414, 433, 452, 471, 490, 508, 526, 544, 562, 580, 598, 615, 632, 649, 666, 683, 700, 717,
    734, 751, 768,
];

impl Zone {
    ghost use Rattle.std.specs.Prelude.{◌≡◌, ◌+◌, ◌-◌, ◌/◌, ◌<◌, ◌≤◌};
    ghost use Rattle.d64_image.specs.Zone.{LiesIn};

    /// The zone of a block.
    fn of_block(index: u16) -> Zone
        requires block { index < BLOCKS }
        ensures starts { result.first_block ≤ index }
        ensures some { 0 < result.sectors }
        ensures from_one { 1 ≤ result.first_track }
        ensures track { LiesIn result (result.first_track + (index - result.first_block) / result.sectors) }
    {
        if index < ZONES[1].first_block {
            ZONES[0]
        } else if index < ZONES[2].first_block {
            ZONES[1]
        } else if index < ZONES[3].first_block {
            ZONES[2]
        } else {
            ZONES[3]
        }
    }
}

/// The number of a block, which has a track (from 1) and a sector (from 0).
///
/// Blocks are numbered as they lie in a D64 image: track by track from 1, on each track by sector
/// from 0. Tracks 1 to 17 have 21 sectors, 18 to 24 have 19, 25 to 30 have 18, and 31 to 35 have 17
/// (the 1541 User's Guide, "Disk format"). Tracks 36 to 40, which some disks have, have 17 as well.
/// The default is the first block.
#[derive(Clone, Copy, Debug, Default, PartialEq, Eq, PartialOrd, Ord, Hash)]
pub struct BlockNo {
    index: u16,
}

impl Model for BlockNo {
    ghost use Rattle.std.specs.Prelude.{ℕ, ◌<◌};
    ghost use Rattle.d64_image.specs.declared.block.TheConstants.{BLOCKS};

    ghost Value = { ℕ };

    ghost view = { λ b. b.index };

    ghost invariant = { λ b. b.index < BLOCKS };

    ghost inverse = { λ n. record { index = n } };
}

/// The blocks from one place up to another, ascending.
#[derive(Clone, Drop)]
pub struct Blocks {
    /// The place of the next block.
    next: u16,
    /// The place after that of the last block.
    end: u16,
}

impl Model for Blocks {
    ghost use Rattle.std.specs.Prelude.{ℕ, List, ◌-◌, ◌≤◌};
    ghost use Rattle.std.specs.List.{range_with_len};
    ghost use Rattle.d64_image.specs.declared.block.TheConstants.{BLOCKS};

    ghost Value = { List ℕ };

    ghost view = { λ blocks. range_with_len blocks.next (blocks.end - blocks.next) };

    ghost invariant = { λ blocks. blocks.end ≤ BLOCKS };
}

impl Blocks {
    /// The first `count` blocks.
    pub(crate) fn up_to(count: usize) -> Blocks
        requires { count ≤ BLOCKS }
        ensures { result ≡ range_with_len 0 count }
    {
        Blocks {
            next: 0,
            end: count as u16,
        }
    }
}

impl Iterator for Blocks {
    type Item = BlockNo;

    ghost next_gives = { YieldsFirst (λ left. left) };

    ghost remaining = { item_count (λ left. left) };

    fn next(&mut self) -> Option<BlockNo> {
        if self.next >= self.end {
            return None;
        }
        let index = self.next;
        self.next += 1;
        Some(BlockNo { index })
    }
}

impl BlockNo {
    /// All blocks that a disk may have, ascending.
    pub fn all() -> Blocks
        ensures { result ≡ range_with_len 0 BLOCKS }
    {
        Blocks::up_to(BLOCKS)
    }

    /// The block of a track (from 1) and a sector (from 0), or None if no disk has such a sector.
    /// `Image::holds` says whether an image has it.
    pub fn of(track: u8, sector: u8) -> Option<BlockNo>
        ensures place { result ≡ block_of track sector }
        ensures within { IfSome result (λ block. block < BLOCKS) }
    {
        if track < 1 || track > TRACKS {
            return None;
        }
        let start = usize::from(track);
        let index = TRACK_STARTS[start] + u16::from(sector);
        if index < TRACK_STARTS[start + 1] {
            Some(BlockNo { index })
        } else {
            None
        }
    }

    /// The block at a place in the image, from 0, or None from 768 on.
    pub fn at(index: usize) -> Option<BlockNo>
        ensures { SomeIff result (index < BLOCKS) index }
    {
        if index < BLOCKS {
            Some(BlockNo {
                index: index as u16,
            })
        } else {
            None
        }
    }

    /// The block's place in the image, from 0.
    pub fn index(self) -> usize
        ensures value { result ≡ self }
        ensures within { result < BLOCKS }
    {
        usize::from(self.index)
    }

    /// Does nothing: its contract states what a block is, for callers that need it in a proof.
    pub fn known_block(self)
        ensures { self < BLOCKS }
    {}

    /// The block's track and its sector on that track.
    fn pair(self) -> (TrackNo, u8)
        ensures pair { result ≡ pair_at self }
        ensures sector { result.1 < 21 }
    {
        let zone = Zone::of_block(self.index);
        let blocks_before = self.index - zone.first_block;
        let sectors = u16::from(zone.sectors);
        (
            TrackNo::new(zone.first_track + (blocks_before / sectors) as u8),
            (blocks_before % sectors) as u8,
        )
    }

    /// The block's track.
    pub fn track_no(self) -> TrackNo
        ensures { result ≡ (pair_at self).0 }
    {
        self.pair().0
    }

    /// The number of the block's track, from 1 to 40.
    pub fn track(self) -> u8
        ensures pair { result ≡ (pair_at self).0 }
        ensures from_one { 1 ≤ result }
        ensures within { result < 41 }
    {
        self.track_no().number()
    }

    /// The block's sector on its track, from 0 to 20 at most.
    pub fn sector(self) -> u8
        ensures pair { result ≡ (pair_at self).1 }
        ensures within { result < 21 }
    {
        self.pair().1
    }
}
