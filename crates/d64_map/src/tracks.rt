//! Tracks and their blocks.
ghost use Rattle.std.specs.Prelude.{◌≡◌, ℕ, ◌-◌, ◌^◌, ◌<◌, ◌≤◌, if◌then◌else◌, sum_by};
ghost use Rattle.std.specs.List.{range_with_len};
ghost use Rattle.d64_image.specs.Block.{IsTrackNumber, sectors_on, first_block};
ghost use Rattle.d64_image.specs.declared.block.TheConstants.{BLOCKS};
ghost use Rattle.d64_map.specs.Track.{has_sector};

use d64_image::{BlockNo, BlockSet, TrackNo};

/// The number of the track of the map and of the directory.
pub const DIRECTORY_TRACK: u8 = 18;

/// The track of the map and of the directory.
pub fn directory_track() -> TrackNo
    ensures { result ≡ 18 }
{
    TrackNo::of(DIRECTORY_TRACK).unwrap()
}

/// How many sectors a track has.
pub fn sector_count(track: TrackNo) -> u8
    ensures sectors { result ≡ sectors_on track }
    ensures few { result < 22 }
{
    match track.number() {
        0..=17 => 21,
        18..=24 => 19,
        25..=30 => 18,
        _ => 17,
    }
}

/// A bit of 1 for each sector of a track.
pub fn sector_mask(track: TrackNo) -> u32
    ensures { result ≡ 2 ^ sectors_on track - 1 }
{
    (1 << sector_count(track)) - 1
}

/// The number of a track's first block.
pub fn first_block(track: TrackNo) -> usize
    ensures first { result ≡ first_block track }
    ensures within { result < BLOCKS }
    ensures range { IsTrackNumber track }
{
    match BlockNo::of(track.number(), 0) {
        Some(block) => block.index(),
        None => 0,
    }
}

/// The bits of a track's sectors: bit s is 1 if the block of sector s is a member. Bits past the
/// last sector are 0.
pub fn member_bits(blocks: &BlockSet, track: TrackNo) -> u32
    ensures bits { (count : ℕ) → sectors_on track ≤ count → result ≡ sum_by (λ s. if has_sector blocks.now track s then 2 ^ s else 0) (range_with_len 0 count) }
    ensures range { IsTrackNumber track }
{
    blocks.bits_from(first_block(track)) & sector_mask(track)
}
