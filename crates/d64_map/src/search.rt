//! The order in which free blocks are searched.
ghost use Rattle.std.specs.Prelude.{◌≡◌, ◌+◌, ◌-◌, ◌<◌, ◌≤◌, ◌==◌, ◌&&◌, ◌++◌, find};
ghost use Rattle.std.specs.List.{range_with_len, flat_map};
ghost use Rattle.std.specs.FinSet as set;
ghost use Rattle.d64_image.specs.Block.{sectors_on, first_block};
ghost use Rattle.d64_map.specs.Track.{blocks_on};
ghost use Rattle.d64_map.specs.Search.{first_order, sector_after, rotated_list, next_order, dir_order};
ghost use Rattle.d64_map.specs.Side.{track_at, other_side, reach, tracks_along, tracks_beyond};

use crate::tracks::{DIRECTORY_TRACK, directory_track, first_block, member_bits, sector_count};
use d64_image::{BLOCKS, BlockNo, BlockSet, TrackNo};

/// How many sectors further on the search for a file's next block begins.
const FILE_INTERLEAVE: u8 = 10;

/// How many sectors further on the search for the directory's next block begins.
const DIRECTORY_INTERLEAVE: u8 = 3;

/// How far track 1 lies from track 18, and on the other side track 35.
const LOWER_REACH: u8 = 17;

/// How far track 40 lies from track 18.
const UPPER_REACH: u8 = 22;

/// A side of track 18.
#[derive(Clone, Copy)]
enum Side {
    /// The tracks below it.
    Lower,
    /// The tracks above it.
    Upper,
}

impl Side {
    /// The side of a track other than 18, and the track's distance from 18.
    fn of(track: TrackNo) -> (Side, u8)
        requires { track ≡ 18 → ⊥ }
        ensures track { track_at result.0 result.1 ≡ track }
        ensures distance { (1 ≤ result.1) × (result.1 ≤ reach result.0) }
    {
        let number = track.number();
        if number < DIRECTORY_TRACK {
            (Side::Lower, DIRECTORY_TRACK - number)
        } else {
            (Side::Upper, number - DIRECTORY_TRACK)
        }
    }

    /// The other side.
    fn other(self) -> Side
        ensures { result ≡ other_side self }
    {
        match self {
            Side::Lower => Side::Upper,
            Side::Upper => Side::Lower,
        }
    }

    /// How many tracks the side has.
    fn reach(self) -> u8
        ensures reach { result ≡ reach self }
        ensures within { result ≤ 22 }
    {
        match self {
            Side::Lower => LOWER_REACH,
            Side::Upper => UPPER_REACH,
        }
    }

    /// The track at a distance from track 18.
    fn track(self, distance: u8) -> TrackNo
        requires { (1 ≤ distance) × (distance ≤ reach self) }
        ensures { result ≡ track_at self distance }
    {
        let number = match self {
            Side::Lower => DIRECTORY_TRACK - distance,
            Side::Upper => DIRECTORY_TRACK + distance,
        };
        TrackNo::of(number).unwrap()
    }
}

/// The first free block of a track from one sector up to another.
fn pick_between(free: &BlockSet, track: TrackNo, start: u8, end: u8) -> Option<BlockNo>
    requires { end ≤ sectors_on track }
    ensures { result ≡ find (set.contains free.now) (range_with_len (first_block track + start) (end - start)) }
{
    let first = first_block(track);
    for sector in start..end {
        if let Some(block) = BlockNo::at(first + usize::from(sector))
            && free.has(block)
        {
            return Some(block);
        }
    }
    None
}

/// The first free block of a track.
fn pick_on(free: &BlockSet, track: TrackNo) -> Option<BlockNo>
    ensures { result ≡ find (set.contains free.now) (blocks_on track) }
{
    if member_bits(free, track) == 0 {
        return None;
    }
    pick_between(free, track, 0, sector_count(track))
}

/// The first free block of a track from a sector on, and then from the track's beginning.
fn pick_around(free: &BlockSet, track: TrackNo, start: u8) -> Option<BlockNo>
    requires { start ≤ sectors_on track }
    ensures { result ≡ find (set.contains free.now) (rotated_list start (blocks_on track)) }
{
    let end = sector_count(track);
    pick_between(free, track, start, end).or_else(|| pick_between(free, track, 0, start))
}

/// The first free block on the tracks of a side from one distance up to another.
fn pick_along(free: &BlockSet, side: Side, start: u8, end: u8) -> Option<BlockNo>
    requires start { 1 ≤ start }
    requires end { end ≤ reach side + 1 }
    ensures { result ≡ find (set.contains free.now) (flat_map blocks_on (tracks_along side start (end - start))) }
{
    for distance in start..end {
        if let Some(block) = pick_on(free, side.track(distance)) {
            return Some(block);
        }
    }
    None
}

/// The first free block on the tracks beyond one of a side, then on the other side, then on the
/// rest of the side.
fn pick_beyond(free: &BlockSet, side: Side, distance: u8) -> Option<BlockNo>
    requires { (1 ≤ distance) × (distance ≤ reach side) }
    ensures { result ≡ find (set.contains free.now) (flat_map blocks_on (tracks_beyond side distance)) }
{
    if let Some(block) = pick_along(free, side, distance + 1, side.reach() + 1) {
        return Some(block);
    }
    let other = side.other();
    pick_along(free, other, 1, other.reach() + 1).or_else(|| pick_along(free, side, 1, distance))
}

/// The sector at which the search goes on after a sector of a track with this many sectors.
fn sector_after(interleave: u8, sectors: u8, sector: u8) -> u8
    requires interleave { interleave ≤ 10 }
    requires sectors { (17 ≤ sectors) × (sectors < 22) }
    requires sector { sector < 21 }
    ensures after { result ≡ sector_after interleave sectors sector }
    ensures within { result < sectors }
{
    let further = sector + interleave;
    if further < sectors {
        further
    } else {
        (further - sectors).saturating_sub(1)
    }
}

/// The first free block on tracks 17, 19, 16, 20, and so on to 1, 35.
fn pick_outward(free: &BlockSet) -> Option<BlockNo>
    ensures { result ≡ find (set.contains free.now) (flat_map (λ distance. blocks_on (18 - distance) ++ blocks_on (18 + distance)) (range_with_len 1 17)) }
{
    for distance in 1..LOWER_REACH + 1 {
        if let Some(block) = pick_on(free, Side::Lower.track(distance)) {
            return Some(block);
        }
        if let Some(block) = pick_on(free, Side::Upper.track(distance)) {
            return Some(block);
        }
    }
    None
}

/// The free block that a file's first block takes: on the tracks nearest to track 18 first, 17
/// before 19, by sectors rising; or None if no block outside track 18 is free.
pub fn pick_first(free: &BlockSet) -> Option<BlockNo>
    ensures { result ≡ find (set.contains free.now) first_order }
{
    pick_outward(free).or_else(|| pick_along(free, Side::Upper, LOWER_REACH + 1, UPPER_REACH + 1))
}

/// The free block that a file's next block takes after the block that was taken last: ten sectors
/// further on the same track, around its end, then on the tracks away from track 18, then on the
/// other side, then on the rest of the first side; or None if no block outside track 18 is free.
pub fn pick_next(free: &BlockSet, last: BlockNo) -> Option<BlockNo>
    ensures { result ≡ find (set.contains free.now) (next_order last) }
{
    if last.track() == DIRECTORY_TRACK {
        return pick_first(free);
    }
    let track = last.track_no();
    let start = sector_after(FILE_INTERLEAVE, sector_count(track), last.sector());
    if let Some(block) = pick_around(free, track, start) {
        return Some(block);
    }
    let (side, distance) = Side::of(track);
    pick_beyond(free, side, distance)
}

/// The free block that the directory's next block takes after its last one: three sectors further
/// on track 18, around its end; or None if no block of track 18 is free.
pub fn pick_dir(free: &BlockSet, last: BlockNo) -> Option<BlockNo>
    ensures { result ≡ find (set.contains free.now) (dir_order last) }
{
    let track = directory_track();
    if last.track() == DIRECTORY_TRACK {
        let start = sector_after(DIRECTORY_INTERLEAVE, sector_count(track), last.sector());
        pick_around(free, track, start)
    } else {
        pick_on(free, track)
    }
}
