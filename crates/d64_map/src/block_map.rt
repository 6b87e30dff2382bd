//! The block allocation map, read and written.
ghost use Rattle.std.specs.Prelude.{◌≡◌, ℕ, ◌+◌, ◌/◌, ◌<◌, ◌≤◌, ◌==◌, ◌↔◌, true, false, length, slice_index, IsTrue, OnOk, OnErr};
ghost use Rattle.std.specs.Int.{bit_at};
ghost use Rattle.std.specs.FinSet as set;
ghost use Rattle.d64_image.specs.Block.{first_block};
ghost use Rattle.d64_image.specs.BlockSet.{MembersAreBelow};
ghost use Rattle.d64_image.specs.Image.{HasTrack, IsBlock, IsSize, sector_at};
ghost use Rattle.d64_image.specs.Patch.{StillRestores};
ghost use Rattle.d64_map.specs.Track.{members_on};
ghost use Rattle.d64_map.specs.Map.{map_block, map_entry_place, IsOfTrack, count_of, bit_in, is_free, free_below, free_blocks, NoneIsFreeBetween, blocks_free, CountsFit, map_byte, with_map};

use crate::tracks::{DIRECTORY_TRACK, first_block, member_bits, sector_mask};
use d64_image::{BLOCK_BYTES, BlockNo, BlockSet, Image, Patch, TrackNo};
use std::alloc::AllocError;

/// The first track whose entry in the map isn't right after that of the track before it.
const FIRST_TRACK_BEYOND: u8 = 36;

/// How many bytes lie between the entries of tracks 35 and 36.
const BEYOND: usize = 0x30;

/// The block that has the map: track 18, sector 0.
pub fn map_block() -> BlockNo
    ensures { result ≡ map_block }
{
    BlockNo::of(DIRECTORY_TRACK, 0).unwrap()
}

/// The map's block of an image.
fn map_of(image: &Image) -> &[u8; BLOCK_BYTES]
    ensures value { result.now ≡ sector_at image.now map_block }
    ensures block { IsBlock result.now }
    ensures size { IsSize (length image.now) }
{
    image.known_image();
    image.sector(map_block())
}

/// Where a track's entry of four bytes begins in the map's block.
fn entry_of(track: TrackNo) -> usize
    ensures place { result ≡ map_entry_place track }
    ensures within { result ≤ 208 }
{
    let number = track.number();
    let place = 4 * usize::from(number);
    if number < FIRST_TRACK_BEYOND {
        place
    } else {
        place + BEYOND
    }
}

/// The bits of a track's sectors in the map's block: bit s is that of sector s.
fn bits_on(map: &[u8; BLOCK_BYTES], track: TrackNo) -> u32
    ensures { (sector : ℕ) → sector < 24 → bit_at result sector ≡ bit_in map.now track sector }
{
    let entry = entry_of(track);
    u32::from_le_bytes([map[entry + 1], map[entry + 2], map[entry + 3], 0])
}

/// Whether the bits of a track mark a sector free.
fn marks_free(bits: u32, sector: u8) -> bool
    requires { sector < 24 }
    ensures { result ≡ (bit_at bits sector == 1) }
{
    (bits >> sector) & 1 == 1
}

/// Whether the map marks a block of the image free.
pub fn is_free(image: &Image, block: BlockNo) -> bool
    requires { block < length image.now }
    ensures bit { result ≡ is_free image.now block }
    ensures member { result ≡ set.contains (free_blocks image.now) block }
{
    let bits = bits_on(map_of(image), block.track_no());
    marks_free(bits, block.sector())
}

/// The count byte of a track of the image: how many of its sectors are free, as the map says.
pub fn free_count(image: &Image, track: TrackNo) -> u8
    requires track { HasTrack image.now track }
    ensures count { result ≡ count_of image.now track }
{
    map_of(image)[entry_of(track)]
}

/// The number that a directory shows as blocks free: the sum of the count bytes of all tracks but 18.
pub fn blocks_free(image: &Image) -> u32
    ensures { result ≡ blocks_free image.now }
{
    let mut sum = 0;
    for track in image.each_track() {
        if track.number() != DIRECTORY_TRACK {
            sum += u32::from(free_count(image, track));
        }
    }
    sum
}

/// Adds the free blocks of a track to those of the tracks before it.
fn add_free_on(free: &mut BlockSet, image: &Image, track: TrackNo)
    requires { free.old ≡ free_below image.now (first_block track) }
    ensures { free.new ≡ free_below image.now (first_block (track + 1)) }
{
    let bits = bits_on(map_of(image), track) & sector_mask(track);
    free.add_bits(first_block(track), bits);
}

/// The blocks that the map marks free.
pub fn free_set(image: &Image) -> BlockSet
    ensures { result ≡ free_blocks image.now }
{
    let mut free = BlockSet::empty();
    for track in image.each_track() {
        add_free_on(&mut free, image, track);
    }
    free
}

/// Whether the map marks no member among a track's blocks free.
fn none_is_free_on(image: &Image, blocks: &BlockSet, track: TrackNo) -> bool
    requires track { HasTrack image.now track }
    ensures none { IsTrue result ↔ NoneIsFreeBetween image.now blocks.now (first_block track) (first_block (track + 1)) }
{
    image.known_image();
    let free = bits_on(map_of(image), track);
    free & member_bits(blocks, track) == 0
}

/// Whether the map marks no member of a set free.
pub fn none_is_free(image: &Image, blocks: &BlockSet) -> bool
    ensures { IsTrue result ↔ ((block : ℕ) → set.contains blocks.now block ≡ true → set.contains (free_blocks image.now) block ≡ false) }
{
    for track in image.each_track() {
        if !none_is_free_on(image, blocks, track) {
            return false;
        }
    }
    true
}

/// How many blocks of a track of the image the map marks free.
pub fn free_on(image: &Image, track: TrackNo) -> u8
    requires track { HasTrack image.now track }
    ensures free { result ≡ members_on (free_blocks image.now) track }
{
    image.known_image();
    let free = bits_on(map_of(image), track) & sector_mask(track);
    free.count_ones() as u8
}

/// Whether each track's count byte is the number of its sectors that the map marks free.
pub fn counts_fit(image: &Image) -> bool
    ensures { IsTrue result ↔ CountsFit image.now }
{
    for track in image.each_track() {
        if free_count(image, track) != free_on(image, track) {
            return false;
        }
    }
    true
}

/// Writes a track's entry into the map's block: the count of the free blocks, and their bits.
fn put_entry(map: &mut [u8; BLOCK_BYTES], free: &BlockSet, track: TrackNo)
    ensures entry { (place : ℕ) → IsOfTrack track place → slice_index map.new place ≡ map_byte free.now place }
    ensures others { (place : ℕ) → (IsOfTrack track place → ⊥) → slice_index map.new place ≡ slice_index map.old place }
{
    let bits = member_bits(free, track);
    let entry = entry_of(track);
    map[entry] = bits.count_ones() as u8;
    map[entry + 1] = (bits % 256) as u8;
    map[entry + 2] = ((bits >> 8) % 256) as u8;
    map[entry + 3] = ((bits >> 16) % 256) as u8;
}

/// Writes the map for a set of free blocks of the image: the count and the bits of each track.
///
/// The patch keeps the map's block: putting it back still gives the same image. An error comes if
/// there is no memory to keep it, and leaves both unchanged.
pub fn put_map(image: &mut Image, patch: &mut Patch, free: &BlockSet) -> Result<(), AllocError>
    requires members { MembersAreBelow (length image.old) free.now }
    ensures written { OnOk result (image.new ≡ with_map image.old free.now) }
    ensures free { OnOk result (free_blocks image.new ≡ free.now) }
    ensures counts { OnOk result (CountsFit image.new) }
    ensures back { StillRestores image.old patch.old image.new patch.new }
    ensures unchanged { OnErr result ((image.new ≡ image.old) × (patch.new ≡ patch.old)) }
{
    let mut map = *map_of(image);
    for track in image.each_track() {
        put_entry(&mut map, free, track);
    }
    patch.write(image, map_block(), &map)
}
