//! The dump that a G64 is read as.
ghost use Rattle.std.specs.Prelude.{◌≡◌, ℕ, ◌+◌, ◌*◌, ◌<◌, ◌≤◌, ◌==◌, true, length, take, drop, IfOk, OnOk, not, if◌then◌else◌, count_by, ◌++◌, ◌∷◌, []};
ghost use Rattle.std.specs.List.{range_with_len};
ghost use Rattle.d64_image.specs.Block.{first_block};
ghost use Rattle.d64_image.specs.Image.{bytes_of as image_bytes};
ghost use Rattle.d64_survey.specs.Dump.{dump_bytes};
ghost use Rattle.d64_g64.specs.File.{is_g64};
ghost use Rattle.d64_g64.specs.Fault.{was_bad};
ghost use Rattle.d64_g64.specs.Dump.{id_in, first_codes, first_blocks, kept_count, g64_dump};

use crate::block::read_block;
use crate::fault::G64Fault;
use crate::file::is_g64;
use crate::header::{DIRECTORY_TRACK, Id, disk_id};
use crate::track::{TrackLists, read_track};
use d64_image::{BLOCK_BYTES, BLOCKS, BLOCKS_OF_35, BlockNo, TrackNo};
use std::alloc::{AllocError, Global};

/// How many sectors a track has at most.
const MOST_SECTORS: u8 = 21;

/// How many blocks the tracks 36 to 40 have.
const BLOCKS_BEYOND: usize = 85;

/// What was read of a disk, block by block.
#[derive(Drop)]
struct Blocks {
    bytes: Vec<u8>,
    codes: Vec<u8>,
}

/// Reads the disk's id.
pub(crate) fn read_id(file: &[u8], lists: &mut TrackLists) -> Result<Option<Id>, AllocError>
    requires { is_g64 file.now ≡ true }
    ensures { IfOk result (λ id. id ≡ id_in file.now) }
{
    let directory = TrackNo::of(DIRECTORY_TRACK).unwrap();
    let track = read_track(lists, file, directory)?;
    Ok(disk_id(&track))
}

/// Appends a block.
fn push_block(blocks: &mut Blocks, code: u8, block: &[u8; BLOCK_BYTES]) -> Result<(), AllocError>
    ensures codes { OnOk result (blocks.new.codes.items ≡ blocks.old.codes.items ++ code ∷ []) }
    ensures bytes { OnOk result (blocks.new.bytes.items ≡ blocks.old.bytes.items ++ block.now) }
{
    blocks.bytes.extend_from_slice(block)?;
    blocks.codes.push(code)?;
    Ok(())
}

/// Reads the blocks of a track, and appends them to those of the tracks before it.
fn add_track(
    blocks: &mut Blocks,
    file: &[u8],
    track: TrackNo,
    id: Option<Id>,
    lists: &mut TrackLists,
) -> Result<(), AllocError>
    requires file { is_g64 file.now ≡ true }
    requires id { id ≡ id_in file.now }
    requires codes { blocks.old.codes.items ≡ first_codes file.now (first_block track) }
    requires bytes { blocks.old.bytes.items ≡ image_bytes (first_blocks file.now (first_block track)) }
    ensures codes { OnOk result (blocks.new.codes.items ≡ first_codes file.now (first_block (track + 1))) }
    ensures bytes { OnOk result (blocks.new.bytes.items ≡ image_bytes (first_blocks file.now (first_block (track + 1)))) }
{
    let number = track.number();
    let bits = read_track(lists, file, track)?;
    let mut block = [0; BLOCK_BYTES];
    for sector in 0..MOST_SECTORS {
        match BlockNo::of(number, sector) {
            Some(_) => {
                let code = read_block(&bits, id, number, sector, &mut block);
                push_block(blocks, code, &block)?;
            }
            None => {}
        }
    }
    Ok(())
}

/// Reads the blocks of all tracks.
fn read_tracks(blocks: &mut Blocks, file: &[u8], lists: &mut TrackLists) -> Result<(), AllocError>
    requires file { is_g64 file.now ≡ true }
    requires codes { blocks.old.codes.items ≡ [] }
    requires bytes { blocks.old.bytes.items ≡ [] }
    ensures codes { OnOk result (blocks.new.codes.items ≡ first_codes file.now 768) }
    ensures bytes { OnOk result (blocks.new.bytes.items ≡ image_bytes (first_blocks file.now 768)) }
{
    let id = read_id(file, lists)?;
    for track in TrackNo::all() {
        add_track(blocks, file, track, id, lists)?;
    }
    Ok(())
}

/// How many of these codes are 1.
fn count_good(codes: &[u8]) -> usize
    ensures count { result ≡ count_by (λ code. code == 1) codes.now }
    ensures few { result ≤ length codes.now }
{
    let mut count = 0;
    for code in codes {
        if *code == 1 {
            count += 1;
        }
    }
    count
}

/// How many blocks the dump has, by the codes of all blocks that it can have.
#[tactic(auto, unfolding(crate::specs::Dump::kept_count))]
fn kept_count(codes: &[u8]) -> usize
    requires { length codes.now ≡ 768 }
    ensures count { result ≡ kept_count codes.now }
    ensures few { result ≤ 768 }
{
    if 2 * count_good(&codes[BLOCKS_OF_35..]) > BLOCKS_BEYOND {
        BLOCKS
    } else {
        BLOCKS_OF_35
    }
}

/// Keeps the blocks that the dump has, and appends their codes to their bytes.
fn close(blocks: &mut Blocks) -> Result<(), AllocError>
    requires { length blocks.old.codes.items ≡ 768 }
    ensures { OnOk result (blocks.new.bytes.items ≡ take (256 * kept_count blocks.old.codes.items) blocks.old.bytes.items ++ take (kept_count blocks.old.codes.items) blocks.old.codes.items) }
{
    let count = kept_count(&blocks.codes);
    blocks.codes.truncate(count);
    blocks.bytes.truncate(BLOCK_BYTES * count);
    blocks.bytes.extend_from_slice(&blocks.codes)
}

/// Reads a dump into empty lists.
fn read_blocks(blocks: &mut Blocks, file: &[u8], lists: &mut TrackLists) -> Result<(), AllocError>
    requires file { is_g64 file.now ≡ true }
    requires codes { blocks.old.codes.items ≡ [] }
    requires bytes { blocks.old.bytes.items ≡ [] }
    ensures { OnOk result (blocks.new.bytes.items ≡ dump_bytes (g64_dump file.now)) }
{
    blocks.bytes.reserve_exact(BLOCKS * BLOCK_BYTES + BLOCKS)?;
    blocks.codes.reserve_exact(BLOCKS)?;
    read_tracks(blocks, file, lists)?;
    close(blocks)
}

/// Reads a file that begins as a G64. Returns the bytes of its dump, those of a D64 with read
/// codes. Any tracks are read; `Bad` comes only if the header or the places of the tracks are cut
/// off, or the version isn't 0.
pub fn read_g64(alloc: Global, file: &[u8]) -> Result<Vec<u8>, G64Fault>
    ensures refused { was_bad result ≡ not (is_g64 file.now) }
    ensures dump { IfOk result (λ bytes. bytes.items ≡ dump_bytes (g64_dump file.now)) }
{
    if !is_g64(file) {
        return Err(G64Fault::Bad);
    }
    let mut lists = TrackLists {
        bytes: Vec::new(alloc),
        starts: Vec::new(alloc),
    };
    let mut blocks = Blocks {
        bytes: Vec::new(alloc),
        codes: Vec::new(alloc),
    };
    match read_blocks(&mut blocks, file, &mut lists) {
        Ok(()) => Ok(blocks.bytes),
        Err(error) => Err(G64Fault::Memory(error)),
    }
}
