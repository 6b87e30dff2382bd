//! Writing session files: the present image, and each record with the blocks that lead away from
//! it.
ghost use Rattle.std.specs.Prelude.{◌≡◌, ◌++◌, ◌<◌, ◌^◌, ℕ, length, All, OnOk, IfOk};
ghost use Rattle.std.specs.List.{flat_map};
ghost use Rattle.std.specs.Io.Iter.{u64_saturate};
ghost use Rattle.d64_image.specs.Image.{IsImage};
ghost use Rattle.d64_image.specs.Patch.{HaveBlocks, IsPatch};
ghost use Rattle.d64_history.specs.Resuming.{start_file};
ghost use Rattle.d64_history.specs.SessionFile.{block_file, record_file, file_with};

use d64_image::{BLOCK_BYTES, BlockNo, Image, PatchList};
use std::alloc::{AllocError, Global};

/// The bytes at the beginning of each session file: D64S.
pub(crate) const MAGIC: [u8; 4] = *b"D64S";

/// How many bytes a file has besides its image and its records: its beginning, the number of tracks
/// and two counts.
const COUNT_BYTES: usize = MAGIC.len() + 1 + 2 * size_of::<u64>();

/// How many bytes the file has, or the greatest number that can be counted.
fn file_len(image: &Image, records: &PatchList) -> usize
    ensures { (done : ℕ) → result ≡ u64_saturate (length (file_with image.now done records.now)) }
{
    records.known_patches();
    let counts = records.len().saturating_mul(2);
    let blocks = records.end().blocks.saturating_mul(2 + BLOCK_BYTES);
    (COUNT_BYTES + image.bytes().len())
        .saturating_add(counts)
        .saturating_add(blocks)
}

/// Appends a record's blocks to the file.
fn put_blocks(file: &mut Vec<u8>, blocks: &[(BlockNo, [u8; BLOCK_BYTES])]) -> Result<(), AllocError>
    ensures { OnOk result (file.new.items ≡ file.old.items ++ flat_map block_file blocks.now) }
{
    for entry in blocks {
        file.extend_from_slice(&(entry.0.index() as u16).to_le_bytes())?;
        file.extend_from_slice(&entry.1)?;
    }
    Ok(())
}

/// Appends the record of these blocks to the file.
fn put_record(file: &mut Vec<u8>, blocks: &[(BlockNo, [u8; BLOCK_BYTES])]) -> Result<(), AllocError>
    requires { IsPatch blocks.now }
    ensures { OnOk result (file.new.items ≡ file.old.items ++ record_file blocks.now) }
{
    file.extend_from_slice(&(blocks.len() as u16).to_le_bytes())?;
    put_blocks(file, blocks)
}

/// Appends records to the file.
fn put_records(file: &mut Vec<u8>, records: &PatchList) -> Result<(), AllocError>
    ensures { OnOk result (file.new.items ≡ file.old.items ++ flat_map record_file records.now) }
{
    let mut place = records.place_before(0);
    for _ in 0..records.len() {
        put_record(file, records.at(place))?;
        place = records.next(place);
    }
    Ok(())
}

/// Appends to the file what comes before its records: its beginning, the image, how many records
/// are done, and how many there are.
fn put_start(file: &mut Vec<u8>, image: &Image, done: usize, count: usize) -> Result<(), AllocError>
    ensures { OnOk result (file.new.items ≡ file.old.items ++ start_file image.now done count) }
{
    file.extend_from_slice(&MAGIC)?;
    file.extend_from_slice(&[image.tracks()])?;
    file.extend_from_slice(image.bytes())?;
    file.extend_from_slice(&(done as u64).to_le_bytes())?;
    file.extend_from_slice(&(count as u64).to_le_bytes())
}

/// The session file of a present image and all records, the oldest first, of which `done` are done.
/// The error is that memory runs out.
#[tactic(auto, unfolding(crate::specs::SessionFile::file_with))]
pub fn session_file(
    alloc: Global,
    image: &Image,
    done: usize,
    records: &PatchList,
) -> Result<Vec<u8>, AllocError>
    ensures file { IfOk result (λ file. file.items ≡ file_with image.now done records.now) }
    ensures image { IsImage image.now }
    ensures count { length records.now < 2 ^ 64 }
    ensures blocks { All HaveBlocks records.now }
{
    image.known_image();
    records.known_patches();
    let count = records.len();
    let mut file = Vec::with_capacity(alloc, file_len(image, records))?;
    put_start(&mut file, image, done, count)?;
    put_records(&mut file, records)?;
    Ok(file)
}
