//! Reading the parts of session files, up to the first fault.
ghost use Rattle.std.specs.Prelude.{◌≡◌, ℕ, true, ◌*◌, ◌+◌, ◌-◌, ◌<◌, ◌≤◌, ◌++◌, ◌⊎◌, [], length, Ok, IfOk, IfErr};
ghost use Rattle.std.specs.Int.{w16, w64};
ghost use Rattle.std.specs.List.{flat_map};
ghost use Rattle.std.specs.Simd.{first_chunks};
ghost use Rattle.d64_image.specs.Disk.{Bytes};
ghost use Rattle.d64_image.specs.Image.{IsSize, is_image_length};
ghost use Rattle.d64_image.specs.declared.block.TheConstants.{BLOCKS};
ghost use Rattle.d64_image.specs.declared.image.TheConstants.{BLOCK_BYTES};
ghost use Rattle.d64_history.specs.ResumeFault.{bytes_at, number_at, after_magic, block_count_at, image_at, counts_at, index_at, read_block_at, blocks_at, record_file_at};
ghost use Rattle.d64_history.specs.Resuming.{Gives, Fails, IsEndOf, IsStarted, start_at, start_seen};
ghost use Rattle.d64_history.specs.SessionFile.{magic, record_file};

use crate::keeping::MAGIC;
use crate::resume_fault::ResumeFault;
use d64_image::{BLOCK_BYTES, BLOCKS, BlockNo, Image, ImageFault, Patch, PatchList, blocks_of};
use std::alloc::Global;

/// The parts of a session file, as far as they were read.
#[derive(Drop)]
pub(crate) struct FileParts {
    pub(crate) image: Image,
    /// How many of the records are done.
    pub(crate) done: u64,
    /// How many records the file has.
    pub(crate) count: u64,
    /// The records that were read.
    pub(crate) records: PatchList,
}

/// Takes `count` bytes. Returns them and the bytes after them.
fn take_bytes(bytes: &[u8], count: usize) -> Result<(&[u8], &[u8]), ResumeFault>
    ensures { Gives (λ x. (x.0.now, x.1.now)) result (bytes_at count bytes.now) }
{
    if bytes.len() < count {
        return Err(ResumeFault::Truncated);
    }
    Ok(bytes.split_at(count))
}

/// Reads a number of two bytes.
fn read_u16(bytes: &[u8]) -> Result<(u16, &[u8]), ResumeFault>
    ensures { Gives (λ x. (x.0, x.1.now)) result (number_at w16 bytes.now) }
{
    match bytes.split_first_chunk::<2>() {
        Some((digits, rest)) => Ok((u16::from_le_bytes(*digits), rest)),
        None => Err(ResumeFault::Truncated),
    }
}

/// Reads a number of eight bytes.
fn read_u64(bytes: &[u8]) -> Result<(u64, &[u8]), ResumeFault>
    ensures { Gives (λ x. (x.0, x.1.now)) result (number_at w64 bytes.now) }
{
    match bytes.split_first_chunk::<8>() {
        Some((digits, rest)) => Ok((u64::from_le_bytes(*digits), rest)),
        None => Err(ResumeFault::Truncated),
    }
}

/// The bytes after those at the beginning of each session file.
#[tactic(auto, unfolding(crate::specs::ResumeFault::after_magic))]
fn skip_magic(bytes: &[u8]) -> Result<&[u8], ResumeFault>
    ensures { Gives (λ x. x.now) result (after_magic magic bytes.now) }
{
    let mut rest = bytes;
    for byte in &MAGIC {
        match rest.split_first() {
            None => return Err(ResumeFault::Truncated),
            Some((first, after)) => {
                if first != byte {
                    return Err(ResumeFault::NotSession);
                }
                rest = after;
            }
        }
    }
    Ok(rest)
}

/// Reads how many blocks the image has, by the number of the disk's tracks.
#[tactic(auto, unfolding(crate::specs::ResumeFault::block_count_at))]
fn read_block_count(bytes: &[u8]) -> Result<(usize, &[u8]), ResumeFault>
    ensures count { Gives (λ x. (x.0, x.1.now)) result (block_count_at bytes.now) }
    ensures size { IfOk result (λ x. IsSize x.0) }
{
    match bytes.split_first() {
        None => Err(ResumeFault::Truncated),
        Some((tracks, rest)) => match blocks_of(*tracks) {
            Some(blocks) => Ok((blocks, rest)),
            None => Err(ResumeFault::NotSession),
        },
    }
}

/// The image of these bytes.
fn image_of(alloc: Global, bytes: &[u8]) -> Result<Image, ResumeFault>
    requires { is_image_length (length bytes.now) ≡ true }
    ensures { (blocks : ℕ) → length bytes.now ≡ blocks * BLOCK_BYTES → Gives (λ image. image) result (Ok (first_chunks BLOCK_BYTES blocks bytes.now)) }
{
    match Image::from_bytes(alloc, bytes) {
        Ok(image) => Ok(image),
        Err(ImageFault::Memory(error)) => Err(ResumeFault::Memory(error)),
        Err(ImageFault::WrongLength(_)) => unreachable!(),
    }
}

/// Reads the beginning and the image.
#[tactic(auto, unfolding(crate::specs::ResumeFault::image_at))]
fn read_image(alloc: Global, bytes: &[u8]) -> Result<(Image, &[u8]), ResumeFault>
    ensures { Gives (λ x. (x.0, x.1.now)) result (image_at bytes.now) }
{
    let rest = skip_magic(bytes)?;
    let (blocks, rest) = read_block_count(rest)?;
    let (content, rest) = take_bytes(rest, blocks * BLOCK_BYTES)?;
    Ok((image_of(alloc, content)?, rest))
}

/// Reads how many records are done, and how many there are.
#[tactic(auto, unfolding(crate::specs::ResumeFault::counts_at))]
fn read_counts(bytes: &[u8]) -> Result<((u64, u64), &[u8]), ResumeFault>
    ensures { Gives (λ x. ((x.0.0, x.0.1), x.1.now)) result (counts_at bytes.now) }
{
    let (done, rest) = read_u64(bytes)?;
    let (count, rest) = read_u64(rest)?;
    if count < done {
        return Err(ResumeFault::BadCursor);
    }
    Ok(((done, count), rest))
}

/// Reads the index of a block of an image of `blocks` blocks, from `low` on.
#[tactic(auto, unfolding(crate::specs::ResumeFault::index_at))]
fn read_index(bytes: &[u8], low: usize, blocks: usize) -> Result<(BlockNo, &[u8]), ResumeFault>
    requires { blocks ≤ BLOCKS }
    ensures { Gives (λ x. (x.0, x.1.now)) result (index_at blocks low bytes.now) }
{
    let (number, rest) = read_u16(bytes)?;
    let index = usize::from(number);
    if index < low || index >= blocks {
        return Err(ResumeFault::BadRecord);
    }
    match BlockNo::at(index) {
        Some(block) => Ok((block, rest)),
        None => Err(ResumeFault::BadRecord),
    }
}

/// Reads the index of such a block, and its bytes.
#[tactic(auto, unfolding(crate::specs::ResumeFault::read_block_at))]
fn read_block<'a>(
    bytes: &'a [u8],
    low: usize,
    blocks: usize,
) -> Result<((BlockNo, &'a [u8; BLOCK_BYTES]), &'a [u8]), ResumeFault>
    requires { blocks ≤ BLOCKS }
    ensures { Gives (λ x. ((x.0.0, x.0.1.now), x.1.now)) result (read_block_at blocks low bytes.now) }
{
    match read_index(bytes, low, blocks) {
        Ok((block, rest)) => match rest.split_first_chunk::<BLOCK_BYTES>() {
            Some((content, rest)) => Ok(((block, content), rest)),
            None => Err(ResumeFault::Truncated),
        },
        Err(fault) => Err(fault),
    }
}

/// Reads blocks that ascend, as many as asked for.
fn read_blocks(
    alloc: Global,
    count: u16,
    blocks: usize,
    bytes: &[u8],
) -> Result<(Patch, &[u8]), ResumeFault>
    requires { blocks ≤ BLOCKS }
    ensures { Gives (λ x. (x.0, x.1.now)) result (blocks_at blocks count 0 bytes.now) }
{
    let mut patch = Patch::new(alloc);
    let mut low = 0;
    let mut rest = bytes;
    for _ in 0..count {
        match read_block(rest, low, blocks) {
            Ok((entry, after)) => {
                patch.push(entry.0, entry.1)?;
                low = entry.0.index() + 1;
                rest = after;
            }
            Err(fault) => return Err(fault),
        }
    }
    Ok((patch, rest))
}

/// Reads a record: how many blocks it has, and these.
#[tactic(auto, unfolding(crate::specs::ResumeFault::record_file_at))]
fn read_record(alloc: Global, blocks: usize, bytes: &[u8]) -> Result<(Patch, &[u8]), ResumeFault>
    requires { blocks ≤ BLOCKS }
    ensures { Gives (λ x. (x.0, x.1.now)) result (record_file_at blocks bytes.now) }
{
    let (count, rest) = read_u16(bytes)?;
    read_blocks(alloc, count, blocks, rest)
}

/// Reads the parts before the records.
pub(crate) fn read_start(alloc: Global, bytes: &[u8]) -> Result<(FileParts, &[u8]), ResumeFault>
    ensures start { Gives (λ x. (start_seen x.0, x.1.now)) result (start_at bytes.now) }
    ensures none { IfOk result (λ x. x.0.records ≡ []) }
{
    let (image, rest) = read_image(alloc, bytes)?;
    let ((done, count), rest) = read_counts(rest)?;
    let parts = FileParts {
        image,
        done,
        count,
        records: PatchList::new(alloc),
    };
    Ok((parts, rest))
}

/// Reads the records that are still to come, as long as enough bytes are left. Room is made for
/// each as it is read: each has bytes of its own in the file, and there may be fewer than the file
/// counts.
pub(crate) fn read_records<'a>(
    alloc: Global,
    parts: &mut FileParts,
    bytes: &'a [u8],
    enough: usize,
) -> Result<&'a [u8], ResumeFault>
    requires { IsStarted parts.old }
    ensures started { IsStarted parts.new }
    ensures same { start_seen parts.new ≡ start_seen parts.old }
    ensures read { IfOk result (λ rest. flat_map record_file parts.old.records ++ bytes.now ≡ flat_map record_file parts.new.records ++ rest.now) }
    ensures end { IfOk result (λ rest. IsEndOf rest.now bytes.now) }
    ensures all { IfOk result (λ rest. (length parts.new.records ≡ parts.new.count) ⊎ (length rest.now < enough)) }
    ensures fault { IfErr result (λ fault. (rest : Bytes)
        × (flat_map record_file parts.old.records ++ bytes.now ≡ flat_map record_file parts.new.records ++ rest)
        × (length parts.new.records < parts.new.count)
        × (enough ≤ length rest)
        × Fails fault (record_file_at (length parts.new.image) rest)) }
{
    let mut rest = bytes;
    for _ in parts.records.len() as u64..parts.count {
        if rest.len() < enough {
            break;
        }
        let (record, after) = read_record(alloc, block_count(&parts.image), rest)?;
        parts.records.push(&record)?;
        rest = after;
    }
    Ok(rest)
}

/// How many blocks an image has.
fn block_count(image: &Image) -> usize
    ensures count { result ≡ length image.now }
    ensures within { result ≤ BLOCKS }
{
    image.bytes().len() / BLOCK_BYTES
}
