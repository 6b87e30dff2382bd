//! The writers of files: their entries in the directory, and their chains of blocks (the VICE
//! manual, "The D64 disk image format").
//!
//! They write through a patch, which keeps the blocks that they replace: putting the patch back
//! still gives the same image. An error comes if there is no memory to keep a block's bytes. Then
//! some blocks may be written, and putting the patch back still gives the image from before.
ghost use Rattle.std.specs.Prelude.{◌≡◌, ◌≢◌, ◌+◌, ◌*◌, ◌<◌, ◌≤◌, [], length, OnOk};
ghost use Rattle.d64_image.specs.Image.{sector_at};
ghost use Rattle.d64_image.specs.Patch.{StillRestores};
ghost use Rattle.d64_files.specs.Chain.{LieIn};
ghost use Rattle.d64_files.specs.Directory.{directory, slots};
ghost use Rattle.d64_files.specs.Writing.{written_at, pair_bytes, with_bytes, blocks_for, linked_block, last_block, with_chain, entry_bytes, with_entry, dir_last, empty_directory, with_growth};

use crate::block_bytes::write_at;
use crate::directory_blocks::{block_of_slot, last_directory_block};
use crate::entry::{SLOT_BYTES, SlotNo};
use crate::kind::Kind;
use crate::label::MAX_LEN;
use crate::name::{FILLER, Name};
use crate::slots::SLOTS_PER_BLOCK;
use d64_image::{BLOCK_BYTES, BlockNo, Image, Patch};
use std::alloc::AllocError;

/// How many bytes of data a block of a file has, beside its link.
const DATA_BYTES: usize = BLOCK_BYTES - 2;

/// The bit of the type byte that says that a file is closed.
pub(crate) const CLOSED: u8 = 0x80;

/// How many bytes of an entry come between its name and its size: those of a REL file's side blocks
/// and records, and others without a use here.
const SIDE_BYTES: usize = 9;

/// How many blocks a file of this many bytes takes: as few as hold them, at 254 bytes a block, and
/// at least one.
pub fn blocks_for(bytes: usize) -> usize
    ensures { result ≡ blocks_for bytes }
{
    bytes.div_ceil(DATA_BYTES).max(1)
}

/// Writes the entry of a closed file into a block of the directory, from the type byte of its slot
/// on.
fn write_entry(
    block: &mut [u8; BLOCK_BYTES],
    start: usize,
    name: &Name,
    kind: Kind,
    first: BlockNo,
    blocks: u16,
)
    requires { start + 30 ≤ 256 }
    ensures { block.new ≡ written_at block.old start (entry_bytes name.now kind first blocks) }
{
    write_at(
        block,
        start,
        &[CLOSED + kind.number(), first.track(), first.sector()],
    );
    write_at(block, start + 3, &[FILLER; MAX_LEN]);
    write_at(block, start + 3, name.bytes());
    write_at(block, start + 19, &[0; SIDE_BYTES]);
    write_at(block, start + 28, &blocks.to_le_bytes());
}

/// A closed file as its entry in the directory describes it, without side blocks.
#[derive(Clone, Copy)]
pub struct ClosedFile<'n> {
    pub name: &'n Name,
    pub kind: Kind,
    /// The first block of its data.
    pub first: BlockNo,
    /// The size that the directory shows, in blocks.
    pub blocks: u16,
}

/// Writes the entry of a closed file into one of the eight slots, counted from 0, of a block of the
/// directory, which the image has: its kind, its first block, its name, no side blocks, and the
/// size in blocks that the directory shows. Every other byte of the image stays.
///
/// An error comes if there is no memory to keep the block's bytes: putting the patch back still
/// gives the image from before.
pub fn put_entry_at(
    image: &mut Image,
    patch: &mut Patch,
    block: BlockNo,
    index: usize,
    file: &ClosedFile,
) -> Result<(), AllocError>
    requires block { block < length image.old }
    requires slot { index < 8 }
    ensures written { OnOk result (image.new ≡ with_bytes image.old block (32 * index + 2) (entry_bytes file.now.name.now file.now.kind file.now.first file.now.blocks)) }
    ensures back { StillRestores image.old patch.old image.new patch.new }
{
    let start = SLOT_BYTES * index + 2;
    let mut bytes = *image.sector(block);
    write_entry(
        &mut bytes,
        start,
        file.name,
        file.kind,
        file.first,
        file.blocks,
    );
    patch.write(image, block, &bytes)
}

/// Writes the entry of a closed file into a slot of the directory: its kind, its first block, its
/// name, no side blocks, and the size in blocks that the directory shows. The first two bytes of
/// the slot stay, and so does every other byte of the image.
///
/// An error comes if there is no memory to keep the block's bytes: putting the patch back still
/// gives the image from before. The directory must have that slot.
pub fn put_entry(
    image: &mut Image,
    patch: &mut Patch,
    slot: SlotNo,
    name: &Name,
    kind: Kind,
    first: BlockNo,
    blocks: u16,
) -> Result<(), AllocError>
    requires directory { directory image.old ≢ [] }
    requires slot { slot < length (slots image.old) }
    ensures written { OnOk result (image.new ≡ with_entry image.old slot (entry_bytes name.now kind first blocks)) }
    ensures back { StillRestores image.old patch.old image.new patch.new }
{
    let block = block_of_slot(image, slot);
    let index = slot.place() % SLOTS_PER_BLOCK;
    let file = ClosedFile {
        name,
        kind,
        first,
        blocks,
    };
    put_entry_at(image, patch, block, index, &file)
}

/// A block of a file before its last one: the link to the next block, and the first 254 of the
/// bytes.
fn linked_block(next: BlockNo, bytes: &[u8]) -> [u8; BLOCK_BYTES]
    requires { 254 ≤ length bytes.now }
    ensures { result ≡ linked_block next bytes.now }
{
    let mut block = [0; BLOCK_BYTES];
    write_at(&mut block, 0, &[next.track(), next.sector()]);
    write_at(&mut block, 2, &bytes[..DATA_BYTES]);
    block
}

/// The last block of a file: no link, the index of the last byte used, the bytes, and zeros.
fn last_block(bytes: &[u8]) -> [u8; BLOCK_BYTES]
    requires { length bytes.now ≤ 254 }
    ensures { result ≡ last_block bytes.now }
{
    let mut block = [0; BLOCK_BYTES];
    block[1] = bytes.len() as u8 + 1;
    write_at(&mut block, 2, bytes);
    block
}

/// Writes the data of a file into blocks of the image, each linked to the next. No other block
/// changes.
///
/// An error comes if there is no memory to keep a block's bytes: then some blocks may be written,
/// and putting the patch back still gives the image from before. There must be as many blocks as
/// the file takes.
pub fn put_chain(
    image: &mut Image,
    patch: &mut Patch,
    blocks: &[BlockNo],
    bytes: &[u8],
) -> Result<(), AllocError>
    requires blocks { LieIn image.old blocks.now }
    requires count { length blocks.now ≡ blocks_for (length bytes.now) }
    ensures written { OnOk result (image.new ≡ with_chain image.old blocks.now bytes.now) }
    ensures back { StillRestores image.old patch.old image.new patch.new }
{
    let last = blocks.len() - 1;
    let mut rest = bytes;
    for place in 0..last {
        patch.write(image, blocks[place], &linked_block(blocks[place + 1], rest))?;
        rest = &rest[DATA_BYTES..];
    }
    patch.write(image, blocks[last], &last_block(rest))
}

/// The bytes of the last block of a directory, with eight empty slots.
pub fn empty_directory() -> [u8; BLOCK_BYTES]
    ensures { result ≡ empty_directory }
{
    let mut directory = [0; BLOCK_BYTES];
    directory[1] = 0xFF;
    directory
}

/// The directory's last block, with a link to another one.
fn linked_last(image: &Image, last: BlockNo, next: BlockNo) -> [u8; BLOCK_BYTES]
    requires { last ≡ dir_last image.now }
    ensures linked { result ≡ written_at (sector_at image.now last) 0 (pair_bytes next) }
    ensures within { last < length image.now }
{
    image.known_image();
    let mut bytes = *image.sector(last);
    write_at(&mut bytes, 0, &[next.track(), next.sector()]);
    bytes
}

/// Appends a block of the image to the directory: the last block's link leads to it, and its eight
/// slots are empty. No other byte of the image changes.
///
/// An error comes if there is no memory to keep a block's bytes: then the link may be written, and
/// putting the patch back still gives the image from before. `last` must be the directory's last
/// block.
pub fn grow_after(
    image: &mut Image,
    patch: &mut Patch,
    last: BlockNo,
    new: BlockNo,
) -> Result<(), AllocError>
    requires last { last ≡ dir_last image.old }
    requires new { new < length image.old }
    ensures written { OnOk result (image.new ≡ with_growth image.old new) }
    ensures back { StillRestores image.old patch.old image.new patch.new }
{
    patch.write(image, last, &linked_last(image, last, new))?;
    patch.write(image, new, &empty_directory())
}

/// Appends a block to the directory, as `grow_after` does after its last block. Errors come as
/// there.
///
/// There must be a directory.
pub fn grow(image: &mut Image, patch: &mut Patch, new: BlockNo) -> Result<(), AllocError>
    requires directory { directory image.old ≢ [] }
    requires new { new < length image.old }
    ensures written { OnOk result (image.new ≡ with_growth image.old new) }
    ensures back { StillRestores image.old patch.old image.new patch.new }
{
    let last = last_directory_block(image);
    grow_after(image, patch, last, new)
}
