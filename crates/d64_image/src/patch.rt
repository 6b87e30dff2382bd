//! Patches: blocks with the bytes that restore an image.
ghost use Rattle.std.specs.Prelude.{◌≡◌, ◌<◌, ◌≤◌, ◌++◌, ◌∷◌, false, [], length, nat_lt, count_by, vec_len, vec_capacity, OnOk, OnErr};
ghost use Rattle.d64_image.specs.declared.block.TheConstants.{BLOCKS};
ghost use Rattle.d64_image.specs.Image.{sector_at, with_sector};
ghost use Rattle.d64_image.specs.Patch.{HaveBlocks, IsPatch, IsPatchOf, RisesBetween, restored_image, changed_blocks, is_kept, with_kept, taken_blocks, trimmed_blocks, StillRestores};

use crate::block::BlockNo;
use crate::image::{BLOCK_BYTES, Image};
use std::alloc::{AllocError, Global};
use std::marker::Model;
use std::mem;

/// The blocks of an image that were overwritten, each once and ascending, with the 256 bytes that
/// each had before.
///
/// A change that is written through a patch can be undone: putting the patch back gives the image
/// from before. A patch that is swapped with its image keeps the bytes from after the change, so
/// that a second swap redoes it.
#[derive(Drop)]
pub struct Patch {
    kept: Vec<(BlockNo, [u8; BLOCK_BYTES])>,
}

impl Model for Patch {
    ghost use Rattle.d64_image.specs.Patch.{Kept, HaveBlocks, IsPatch};

    ghost Value = { Kept };

    ghost view = { λ patch. patch.kept.items };

    ghost invariant = { λ patch. IsPatch patch.kept.items × HaveBlocks patch.kept.items };
}

/// Makes room for one more block. An empty list first gets room for one, and a full list doubles.
fn reserve_next(kept: &mut Vec<(BlockNo, [u8; BLOCK_BYTES])>) -> Result<(), AllocError>
    ensures same { kept.new.items ≡ kept.old.items }
    ensures room { OnOk result (vec_len kept.new < vec_capacity kept.new) }
{
    if kept.len() < kept.capacity() {
        return Ok(());
    }
    kept.reserve_exact(kept.len().max(1))
}

/// Swaps the bytes of each kept block with those of the image, which has each of these blocks.
pub(crate) fn swap_blocks(kept: &mut [(BlockNo, [u8; BLOCK_BYTES])], image: &mut Image)
    requires { IsPatchOf image.old kept.old }
    ensures image { image.new ≡ restored_image image.old kept.old }
    ensures kept { kept.new ≡ taken_blocks image.old kept.old }
{
    for place in 0..kept.len() {
        let entry = &mut kept[place];
        mem::swap(&mut entry.1, image.sector_mut(entry.0));
    }
}

impl Patch {
    /// A patch that keeps no block. It allocates nothing.
    pub fn new(alloc: Global) -> Patch
        ensures { result ≡ [] }
    {
        Patch {
            kept: Vec::new(alloc),
        }
    }

    /// How many blocks are kept.
    pub fn len(&self) -> usize
        ensures { result ≡ length self.now }
    {
        self.kept.len()
    }

    /// The kept blocks with their bytes, ascending.
    pub fn blocks(&self) -> &[(BlockNo, [u8; BLOCK_BYTES])]
        ensures kept { result.now ≡ self.now }
        ensures ascending { IsPatch self.now }
        ensures bytes { HaveBlocks self.now }
    {
        self.kept.as_slice()
    }

    /// Removes all blocks. The allocated memory is kept.
    pub fn clear(&mut self)
        ensures { self.new ≡ [] }
    {
        self.kept.clear();
    }

    /// Whether a block is kept.
    fn keeps(&self, block: BlockNo) -> bool
        ensures { result ≡ is_kept self.now block }
    {
        self.kept.iter().any(|entry| entry.0 == block)
    }

    /// How many of the kept blocks come before a block.
    fn place_of(&self, block: BlockNo) -> usize
        ensures place { result ≡ count_by (λ entry. nat_lt entry.0 block) self.now }
        ensures within { result ≤ length self.now }
        ensures legal { block < BLOCKS }
    {
        let index = block.index();
        self.kept
            .iter()
            .filter(|entry| entry.0.index() < index)
            .count()
    }

    /// Keeps the bytes of a block that is not kept yet.
    fn keep(&mut self, block: BlockNo, bytes: &[u8; BLOCK_BYTES]) -> Result<(), AllocError>
        requires { is_kept self.old block ≡ false }
        ensures kept { OnOk result (self.new ≡ with_kept self.old block bytes.now) }
        ensures unchanged { OnErr result (self.new ≡ self.old) }
    {
        reserve_next(&mut self.kept)?;
        let place = self.place_of(block);
        self.kept.insert(place, (block, *bytes)).unwrap();
        Ok(())
    }

    /// Keeps a block above all that are kept, with these bytes. An error comes if there is no
    /// memory for them.
    pub fn push(&mut self, block: BlockNo, bytes: &[u8; BLOCK_BYTES]) -> Result<(), AllocError>
        requires above { RisesBetween 0 block self.old }
        ensures kept { OnOk result (self.new ≡ self.old ++ (block, bytes.now) ∷ []) }
        ensures unchanged { OnErr result (self.new ≡ self.old) }
    {
        block.known_block();
        reserve_next(&mut self.kept)?;
        self.kept.push((block, *bytes)).unwrap();
        Ok(())
    }

    /// Writes a block that the image has, and keeps the bytes that it had, unless the block is kept
    /// already. An error comes if there is no memory for them, and leaves image and patch
    /// unchanged. A block that is kept already needs no memory.
    pub fn write(
        &mut self,
        image: &mut Image,
        block: BlockNo,
        bytes: &[u8; BLOCK_BYTES],
    ) -> Result<(), AllocError>
        requires { block < length image.old }
        ensures kept { OnOk result (self.new ≡ with_kept self.old block (sector_at image.old block)) }
        ensures written { OnOk result (image.new ≡ with_sector image.old block bytes.now) }
        ensures refused { OnErr result (is_kept self.old block ≡ false) }
        ensures unchanged_patch { OnErr result (self.new ≡ self.old) }
        ensures unchanged_image { OnErr result (image.new ≡ image.old) }
        ensures back { StillRestores image.old self.old image.new self.new }
    {
        if !self.keeps(block) {
            self.keep(block, image.sector(block))?;
        }
        *image.sector_mut(block) = *bytes;
        Ok(())
    }

    /// Swaps the bytes of each kept block with those of the image, which has each of these blocks.
    /// It allocates nothing.
    pub fn swap(&mut self, image: &mut Image)
        requires { IsPatchOf image.old self.old }
        ensures image { image.new ≡ restored_image image.old self.old }
        ensures patch { self.new ≡ taken_blocks image.old self.old }
        ensures back { restored_image image.new self.new ≡ image.old }
        ensures changed { self.old ≡ changed_blocks image.new image.old → self.new ≡ changed_blocks image.old image.new }
        ensures held { IsPatchOf image.new self.new }
    {
        image.known_image();
        swap_blocks(&mut self.kept, image);
    }

    /// Removes the blocks whose kept bytes are those of the image, since putting them back changes
    /// nothing. The image has each kept block. It allocates nothing.
    pub fn trim(&mut self, image: &Image)
        requires { IsPatchOf image.now self.old }
        ensures kept { self.new ≡ trimmed_blocks image.now self.old }
        ensures back { restored_image image.now self.new ≡ restored_image image.now self.old }
        ensures changed { self.new ≡ changed_blocks (restored_image image.now self.old) image.now }
        ensures held { IsPatchOf image.now self.new }
    {
        self.kept
            .retain(|entry| !image.has_bytes(entry.0, &entry.1));
    }
}
