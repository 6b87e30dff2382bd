//! Lists of patches.
ghost use Rattle.std.specs.Prelude.{◌≡◌, ◌+◌, ◌<◌, ◌≤◌, ◌++◌, ◌∷◌, [], length, take, slice_index_or, slice_set, nat_lt, if◌then◌else◌, Some, None, vec_capacity, All, OnOk, OnErr};
ghost use Rattle.d64_image.specs.Patch.{HaveBlocks, IsPatch, IsPatchOf, restored_image, taken_blocks};
ghost use Rattle.d64_image.specs.PatchList.{blocks_before};

use crate::block::BlockNo;
use crate::image::{BLOCK_BYTES, Image};
use crate::patch::{Patch, swap_blocks};
use std::alloc::{AllocError, Global};
use std::marker::Model;

/// A place in a list of patches: before all, between two of them, or after all.
#[derive(Clone, Copy)]
pub struct Place {
    /// How many patches come before it.
    pub number: usize,
    /// How many blocks these keep.
    pub blocks: usize,
}

/// How many blocks a list has room for at first. Memory that is not written to costs nothing, and a
/// list that begins smaller is moved, and leaves memory behind, each time that it doubles.
const FIRST_BLOCKS: usize = 512;

/// A list of patches, kept as two lists.
#[derive(Drop)]
pub struct PatchList {
    /// How many blocks each patch keeps.
    lens: Vec<u16>,
    /// The kept blocks of all patches, one after another.
    blocks: Vec<(BlockNo, [u8; BLOCK_BYTES])>,
}

impl Model for PatchList {
    ghost use Rattle.std.specs.Prelude.{◌≡◌, List, length, All};
    ghost use Rattle.d64_image.specs.Patch.{Kept, IsPatch, HaveBlocks};
    ghost use Rattle.d64_image.specs.PatchList.{cut_blocks, total};

    ghost Value = { List Kept };

    ghost view = { λ patches. cut_blocks patches.lens.items patches.blocks.items };

    ghost invariant = { λ patches. (total patches.lens.items ≡ length patches.blocks.items)
        × All IsPatch (cut_blocks patches.lens.items patches.blocks.items)
        × All HaveBlocks (cut_blocks patches.lens.items patches.blocks.items) };
}

/// Makes room for the first blocks of a list that has no room yet.
fn reserve_first(blocks: &mut Vec<(BlockNo, [u8; BLOCK_BYTES])>) -> Result<(), AllocError>
    ensures same { blocks.new.items ≡ blocks.old.items }
    ensures room { OnOk result (0 < vec_capacity blocks.new) }
{
    if blocks.capacity() > 0 {
        return Ok(());
    }
    blocks.reserve_exact(FIRST_BLOCKS)
}

impl PatchList {
    /// An empty list. It allocates nothing.
    pub fn new(alloc: Global) -> PatchList
        ensures { result ≡ [] }
    {
        PatchList {
            lens: Vec::new(alloc),
            blocks: Vec::new(alloc),
        }
    }

    /// How many patches there are.
    pub fn len(&self) -> usize
        ensures { result ≡ length self.now }
    {
        self.lens.len()
    }

    /// Does nothing: its contract states what each patch is, for callers that need it in a proof.
    pub fn known_patches(&self)
        ensures { All HaveBlocks self.now }
    {
        self.blocks.len();
    }

    /// The place after the last patch.
    pub fn end(&self) -> Place
        ensures number { result.number ≡ length self.now }
        ensures blocks { result.blocks ≡ blocks_before self.now (length self.now) }
    {
        Place {
            number: self.lens.len(),
            blocks: self.blocks.len(),
        }
    }

    /// The place before a patch, or after the last one. It counts the blocks from the beginning.
    pub fn place_before(&self, number: usize) -> Place
        requires { number ≤ length self.now }
        ensures number { result.number ≡ number }
        ensures blocks { result.blocks ≡ blocks_before self.now number }
    {
        let (lens, _) = self.lens.split_at(number);
        let mut blocks = 0;
        for len in lens {
            blocks += usize::from(*len);
        }
        Place { number, blocks }
    }

    /// The place before the patch that ends at a place.
    pub fn previous(&self, place: Place) -> Place
        requires within { (0 < place.number) × (place.number ≤ length self.now) }
        requires place { place.blocks ≡ blocks_before self.now place.number }
        ensures number { result.number + 1 ≡ place.number }
        ensures blocks { result.blocks ≡ blocks_before self.now result.number }
    {
        let number = place.number - 1;
        Place {
            number,
            blocks: place.blocks - usize::from(self.lens[number]),
        }
    }

    /// The place after the patch that begins at a place.
    pub fn next(&self, place: Place) -> Place
        requires within { place.number < length self.now }
        requires place { place.blocks ≡ blocks_before self.now place.number }
        ensures number { result.number ≡ place.number + 1 }
        ensures blocks { result.blocks ≡ blocks_before self.now result.number }
    {
        Place {
            blocks: place.blocks + usize::from(self.lens[place.number]),
            number: place.number + 1,
        }
    }

    /// The blocks of the patch that begins at a place.
    pub fn at(&self, place: Place) -> &[(BlockNo, [u8; BLOCK_BYTES])]
        requires within { place.number < length self.now }
        requires place { place.blocks ≡ blocks_before self.now place.number }
        ensures kept { result.now ≡ slice_index_or self.now place.number [] }
        ensures ascending { IsPatch result.now }
    {
        let (_, rest) = self.blocks.split_at(place.blocks);
        let (blocks, _) = rest.split_at(usize::from(self.lens[place.number]));
        blocks
    }

    /// Removes the patches after a place, and adds one there.
    pub fn replace_from(&mut self, place: Place, patch: &Patch) -> Result<(), AllocError>
        requires within { place.number ≤ length self.old }
        requires place { place.blocks ≡ blocks_before self.old place.number }
        ensures replaced { OnOk result (self.new ≡ take place.number self.old ++ patch.now ∷ []) }
        ensures unchanged { OnErr result (self.new ≡ self.old) }
    {
        let blocks = patch.blocks();
        let end = self.blocks.len();
        self.lens.reserve(1)?;
        reserve_first(&mut self.blocks)?;
        self.blocks.extend_from_slice(blocks)?;
        self.blocks.copy_within(end.., place.blocks);
        self.blocks.truncate(place.blocks + blocks.len());
        self.lens.truncate(place.number);
        self.lens.push(blocks.len() as u16).unwrap();
        Ok(())
    }

    /// Adds a patch at the end.
    pub fn push(&mut self, patch: &Patch) -> Result<(), AllocError>
        ensures pushed { OnOk result (self.new ≡ self.old ++ patch.now ∷ []) }
        ensures unchanged { OnErr result (self.new ≡ self.old) }
    {
        let end = self.end();
        self.replace_from(end, patch)
    }

    /// Swaps the bytes of each block of the patch that begins at a place with those of the image,
    /// which has each of these blocks. It allocates nothing.
    pub fn swap(&mut self, place: Place, image: &mut Image)
        requires within { place.number < length self.old }
        requires place { place.blocks ≡ blocks_before self.old place.number }
        requires held { IsPatchOf image.old (slice_index_or self.old place.number []) }
        ensures patch { self.new ≡ slice_set self.old place.number (taken_blocks image.old (slice_index_or self.old place.number [])) }
        ensures image { image.new ≡ restored_image image.old (slice_index_or self.old place.number []) }
    {
        image.known_image();
        let len = usize::from(self.lens[place.number]);
        let (_, rest) = self.blocks.split_at_mut(place.blocks);
        let (blocks, _) = rest.split_at_mut(len);
        swap_blocks(blocks, image);
    }

    /// Writes the bytes of each block of the patch that begins at a place into the image, which has
    /// each of these blocks. It allocates nothing.
    pub fn put_back(&self, place: Place, image: &mut Image)
        requires within { place.number < length self.now }
        requires place { place.blocks ≡ blocks_before self.now place.number }
        requires held { IsPatchOf image.old (slice_index_or self.now place.number []) }
        ensures { image.new ≡ restored_image image.old (slice_index_or self.now place.number []) }
    {
        for entry in self.at(place) {
            *image.sector_mut(entry.0) = entry.1;
        }
    }

    /// How many blocks a patch keeps, or None if there is no such patch.
    pub fn len_of(&self, number: usize) -> Option<usize>
        ensures { result ≡ (if nat_lt number (length self.now) then Some (length (slice_index_or self.now number [])) else None) }
    {
        Some(usize::from(*self.lens.get(number)?))
    }
}
