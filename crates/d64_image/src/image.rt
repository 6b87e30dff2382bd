//! Images of disks.
ghost use Rattle.std.specs.Prelude.{◌≡◌, ◌<◌, ◌*◌, if◌then◌else◌, Option, Some, None, IfOk, IfErr, IfSome, OnOk, OnErr, All, nat_eq, nat_lt, replicate, length};
ghost use Rattle.std.specs.Borrow.{sem};
ghost use Rattle.std.specs.List.{range_with_len};
ghost use Rattle.std.specs.Cmp.Lexicographic.{pointwise};
ghost use Rattle.d64_image.specs.Disk.{AreBytes};
ghost use Rattle.d64_image.specs.Image.{IsBlock, IsImage, IsSize, blocks_of, bytes_of, is_image_length, sector_at, tracks_of};
ghost use Rattle.d64_image.specs.ImageFault.{wrong_length};

use crate::block::{BLOCKS, BLOCKS_OF_35, BlockNo, Blocks};
use crate::block_bytes::same_bytes;
use crate::track::{TRACKS, Tracks};
use std::alloc::{AllocError, AllocFailed, Global};
use std::marker::Model;
use thiserror::Error;

/// How many bytes a block has.
pub const BLOCK_BYTES: usize = 256;

/// How many tracks the smaller image has.
const FEWER_TRACKS: u8 = 35;

/// Why bytes make no image.
#[derive(Clone, Debug, PartialEq, Eq, Drop, Error)]
pub enum ImageFault {
    /// There are this many bytes. An image has 174,848 or 196,608.
    #[error("an image has 174848 or 196608 bytes, and these are {0}")]
    WrongLength(usize),
    #[error("out of memory")]
    Memory(AllocError),
}

/// The content of a disk: its blocks of 256 bytes, 683 on 35 tracks or 768 on 40, in one buffer. It
/// is written through a `Patch`.
#[derive(Drop)]
pub struct Image {
    sectors: Vec<[u8; BLOCK_BYTES]>,
}

impl Model for Image {
    ghost use Rattle.std.specs.Prelude.{ℕ, List, length};
    ghost use Rattle.d64_image.specs.Image.{IsSize};

    ghost Value = { List (List ℕ) };

    ghost view = { λ image. image.sectors.items };

    ghost invariant = { λ image. IsSize (length image.sectors.items) };
}

/// Does nothing: its contract states that each sector of a slice has the bytes of a block.
fn known_lengths(_sectors: &[[u8; BLOCK_BYTES]])
    ensures { All (λ sector. length sector ≡ BLOCK_BYTES) _sectors.now }
{}

/// Does nothing: its contract states what the bytes of a slice are, for callers that need it in a
/// proof.
pub fn known_bytes(_bytes: &[u8])
    ensures { AreBytes _bytes.now }
{}

/// How many blocks an image of this many tracks has, or None if no image has as many.
pub fn blocks_of(tracks: u8) -> Option<usize>
    ensures count { result ≡ blocks_of tracks }
    ensures size { IfSome result IsSize }
{
    match tracks {
        FEWER_TRACKS => Some(BLOCKS_OF_35),
        TRACKS => Some(BLOCKS),
        _ => None,
    }
}

/// The blocks that some bytes make, or `WrongLength` if their number is not that of an image.
fn sectors_in(bytes: &[u8]) -> Result<&[[u8; BLOCK_BYTES]], ImageFault>
    ensures refused { wrong_length result ≡ (if is_image_length (length bytes.now) then None else Some (length bytes.now)) }
    ensures ample { IfErr result (λ fault. fault ≡ ImageFault.WrongLength (length bytes.now)) }
    ensures kept { IfOk result (λ sectors. bytes_of sectors.now ≡ bytes.now) }
    ensures image { IfOk result (λ sectors. IsImage sectors.now) }
{
    if bytes.len() != BLOCKS_OF_35 * BLOCK_BYTES && bytes.len() != BLOCKS * BLOCK_BYTES {
        return Err(ImageFault::WrongLength(bytes.len()));
    }
    known_bytes(bytes);
    let (sectors, _) = bytes.as_chunks::<BLOCK_BYTES>();
    Ok(sectors)
}

/// Allocates `count` blocks of zeros.
fn blank(alloc: Global, count: usize) -> Result<Vec<[u8; BLOCK_BYTES]>, AllocError>
    ensures { IfOk result (λ sectors. sectors.items ≡ replicate count (replicate BLOCK_BYTES 0)) }
{
    let mut sectors = Vec::with_capacity(alloc, count)?;
    for _ in 0..count {
        sectors.push([0; BLOCK_BYTES])?;
    }
    Ok(sectors)
}

impl Image {
    ghost use Rattle.d64_image.specs.Lending.{LendsSector};

    /// Makes an image of bytes as they lie in a D64 file. `WrongLength` comes unless there are
    /// 174,848 bytes, as of 35 tracks, or 196,608, as of 40.
    pub fn from_bytes(alloc: Global, bytes: &[u8]) -> Result<Image, ImageFault>
        ensures refused { wrong_length result ≡ (if is_image_length (length bytes.now) then None else Some (length bytes.now)) }
        ensures kept { IfOk result (λ image. bytes_of image ≡ bytes.now) }
        ensures image { IfOk result IsImage }
    {
        let sectors = sectors_in(bytes)?;
        Ok(Image {
            sectors: Vec::from_slice(alloc, sectors).map_err(ImageFault::Memory)?,
        })
    }

    /// Replaces the image by the one of these bytes, as `from_bytes` makes it. After an error the
    /// image is unchanged. Memory is needed only if the new image has more blocks than any before
    /// it.
    pub fn refill(&mut self, bytes: &[u8]) -> Result<(), ImageFault>
        ensures refused { wrong_length result ≡ (if is_image_length (length bytes.now) then None else Some (length bytes.now)) }
        ensures filled { OnOk result (bytes_of self.new ≡ bytes.now) }
        ensures image { OnOk result (IsImage self.new) }
        ensures unchanged { OnErr result (self.new ≡ self.old) }
    {
        let sectors = sectors_in(bytes)?;
        let count = self.sectors.len();
        if count < sectors.len() {
            self.sectors
                .extend_from_slice(&sectors[count..])
                .map_err(ImageFault::Memory)?;
        }
        self.sectors.truncate(sectors.len());
        self.sectors.as_mut_slice().copy_from_slice(sectors);
        Ok(())
    }

    /// A blank image of 35 tracks, with zeros in all its blocks.
    pub fn zeroed(alloc: Global) -> Result<Image, AllocError>
        ensures { IfOk result (λ image. image ≡ replicate 683 (replicate BLOCK_BYTES 0)) }
    {
        Ok(Image {
            sectors: blank(alloc, BLOCKS_OF_35)?,
        })
    }

    /// A blank image of 40 tracks, with zeros in all its blocks.
    pub fn zeroed40(alloc: Global) -> Result<Image, AllocError>
        ensures { IfOk result (λ image. image ≡ replicate 768 (replicate BLOCK_BYTES 0)) }
    {
        Ok(Image {
            sectors: blank(alloc, BLOCKS)?,
        })
    }

    /// A copy of the image.
    pub fn try_clone(&self, alloc: Global) -> Result<Image, AllocError>
        ensures { IfOk result (λ image. image ≡ self.now) }
    {
        Ok(Image {
            sectors: Vec::from_slice(alloc, self.sectors.as_slice())?,
        })
    }

    /// The image's bytes, as they lie in a D64 file.
    pub fn bytes(&self) -> &[u8]
        ensures value { result.now ≡ bytes_of self.now }
        ensures len { length result.now ≡ length self.now * BLOCK_BYTES }
        ensures image { IsImage self.now }
    {
        known_lengths(self.sectors.as_slice());
        let bytes = self.sectors.as_flattened();
        known_bytes(bytes);
        bytes
    }

    /// Does nothing: its contract states what an image is, for callers that need it in a proof.
    pub fn known_image(&self)
        ensures size { IsSize (length self.now) }
        ensures image { IsImage self.now }
    {
        self.bytes();
    }

    /// How many tracks the image has: 35 or 40.
    pub fn tracks(&self) -> u8
        ensures value { result ≡ tracks_of (length self.now) }
        ensures size { IsSize (length self.now) }
    {
        if self.sectors.len() == BLOCKS {
            TRACKS
        } else {
            FEWER_TRACKS
        }
    }

    /// The tracks that the image has, ascending.
    pub fn each_track(&self) -> Tracks
        ensures value { result ≡ range_with_len 1 (tracks_of (length self.now)) }
        ensures size { IsSize (length self.now) }
    {
        Tracks::up_to(self.tracks())
    }

    /// Whether the image has a block. Each image has the blocks of tracks 1 to 35, and one of 40
    /// tracks those of tracks 36 to 40 too.
    pub fn holds(&self, block: BlockNo) -> bool
        ensures value { result ≡ nat_lt block (length self.now) }
        ensures size { IsSize (length self.now) }
    {
        block.index() < self.sectors.len()
    }

    /// The blocks that the image has, ascending.
    pub fn blocks(&self) -> Blocks
        ensures value { result ≡ range_with_len 0 (length self.now) }
        ensures size { IsSize (length self.now) }
    {
        Blocks::up_to(self.sectors.len())
    }

    /// The 256 bytes of a block that the image has, borrowed from its buffer.
    pub fn sector(&self, block: BlockNo) -> &[u8; BLOCK_BYTES]
        requires { block < length self.now }
        ensures value { result.now ≡ sector_at self.now block }
        ensures block { IsBlock result.now }
    {
        let sector = &self.sectors[block.index()];
        known_bytes(sector);
        sector
    }

    /// The 256 bytes of a block that the image has, to be written in place.
    pub(crate) fn sector_mut(&mut self, block: BlockNo) -> &mut [u8; BLOCK_BYTES]
        requires { block < length self.old }
        ensures* written { sem 𝓛 (LendsSector self.entry block result) }
        ensures value { result.now ≡ sector_at self.old block }
    {
        &mut self.sectors[block.index()]
    }

    /// Whether the image has a block with these 256 bytes.
    pub fn has_bytes(&self, block: BlockNo, bytes: &[u8; BLOCK_BYTES]) -> bool
        ensures { result ≡ pointwise nat_eq bytes.now (sector_at self.now block) }
    {
        match self.sectors.get(block.index()) {
            Some(sector) => same_bytes(bytes, sector),
            None => false,
        }
    }
}
