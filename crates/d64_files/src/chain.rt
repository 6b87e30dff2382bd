//! Chains of blocks: directories and files.
ghost use Rattle.std.specs.Prelude.{◌≡◌, ◌≢◌, ◌<◌, ◌↔◌, true, false, [], List, ℕ, length, IfSome, IsSome, unwrap_or};
ghost use Rattle.d64_files.specs.Chain.{Chain, chain_from as chain_of_pair, block_in as block_of_pair};

use crate::block_list::BlockList;
use d64_image::{BLOCKS, BlockNo, BlockSet, Image};

/// Where the link of a block leads, the track and the sector in its bytes 0 and 1.
#[derive(Clone, Copy)]
pub(crate) enum Link {
    /// Nowhere: the track is 0, and the block is the last of its chain.
    End,
    /// To the next block of the chain.
    To(BlockNo),
    /// Off the disk, which has no such sector.
    Broken,
}

/// The block of a track (from 1) and a sector (from 0), or None if the image has no such block.
#[tactic(auto, unfolding(crate::specs::Chain::block_in))]
pub fn block_in(image: &Image, track: u8, sector: u8) -> Option<BlockNo>
    ensures block { result ≡ block_of_pair image.now track sector }
    ensures held { IfSome result (λ block. block < length image.now) }
{
    let block = BlockNo::of(track, sector)?;
    if image.holds(block) {
        Some(block)
    } else {
        None
    }
}

impl Link {
    ghost use Rattle.d64_files.specs.Chain.{link_of};

    /// The link of a block of the image.
    #[tactic(auto, unfolding(crate::specs::Chain::led_by))]
    pub(crate) fn of(image: &Image, block: BlockNo) -> Link
        requires { block < length image.now }
        ensures { result ≡ link_of image.now block }
    {
        let sector = image.sector(block);
        if sector[0] == 0 {
            return Link::End;
        }
        match block_in(image, sector[0], sector[1]) {
            Some(next) => Link::To(next),
            None => Link::Broken,
        }
    }
}

/// Replaces a list by the chain from a block of the image, and returns whether there is one. There
/// is no chain if a link leads off the disk, or back to a block of the chain; then the list has the
/// blocks up to there.
///
/// It ends after at most as many blocks as the image has, and allocates nothing.
pub(crate) fn follow(image: &Image, start: BlockNo, blocks: &mut BlockList) -> bool
    requires { start < length image.now }
    ensures found { result ≡ true → Chain image.now start blocks.new }
    ensures missing { result ≡ false → (others : List ℕ) → Chain image.now start others → ⊥ }
{
    let mut seen = BlockSet::empty();
    seen.add(start);
    blocks.clear();
    blocks.push(start);
    let mut last = start;
    for _ in 0..BLOCKS {
        match Link::of(image, last) {
            Link::End => return true,
            Link::Broken => return false,
            Link::To(next) => {
                if seen.has(next) {
                    return false;
                }
                seen.add(next);
                blocks.push(next);
                last = next;
            }
        }
    }
    false
}

/// The chain from the block of a track (from 1) and a sector (from 0), or None if the image has no
/// such block or no chain from it.
pub(crate) fn chain_from(image: &Image, track: u8, sector: u8) -> Option<BlockList>
    ensures value { unwrap_or result [] ≡ chain_of_pair image.now track sector }
    ensures exists { IsSome result ↔ (chain_of_pair image.now track sector ≢ []) }
{
    let mut blocks = BlockList::empty();
    if fill_from(image, track, sector, &mut blocks) {
        Some(blocks)
    } else {
        None
    }
}

/// Replaces a list by that chain, and returns whether there is one.
pub(crate) fn fill_from(image: &Image, track: u8, sector: u8, blocks: &mut BlockList) -> bool
    ensures value { result ≡ true → blocks.new ≡ chain_of_pair image.now track sector }
    ensures exists { (result ≡ true) ↔ (chain_of_pair image.now track sector ≢ []) }
{
    match block_in(image, track, sector) {
        Some(start) => follow(image, start, blocks),
        None => false,
    }
}
