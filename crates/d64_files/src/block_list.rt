//! Lists of blocks that need no memory of their own.
ghost use Rattle.std.specs.Prelude.{◌≡◌, ◌<◌, ◌≤◌, [], ◌∷◌, ◌++◌, length};
ghost use Rattle.d64_image.specs.declared.block.TheConstants.{BLOCKS};

use d64_image::{BLOCKS, BlockNo};
use std::marker::Model;

/// A list of at most as many blocks as an image has.
#[derive(Drop)]
pub struct BlockList {
    /// The blocks of the list, and then others that are not part of it.
    places: [BlockNo; BLOCKS],
    len: usize,
}

impl Model for BlockList {
    ghost use Rattle.std.specs.Prelude.{ℕ, ◌≤◌, List, take};
    ghost use Rattle.d64_image.specs.declared.block.TheConstants.{BLOCKS};

    ghost Value = { List ℕ };

    ghost view = { λ list. take list.len list.places };

    ghost invariant = { λ list. list.len ≤ BLOCKS };
}

impl BlockList {
    /// The empty list.
    pub fn empty() -> BlockList
        ensures { result ≡ [] }
    {
        BlockList {
            places: [BlockNo::default(); BLOCKS],
            len: 0,
        }
    }

    /// Removes all blocks.
    pub fn clear(&mut self)
        ensures { self.new ≡ [] }
    {
        self.len = 0;
    }

    /// Appends a block.
    ///
    /// The list must have room, that is, fewer blocks than an image.
    pub fn push(&mut self, block: BlockNo)
        requires { length self.old < BLOCKS }
        ensures { self.new ≡ self.old ++ block ∷ [] }
    {
        self.places[self.len] = block;
        self.len += 1;
    }

    /// A copy of the list.
    pub fn copy(&self) -> BlockList
        ensures { result ≡ self.now }
    {
        BlockList {
            places: self.places,
            len: self.len,
        }
    }

    /// The blocks of the list, in order.
    pub fn as_slice(&self) -> &[BlockNo]
        ensures value { result.now ≡ self.now }
        ensures len { length result.now ≤ BLOCKS }
    {
        &self.places[..self.len]
    }

    /// Does nothing: its contract states how long a list is at most, for callers that need it in a
    /// proof.
    pub(crate) fn known_list(&self)
        ensures len { length self.now ≤ BLOCKS }
    {
        self.as_slice();
    }
}
