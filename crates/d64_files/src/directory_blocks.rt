//! The directory of an image: the blocks of its chain.
ghost use Rattle.std.specs.Prelude.{◌≡◌, ◌≢◌, ◌*◌, ◌%◌, ◌<◌, ◌≤◌, ◌↔◌, [], length, IfOk, IsSome, MatchResult, unwrap_or};
ghost use Rattle.d64_image.specs.declared.block.TheConstants.{BLOCKS};
ghost use Rattle.d64_files.specs.Directory.{directory_start, directory, slots, entries, AllHold, IsFirstFault};
ghost use Rattle.d64_files.specs.Writing.{dir_last, slot_block};

use crate::block_list::BlockList;
use crate::chain::{chain_from, fill_from};
use crate::dir_fault::DirFault;
use crate::entry::SlotNo;
use crate::slots::{SLOTS_PER_BLOCK, Slots, kinds_are_known};
use d64_image::{BlockNo, Image};
use d64_map::DIRECTORY_TRACK;
use std::marker::Model;

/// The sector of the directory's first block on its track.
pub const DIRECTORY_SECTOR: u8 = 1;

/// The directory's first block: track 18, sector 1.
pub fn directory_block() -> BlockNo
    ensures { result ≡ directory_start }
{
    BlockNo::of(DIRECTORY_TRACK, DIRECTORY_SECTOR).unwrap()
}

/// The directory of an image: the blocks of its chain, walked once. Each of its slots has a kind of
/// file.
///
/// In clauses it is the image itself.
#[derive(Drop)]
pub struct Directory<'a> {
    image: &'a Image,
    blocks: BlockList,
}

impl<'a> Model for Directory<'a> {
    ghost use Rattle.std.specs.Prelude.{◌≡◌, ◌≢◌, ℕ, List, [], All};
    ghost use Rattle.d64_files.specs.Slot.{HasKind};
    ghost use Rattle.d64_files.specs.Directory.{directory, slots};

    ghost Value = { List (List ℕ) };

    ghost view = { λ found. found.image.now };

    ghost invariant = { λ found. (found.blocks ≡ directory found.image.now) × (directory found.image.now ≢ []) × All HasKind (slots found.image.now) };
}

impl<'a> Directory<'a> {
    /// Reads the directory of an image. It allocates nothing.
    ///
    /// The error is `NoDirectory` if there is no chain of blocks from track 18, sector 1, and
    /// otherwise `UnknownKind` if the low four bits of a slot's type byte are above 4.
    pub fn of(image: &'a Image) -> Result<Directory<'a>, DirFault>
        ensures image { IfOk result (λ directory. directory ≡ image.now) }
        ensures conditions { MatchResult result (λ _. AllHold image.now 2 3) (IsFirstFault image.now 2 3) }
    {
        let mut blocks = BlockList::empty();
        if !fill_from(image, DIRECTORY_TRACK, DIRECTORY_SECTOR, &mut blocks) {
            return Err(DirFault::NoDirectory);
        }
        for block in blocks.as_slice() {
            if !kinds_are_known(image.sector(*block)) {
                return Err(DirFault::UnknownKind);
            }
        }
        Ok(Directory { image, blocks })
    }

    /// The image of the directory.
    pub fn image(&self) -> &'a Image
        ensures { result.now ≡ self.now }
    {
        self.image
    }

    /// The blocks of the directory, in the order of its chain.
    pub(crate) fn blocks(&self) -> &[BlockNo]
        ensures blocks { result.now ≡ directory self.now }
        ensures len { length result.now ≤ BLOCKS }
        ensures some { directory self.now ≢ [] }
        ensures conditions { AllHold self.now 2 3 }
    {
        self.blocks.as_slice()
    }

    /// All slots of the directory.
    pub fn slots(&self) -> Slots<'a>
        ensures slots { result ≡ entries self.now (slots self.now) }
        ensures len { length result ≤ 8 * BLOCKS }
    {
        Slots::along(self.image, self.blocks.copy())
    }

    /// The last block.
    pub fn last(&self) -> BlockNo
        ensures { result ≡ dir_last self.now }
    {
        let blocks = self.blocks();
        blocks[blocks.len() - 1]
    }

    /// The block of a slot, and which of the block's eight slots it is, from 0.
    ///
    /// The directory must have that slot.
    pub fn place_of(&self, slot: SlotNo) -> (BlockNo, usize)
        requires { slot < length (slots self.now) }
        ensures place { result ≡ (slot_block self.now slot, slot % 8) }
        ensures held { result.0 < length self.now }
    {
        let place = slot.place();
        (
            self.blocks()[place / SLOTS_PER_BLOCK],
            place % SLOTS_PER_BLOCK,
        )
    }
}

/// The directory's blocks, or None if there is no chain of blocks from track 18, sector 1.
fn directory_blocks(image: &Image) -> Option<BlockList>
    ensures value { unwrap_or result [] ≡ directory image.now }
    ensures exists { IsSome result ↔ (directory image.now ≢ []) }
{
    chain_from(image, DIRECTORY_TRACK, DIRECTORY_SECTOR)
}

/// The directory's last block, whatever kinds its slots have.
pub(crate) fn last_directory_block(image: &Image) -> BlockNo
    requires { directory image.now ≢ [] }
    ensures { result ≡ dir_last image.now }
{
    let directory = directory_blocks(image).unwrap();
    let blocks = directory.as_slice();
    blocks[blocks.len() - 1]
}

/// The block of the directory that has a slot, whatever kinds its slots have.
pub(crate) fn block_of_slot(image: &Image, slot: SlotNo) -> BlockNo
    requires { slot < length (slots image.now) }
    ensures block { result ≡ slot_block image.now slot }
    ensures held { result < length image.now }
{
    let directory = directory_blocks(image).unwrap();
    directory.as_slice()[slot.place() / SLOTS_PER_BLOCK]
}
