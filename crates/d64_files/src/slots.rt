//! The directory of an image and the walk along its slots.
ghost use Rattle.std.specs.Prelude.{◌≡◌, ◌*◌, ◌%◌, ◌<◌, ◌≤◌, ◌↔◌, IsTrue, IfOk, All, List, ℕ, length, MatchResult};
ghost use Rattle.std.specs.Iterator.{YieldsFirst, item_count};
ghost use Rattle.d64_image.specs.declared.block.TheConstants.{BLOCKS};
ghost use Rattle.d64_image.specs.Image.{sector_at};
ghost use Rattle.d64_files.specs.Chain.{LieIn};
ghost use Rattle.d64_files.specs.Slot.{HasKind, cell as slot_bytes, cells};
ghost use Rattle.d64_files.specs.Directory.{slots, slots_in, entry_of, entries, AllHold, IsFirstFault};

use crate::block_list::BlockList;
use crate::dir_fault::DirFault;
use crate::directory_blocks::Directory;
use crate::entry::{Entry, LAST_KIND, SLOT_BYTES, SlotNo};
use d64_image::{BLOCK_BYTES, BLOCKS, BlockNo, Image};
use std::marker::Model;

/// How many slots a block of the directory has.
pub const SLOTS_PER_BLOCK: usize = BLOCK_BYTES / SLOT_BYTES;

/// How many slots a directory has at most.
pub const MOST_SLOTS: usize = SLOTS_PER_BLOCK * BLOCKS;

/// The slots of a directory that are left of a walk along its blocks, in their order.
#[derive(Drop)]
pub struct Slots<'a> {
    image: &'a Image,
    directory: BlockList,
    /// The place of the next slot, from 0.
    place: usize,
}

impl<'a> Model for Slots<'a> {
    ghost use Rattle.std.specs.Prelude.{List, drop};
    ghost use Rattle.d64_files.specs.Chain.{LieIn};
    ghost use Rattle.d64_files.specs.Slot.{EntryView};
    ghost use Rattle.d64_files.specs.Directory.{slots_in, entries};

    ghost Value = { List EntryView };

    ghost view = { λ walk. drop walk.place (entries walk.image.now (slots_in walk.image.now walk.directory)) };

    ghost invariant = { λ walk. LieIn walk.image.now walk.directory };
}

/// The bytes of a slot of a block.
pub(crate) fn slot_of(block: &[u8; BLOCK_BYTES], index: usize) -> &[u8]
    requires { index < 8 }
    ensures value { result.now ≡ slot_bytes block.now index }
    ensures len { length result.now ≡ 32 }
{
    let start = SLOT_BYTES * index;
    &block[start..start + SLOT_BYTES]
}

/// The entry of a slot in this block of the image.
pub fn entry_in<'a>(image: &'a Image, block: BlockNo, slot: SlotNo) -> Entry<'a>
    requires { block < length image.now }
    ensures { result ≡ entry_of image.now (slot, slot_bytes (sector_at image.now block) (slot % 8)) }
{
    let bytes = slot_of(image.sector(block), slot.place() % SLOTS_PER_BLOCK);
    Entry::of(image, slot, bytes)
}

/// Whether the type byte of each slot of a block names a kind.
pub(crate) fn kinds_are_known(block: &[u8; BLOCK_BYTES]) -> bool
    ensures { IsTrue result ↔ All HasKind (cells block.now) }
{
    for index in 0..SLOTS_PER_BLOCK {
        if slot_of(block, index)[2] % 16 > LAST_KIND {
            return false;
        }
    }
    true
}

impl<'a> Slots<'a> {
    /// The slots of the directory. It allocates nothing.
    ///
    /// The error is `NoDirectory` if there is no chain of blocks from track 18, sector 1, and
    /// otherwise `UnknownKind` if the low four bits of a slot's type byte are above 4.
    pub fn of(image: &'a Image) -> Result<Slots<'a>, DirFault>
        ensures slots { IfOk result (λ walk. walk ≡ entries image.now (slots image.now)) }
        ensures len { IfOk result (λ walk. length walk ≤ 8 * BLOCKS) }
        ensures conditions { MatchResult result (λ _. AllHold image.now 2 3) (IsFirstFault image.now 2 3) }
    {
        Ok(Directory::of(image)?.slots())
    }

    /// The slots of blocks of the image, eight in each block, whether or not each has a kind. It
    /// allocates nothing.
    pub fn along(image: &'a Image, blocks: BlockList) -> Slots<'a>
        requires { LieIn image.now blocks }
        ensures slots { result ≡ entries image.now (slots_in image.now blocks) }
        ensures len { length result ≤ 8 * BLOCKS }
    {
        blocks.known_list();
        Slots {
            image,
            directory: blocks,
            place: 0,
        }
    }
}

impl<'a> Iterator for Slots<'a> {
    type Item = Entry<'a>;

    ghost next_gives = { YieldsFirst (λ left. left) };

    ghost remaining = { item_count (λ left. left) };

    fn next(&mut self) -> Option<Entry<'a>> {
        let image = self.image;
        let place = self.place;
        let blocks = self.directory.as_slice();
        let index = place / SLOTS_PER_BLOCK;
        if index >= blocks.len() {
            return None;
        }
        let block = blocks[index];
        self.place += 1;
        Some(entry_in(image, block, SlotNo::at(place)))
    }
}
