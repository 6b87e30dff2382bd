//! What a new entry in the directory needs: an unused slot, or else the last block; and a name that
//! isn't taken.
ghost use Rattle.std.specs.Prelude.{◌≡◌, ◌+◌, ◌*◌, ◌<◌, ◌≤◌, not, length, IfOk, IfSome, MatchResult};
ghost use Rattle.std.specs.List.{position_from};
ghost use Rattle.d64_image.specs.declared.block.TheConstants.{BLOCKS};
ghost use Rattle.d64_image.specs.Image.{sector_at};
ghost use Rattle.d64_files.specs.Directory.{slots, has_name, is_name_taken, AllHold, IsFirstFault};
ghost use Rattle.d64_files.specs.Slot.{cells, is_used};
ghost use Rattle.d64_files.specs.Writing.{first_unused, dir_last};

use crate::dir_fault::DirFault;
use crate::directory_blocks::Directory;
use crate::entry::{Entry, SlotNo};
use crate::name::Name;
use crate::slots::{SLOTS_PER_BLOCK, entry_in, slot_of};
use d64_image::{BLOCK_BYTES, BlockNo, Image};

/// The first unused slot of a block, or None if all are used. Its slots have the eight numbers from
/// `first` on.
fn first_empty_of(block: &[u8; BLOCK_BYTES], first: usize) -> Option<SlotNo>
    requires { first ≤ 8 * BLOCKS }
    ensures slot { result ≡ position_from (λ cell. not (is_used cell)) first (cells block.now) }
    ensures within { IfSome result (λ slot. slot < first + 8) }
{
    for index in 0..SLOTS_PER_BLOCK {
        if slot_of(block, index)[2] == 0 {
            return Some(SlotNo::at(first + index));
        }
    }
    None
}

/// Whether the slot of an entry is used and has exactly this name.
fn has_name(entry: &Entry, name: &Name) -> bool
    ensures { result ≡ has_name name.now entry.now.bytes }
{
    entry.used() && entry.is_called(name)
}

/// Whether a used slot of a block has exactly this name.
fn is_taken_in(image: &Image, block: BlockNo, name: &Name) -> bool
    requires { block < length image.now }
    ensures { result ≡ is_name_taken name.now (cells (sector_at image.now block)) }
{
    for index in 0..SLOTS_PER_BLOCK {
        if has_name(&entry_in(image, block, SlotNo::at(index)), name) {
            return true;
        }
    }
    false
}

impl Directory<'_> {
    /// The first unused slot, or None if all are used.
    pub fn first_empty(&self) -> Option<SlotNo>
        ensures slot { result ≡ first_unused (slots self.now) }
        ensures within { IfSome result (λ slot. slot < length (slots self.now)) }
    {
        let blocks = self.blocks();
        for place in 0..blocks.len() {
            let block = self.image().sector(blocks[place]);
            if let Some(slot) = first_empty_of(block, SLOTS_PER_BLOCK * place) {
                return Some(slot);
            }
        }
        None
    }

    /// Whether a used slot has exactly this name.
    pub fn is_taken(&self, name: &Name) -> bool
        ensures { result ≡ is_name_taken name.now (slots self.now) }
    {
        for block in self.blocks() {
            if is_taken_in(self.image(), *block, name) {
                return true;
            }
        }
        false
    }
}

/// The first unused slot, or None if all are used. It allocates nothing.
///
/// The error is `NoDirectory` if there is no chain of blocks from track 18, sector 1, and otherwise
/// `UnknownKind` if the low four bits of a slot's type byte are above 4.
pub fn first_empty(image: &Image) -> Result<Option<SlotNo>, DirFault>
    ensures slot { IfOk result (λ slot. slot ≡ first_unused (slots image.now)) }
    ensures conditions { MatchResult result (λ _. AllHold image.now 2 3) (IsFirstFault image.now 2 3) }
{
    Ok(Directory::of(image)?.first_empty())
}

/// Whether a used slot has exactly this name. It allocates nothing.
///
/// The error is `NoDirectory` if there is no chain of blocks from track 18, sector 1, and otherwise
/// `UnknownKind` if the low four bits of a slot's type byte are above 4.
pub fn is_taken(image: &Image, name: &Name) -> Result<bool, DirFault>
    ensures taken { IfOk result (λ taken. taken ≡ is_name_taken name.now (slots image.now)) }
    ensures conditions { MatchResult result (λ _. AllHold image.now 2 3) (IsFirstFault image.now 2 3) }
{
    Ok(Directory::of(image)?.is_taken(name))
}

/// The directory's last block. It allocates nothing.
///
/// The error is `NoDirectory` if there is no chain of blocks from track 18, sector 1, and otherwise
/// `UnknownKind` if the low four bits of a slot's type byte are above 4.
pub fn dir_last(image: &Image) -> Result<BlockNo, DirFault>
    ensures block { IfOk result (λ block. block ≡ dir_last image.now) }
    ensures conditions { MatchResult result (λ _. AllHold image.now 2 3) (IsFirstFault image.now 2 3) }
{
    Ok(Directory::of(image)?.last())
}
