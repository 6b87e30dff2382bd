//! The conditions of a sound image.
ghost use Rattle.std.specs.Prelude.{◌≡◌, IfOk, MatchResult};
ghost use Rattle.std.specs.FinSet as set;
ghost use Rattle.d64_files.specs.Ownership.{owned_by, HasItsChains};
ghost use Rattle.d64_files.specs.Directory.{owned_blocks, slot_owns, AllHold, IsFirstFault};
ghost use Rattle.d64_files.specs.FirstFault.{err_of, first_fault, owning_conditions, sound_conditions};

use crate::claims::Claims;
use crate::dir_fault::DirFault;
use crate::directory_blocks::Directory;
use crate::entry::{Entry, SlotNo};
use crate::reading::entry_at;
use d64_image::{BlockSet, Image};
use d64_map::{counts_fit, map_block, none_is_free};

impl Directory<'_> {
    /// The blocks that are owned: the map's block, the directory's, and the chains of the closed
    /// files other than DEL.
    ///
    /// The error is `NoChain` if a closed file's chain or side chain is missing, and otherwise
    /// `CrossLinked` if a block would be owned twice.
    fn owned(&self) -> Result<BlockSet, DirFault>
        ensures { MatchResult result (λ blocks. AllHold self.now 2 5 × (blocks ≡ set.from_list (owned_blocks self.now))) (IsFirstFault self.now 2 5) }
    {
        let mut claims = Claims::none();
        claims.claim(map_block());
        claims.claim_all(self.blocks());
        claims.claim_files(self.image(), self.slots())?;
        claims.finish()
    }
}

/// The blocks that are owned: the map's block, the directory's chain, and the chains of the closed
/// files other than DEL. It allocates nothing.
///
/// The error is the first of these conditions that fails: `NoDirectory` if there is no chain of
/// blocks from track 18, sector 1; `UnknownKind` if the low four bits of a slot's type byte are
/// above 4; `NoChain` if a closed file's chain or side chain is missing; `CrossLinked` if a block
/// would be owned twice.
pub fn owned(image: &Image) -> Result<BlockSet, DirFault>
    ensures verdict { MatchResult result (λ blocks. AllHold image.now 2 5 × (blocks ≡ set.from_list (owned_blocks image.now))) (IsFirstFault image.now 2 5) }
    ensures first { err_of result ≡ first_fault image.now owning_conditions }
{
    Directory::of(image)?.owned()
}

/// The directory of a sound image, and the blocks that are owned. It allocates nothing.
///
/// Errors come as from `check`.
pub fn checked(image: &Image) -> Result<(Directory<'_>, BlockSet), DirFault>
    ensures image { IfOk result (λ found. found.0 ≡ image.now) }
    ensures verdict { MatchResult result (λ found. AllHold image.now 1 6 × (found.1 ≡ set.from_list (owned_blocks image.now))) (IsFirstFault image.now 1 6) }
    ensures first { err_of result ≡ first_fault image.now sound_conditions }
{
    if !counts_fit(image) {
        return Err(DirFault::WrongCounts);
    }
    let directory = Directory::of(image)?;
    let blocks = directory.owned()?;
    if none_is_free(image, &blocks) {
        Ok((directory, blocks))
    } else {
        Err(DirFault::MarkedFree)
    }
}

/// The blocks that are owned in a sound image. It allocates nothing.
///
/// The error is `WrongCounts` if a track's count of free blocks isn't the number of its blocks that
/// the map marks free; then as from `owned`; and then `MarkedFree` if the map marks a block free
/// that is owned.
pub fn check(image: &Image) -> Result<BlockSet, DirFault>
    ensures verdict { MatchResult result (λ blocks. AllHold image.now 1 6 × (blocks ≡ set.from_list (owned_blocks image.now))) (IsFirstFault image.now 1 6) }
    ensures first { err_of result ≡ first_fault image.now sound_conditions }
{
    let (_directory, blocks) = checked(image)?;
    Ok(blocks)
}

/// The blocks that an entry owns.
fn blocks_of(image: &Image, entry: &Entry) -> BlockSet
    requires { HasItsChains image.now entry.now.bytes }
    ensures { result ≡ set.from_list (owned_by image.now entry.now.bytes) }
{
    let mut claims = Claims::none();
    match claims.claim_file(image, entry) {
        Ok(()) => claims.into_blocks(),
        Err(_) => BlockSet::empty(),
    }
}

/// The blocks that a slot of a sound image owns: those of its chain and of its side chain, and no
/// block if it owns nothing or there is no such slot. It allocates nothing.
///
/// `check` must accept the image.
pub fn slot_blocks(image: &Image, slot: SlotNo) -> BlockSet
    requires { AllHold image.now 1 6 }
    ensures { result ≡ set.from_list (slot_owns image.now slot) }
{
    let directory = match Directory::of(image) {
        Ok(directory) => directory,
        Err(_) => return BlockSet::empty(),
    };
    match entry_at(directory.slots(), slot) {
        Some(entry) => blocks_of(image, &entry),
        None => BlockSet::empty(),
    }
}
