//! Claims of blocks: which blocks are owned, and whether one is owned twice.
ghost use Rattle.std.specs.Prelude.{◌≡◌, ◌≢◌, List, ℕ, [], ◌∷◌, ◌++◌, nat_eq, All, OnOk, MatchResult};
ghost use Rattle.std.specs.List.{flat_map, IsDistinct};
ghost use Rattle.std.specs.FinSet as set;
ghost use Rattle.d64_files.specs.Claims.{claims_of};
ghost use Rattle.d64_files.specs.Ownership.{chain_at, owned_by, HasItsChains};
ghost use Rattle.d64_files.specs.declared.dir_fault.DirFault.TheVariants.{NoChain, CrossLinked};

use crate::chain::{Link, block_in};
use crate::dir_fault::DirFault;
use crate::entry::Entry;
use crate::kind::Kind;
use crate::slots::Slots;
use d64_image::{BLOCKS, BlockNo, BlockSet, Image};

/// The blocks that were claimed.
#[derive(Drop)]
pub(crate) struct Claims {
    blocks: BlockSet,
    /// Whether a block was claimed that had been claimed before.
    crossed: bool,
}

impl Claims {
    /// Claims of no block.
    pub(crate) fn none() -> Claims
        ensures { result ≡ claims_of [] }
    {
        Claims {
            blocks: BlockSet::empty(),
            crossed: false,
        }
    }

    /// Claims a block.
    pub(crate) fn claim(&mut self, block: BlockNo)
        ensures { (before : List ℕ) → self.old ≡ claims_of before → self.new ≡ claims_of (before ++ block ∷ []) }
    {
        self.crossed |= self.blocks.has(block);
        self.blocks.add(block);
    }

    /// Claims blocks.
    pub(crate) fn claim_all(&mut self, blocks: &[BlockNo])
        ensures { (before : List ℕ) → self.old ≡ claims_of before → self.new ≡ claims_of (before ++ blocks.now) }
    {
        for block in blocks {
            self.claim(*block);
        }
    }

    /// Claims the chain from the block of a track (from 1) and a sector (from 0). The error is
    /// `NoChain`, if there is no chain.
    pub(crate) fn claim_chain(&mut self, image: &Image, root: (u8, u8)) -> Result<(), DirFault>
        ensures chain { MatchResult result (λ _. chain_at image.now root ≢ []) (λ fault. (fault ≡ NoChain) × (chain_at image.now root ≡ [])) }
        ensures claimed { OnOk result ((before : List ℕ) → self.old ≡ claims_of before → self.new ≡ claims_of (before ++ chain_at image.now root)) }
    {
        let mut last = match block_in(image, root.0, root.1) {
            Some(start) => start,
            None => return Err(DirFault::NoChain),
        };
        image.known_image();
        for _ in 0..BLOCKS {
            self.claim(last);
            match Link::of(image, last) {
                Link::End => return Ok(()),
                Link::Broken => return Err(DirFault::NoChain),
                Link::To(next) => last = next,
            }
        }
        Err(DirFault::NoChain)
    }

    /// Claims what an entry owns: the chain of a closed SEQ, PRG, USR or REL file, and the side
    /// chain of a REL file that has one. The error is `NoChain`, if one of them is missing.
    pub(crate) fn claim_file(&mut self, image: &Image, entry: &Entry) -> Result<(), DirFault>
        ensures chains { MatchResult result (λ _. HasItsChains image.now entry.now.bytes) (λ fault. (fault ≡ NoChain) × ¬ (HasItsChains image.now entry.now.bytes)) }
        ensures claimed { OnOk result ((before : List ℕ) → self.old ≡ claims_of before → self.new ≡ claims_of (before ++ owned_by image.now entry.now.bytes)) }
    {
        if !entry.closed() {
            return Ok(());
        }
        match entry.kind() {
            Kind::Del => Ok(()),
            Kind::Seq | Kind::Prg | Kind::Usr => self.claim_chain(image, entry.first_pair()),
            Kind::Rel => {
                self.claim_chain(image, entry.first_pair())?;
                match entry.side_pair() {
                    Some(side) => self.claim_chain(image, side),
                    None => Ok(()),
                }
            }
        }
    }

    /// Claims what the slots own. The error is `NoChain`, if a chain of one of them is missing.
    pub(crate) fn claim_files(&mut self, image: &Image, slots: Slots) -> Result<(), DirFault>
        ensures chains { MatchResult result (λ _. All (λ entry. HasItsChains image.now entry.bytes) slots.entry) (λ fault. (fault ≡ NoChain) × ¬ (All (λ entry. HasItsChains image.now entry.bytes) slots.entry)) }
        ensures claimed { OnOk result ((before : List ℕ) → self.old ≡ claims_of before → self.new ≡ claims_of (before ++ flat_map (λ entry. owned_by image.now entry.bytes) slots.entry)) }
    {
        for entry in slots {
            self.claim_file(image, &entry)?;
        }
        Ok(())
    }

    /// The blocks that were claimed.
    pub(crate) fn into_blocks(self) -> BlockSet
        ensures { (blocks : List ℕ) → self ≡ claims_of blocks → result ≡ set.from_list blocks }
    {
        self.blocks
    }

    /// The blocks that were claimed. The error is `CrossLinked`, if one was claimed twice.
    pub(crate) fn finish(self) -> Result<BlockSet, DirFault>
        ensures { (blocks : List ℕ) → self ≡ claims_of blocks
            → MatchResult result (λ owned. (owned ≡ set.from_list blocks) × IsDistinct nat_eq blocks) (λ fault. (fault ≡ CrossLinked) × ¬ (IsDistinct nat_eq blocks)) }
    {
        if self.crossed {
            Err(DirFault::CrossLinked)
        } else {
            Ok(self.blocks)
        }
    }
}
