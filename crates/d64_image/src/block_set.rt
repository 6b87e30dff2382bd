//! Sets of blocks.
ghost use Rattle.std.specs.Prelude.{◌≡◌, ℕ, ◌+◌, ◌*◌, ◌/◌, ◌%◌, ◌^◌, ◌<◌, ◌≤◌, ◌↔◌, ◌&&◌, ◌||◌, nat_lt, if◌then◌else◌, IsTrue, slice_index};
ghost use Rattle.std.specs.Int.{bit_at};
ghost use Rattle.std.specs.Ordering.{nat_cmp};
ghost use Rattle.std.specs.FinSet as set;
ghost use Rattle.std.specs.Coded.{coded_ℕ};
ghost use Rattle.d64_image.specs.BlockSet.{AreWords, MembersAreBlocks, is_given, with_bits};
ghost use Rattle.d64_image.specs.declared.block.TheConstants.{BLOCKS};

use crate::block::{BLOCKS, BlockNo};
use std::marker::Model;

/// How many blocks a word has bits for.
const WORD_BITS: usize = 32;

/// How many words have a bit for each block.
const WORDS: usize = BLOCKS / WORD_BITS;

/// A set of blocks. It needs no memory of its own.
#[derive(Clone, Copy)]
pub struct BlockSet {
    /// Which blocks are members: each word has the bits of 32 blocks, the lowest for the first of
    /// them.
    words: [u32; WORDS],
}

impl Model for BlockSet {
    ghost use Rattle.std.specs.Ordering.{nat_cmp};
    ghost use Rattle.std.specs.FinSet as set;
    ghost use Rattle.std.specs.Coded.{coded_ℕ};
    ghost use Rattle.d64_image.specs.BlockSet.{marked_blocks, AreWords, words_of};
    ghost use Rattle.d64_image.specs.Marks.{words_of-marked_blocks};
    ghost use Rattle.std.proofs.Common.{ap};

    ghost Value = { set.FinSet nat_cmp };

    ghost coded = { set.code coded_ℕ };

    ghost view = { λ blocks. marked_blocks blocks.words };

    ghost invariant = { λ blocks. AreWords blocks.words };

    ghost inverse = { λ blocks. record { words = words_of blocks } };

    ghost inverse_ok = { λ blocks are. ap (λ words. record { words = words }) (words_of-marked_blocks blocks.words are) };
}

/// The word at a place, and 0 past the last one.
fn word_at(words: &[u32; WORDS], place: usize) -> u32
    ensures { result ≡ slice_index words.now place }
{
    if place < WORDS { words[place] } else { 0 }
}

/// Sets bits of the word at a place, if there is one.
fn set_bits(words: &mut [u32; WORDS], place: usize, bits: u32)
    ensures set { words.new ≡ with_bits words.old place bits }
    ensures fit { AreWords words.old → AreWords words.new }
{
    if place < WORDS {
        words[place] |= bits;
    }
}

/// The 32 bits from a place on in the 64 bits of two neighbouring words.
fn bits_within(word: u32, next: u32, start: usize) -> u32
    requires { start < 32 }
    ensures { result ≡ (next * 2 ^ 32 + word) / 2 ^ start % 2 ^ 32 }
{
    let both = u64::from(next) * (1 << WORD_BITS) + u64::from(word);
    ((both >> start) % (1 << WORD_BITS)) as u32
}

impl BlockSet {
    /// The empty set.
    pub fn empty() -> BlockSet
        ensures value { result ≡ set.empty }
        ensures blocks { MembersAreBlocks result }
    {
        BlockSet { words: [0; WORDS] }
    }

    /// Whether a block is a member.
    pub fn has(&self, block: BlockNo) -> bool
        ensures value { result ≡ set.contains self.now block }
        ensures blocks { MembersAreBlocks self.now }
    {
        let index = block.index();
        (self.words[index / WORD_BITS] >> (index % WORD_BITS)) & 1 == 1
    }

    /// Which of the 32 blocks from a number on are members: bit b is 1 if block b after the first
    /// one is a member.
    pub fn bits_from(&self, first: usize) -> u32
        ensures { (bit : ℕ) → bit < 32 → bit_at result bit ≡ (if set.contains self.now (first + bit) then 1 else 0) }
    {
        let place = first / WORD_BITS;
        let word = word_at(&self.words, place);
        let next = word_at(&self.words, place + 1);
        bits_within(word, next, first % WORD_BITS)
    }

    /// Does nothing: its contract states what a set is, for callers that need it in a proof.
    pub fn known_members(&self)
        ensures { MembersAreBlocks self.now }
    {
        self.has(BlockNo::default());
    }

    /// Adds a block, if it is not a member yet.
    pub fn add(&mut self, block: BlockNo)
        ensures value { self.new ≡ set.insert self.old block }
        ensures blocks { MembersAreBlocks self.new }
    {
        let index = block.index();
        self.words[index / WORD_BITS] |= 1 << (index % WORD_BITS);
    }

    /// Adds those of the 32 blocks from a number on whose bits are 1: bit b is that of block b
    /// after the first one. A bit that belongs to no block of a disk is ignored.
    pub fn add_bits(&mut self, first: usize, bits: u32)
        ensures { (block : ℕ) → set.contains self.new block ≡ (set.contains self.old block || (nat_lt block BLOCKS && is_given first bits block)) }
    {
        let place = first / WORD_BITS;
        let both = u64::from(bits) << (first % WORD_BITS);
        set_bits(&mut self.words, place, (both % (1 << WORD_BITS)) as u32);
        set_bits(&mut self.words, place + 1, (both >> WORD_BITS) as u32);
    }

    /// Removes a block, if it is a member.
    pub fn remove(&mut self, block: BlockNo)
        ensures value { self.new ≡ set.remove self.old block }
        ensures blocks { MembersAreBlocks self.new }
    {
        let index = block.index();
        self.words[index / WORD_BITS] &= !(1 << (index % WORD_BITS));
    }

    /// How many members there are.
    pub fn count(&self) -> usize
        ensures value { result ≡ set.len self.now }
        ensures within { result ≤ BLOCKS }
        ensures blocks { MembersAreBlocks self.now }
    {
        let mut count = 0;
        for place in 0..WORDS {
            count += self.words[place].count_ones() as usize;
        }
        count
    }
}

impl PartialEq for BlockSet {
    ghost use Rattle.d64_image.specs.BlockSet.{same_members};
    ghost use Rattle.d64_image.specs.Marks.{same_members-is_equivalence};
    ghost use Rattle.std.specs.Cmp.{partial_equiv_from_equiv};

    ghost eq = { same_members };

    ghost laws = { partial_equiv_from_equiv same_members-is_equivalence };

    /// Whether two sets have the same members.
    fn eq(&self, other: &BlockSet) -> bool
        ensures compared { result ≡ same_members self.now other.now }
        ensures same { IsTrue result ↔ (self.now ≡ other.now) }
    {
        self.words == other.words
    }
}

impl Eq for BlockSet {
    ghost use Rattle.d64_image.specs.Marks.{same_members-is_equivalence};

    ghost laws = { same_members-is_equivalence };
}
