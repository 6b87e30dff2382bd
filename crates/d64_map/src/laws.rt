//! Laws of the map and of the search: each function's contract is a law, and its body is empty.
//!
//! A caller whose proof needs a law calls the function.
ghost use Rattle.d64_map.specs.Laws.{FreeBlocksHaveTheirBit, MapIsTheSet, WrittenCountsFit, OnlyEntriesChange};
ghost use Rattle.d64_map.specs.Laws.{PlanTakesFreeBlocks, PlanIsThere, DirPickIsOnTrack18};

/// The set of free blocks has exactly the blocks whose bits are 1.
pub fn free_blocks_have_their_bit()
    ensures { FreeBlocksHaveTheirBit }
{}

/// The map that is written for a set of blocks has its bits and its counts, and changes nothing
/// else.
pub fn written_map_is_the_set()
    ensures set { MapIsTheSet }
    ensures counts { WrittenCountsFit }
    ensures others { OnlyEntriesChange }
{}

/// A plan takes as many blocks as it is asked for, distinct and free ones outside track 18, and
/// there is one exactly if enough are free.
pub fn plan_takes_free_blocks()
    ensures blocks { PlanTakesFreeBlocks }
    ensures there { PlanIsThere }
{}

/// The block chosen for the directory is a free block of track 18, and there is no such block
/// exactly if no block of track 18 is free.
pub fn dir_pick_is_on_track_18()
    ensures { DirPickIsOnTrack18 }
{}
