//! Laws of blocks, images, patches and sets of blocks: each function's contract is a law, and its
//! body is empty.
//!
//! A caller whose proof needs a law calls the function.
ghost use Rattle.std.specs.Prelude.{◌≡◌, length};
ghost use Rattle.d64_image.specs.Block.{pairs};
ghost use Rattle.d64_image.specs.Laws.{EachBlockHasItsPair, EachLegalPairHasItsBlock, OnlyLegalPairsHaveBlocks, EachSizeHasItsTracks};
ghost use Rattle.d64_image.specs.Laws.{EmptyPatchPutsNothingBack, ChangesPutBack, ChangesCount};
ghost use Rattle.d64_image.specs.Laws.{DifferencesDecide, AlikeImagesAreEqual, AlikeSetsAreEqual, SameMembersDecides};
ghost use Rattle.d64_image.specs.declared.block.TheConstants.{BLOCKS};

/// Each block has one legal pair of track and sector and each pair one block, and an image has the
/// blocks of its tracks.
pub fn blocks_stand_for_pairs()
    ensures count { length pairs ≡ BLOCKS }
    ensures pair { EachBlockHasItsPair }
    ensures block { EachLegalPairHasItsBlock }
    ensures legal { OnlyLegalPairsHaveBlocks }
    ensures tracks { EachSizeHasItsTracks }
{}

/// The list of differences has exactly the blocks in which two images differ.
pub fn differences_decide()
    ensures members { DifferencesDecide }
    ensures none { AlikeImagesAreEqual }
{}

/// Two sets with the same members are equal, and `==` says whether they are.
pub fn alike_sets_are_equal()
    ensures members { AlikeSetsAreEqual }
    ensures test { SameMembersDecides }
{}

/// Putting back all blocks that changed gives the image from before, and putting back an empty
/// patch changes nothing.
pub fn changes_put_back()
    ensures empty { EmptyPatchPutsNothingBack }
    ensures back { ChangesPutBack }
    ensures count { ChangesCount }
{}
