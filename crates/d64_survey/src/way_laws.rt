//! Laws of ways: each function's contract is a law, and its body is empty.
//!
//! A caller whose proof needs a law calls the function.
ghost use Rattle.d64_survey.specs.WayLaws.{WayThatEndsIsTheChain, ChainIsTheWay, WayHasNoRepeats, WayLiesInImage, WayFitsImage, WaysFromABlockAreOne};

/// A way ends after a last block exactly if there is a chain, and then it is the chain.
pub fn ways_are_chains_where_they_end()
    ensures exists { WayThatEndsIsTheChain }
    ensures chain { ChainIsTheWay }
{}

/// A way has only blocks of the image, each at most once, and so no more than the image has.
pub fn ways_are_bounded()
    ensures distinct { WayHasNoRepeats }
    ensures within { WayLiesInImage }
    ensures len { WayFitsImage }
{}

/// Ways from the same block are the same way.
pub fn ways_from_a_block_are_one()
    ensures { WaysFromABlockAreOne }
{}
