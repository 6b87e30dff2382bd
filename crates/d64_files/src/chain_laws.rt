//! Laws of chains: each function's contract is a law, and its body is empty.
//!
//! A caller whose proof needs a law calls the function.
ghost use Rattle.d64_files.specs.ChainLaws.{AtMostOneChain, ChainIsThatChain, ChainBeginsWithItsStart};
ghost use Rattle.d64_files.specs.ChainLaws.{ChainHasNoRepeats, ChainLiesInImage, ChainFitsImage, SameLinksSameChain, SameLinksSameFunction};

/// There is at most one chain from a block, and the chain function returns it.
pub fn chains_are_unique()
    ensures unique { AtMostOneChain }
    ensures function { ChainIsThatChain }
{}

/// A chain begins with its start, and has only blocks of the image, each at most once, and so no
/// more than the image has.
pub fn chains_are_bounded()
    ensures start { ChainBeginsWithItsStart }
    ensures distinct { ChainHasNoRepeats }
    ensures within { ChainLiesInImage }
    ensures len { ChainFitsImage }
{}

/// A chain stays the same if its blocks keep their links.
pub fn chains_need_their_links_alone()
    ensures chain { SameLinksSameChain }
    ensures function { SameLinksSameFunction }
{}
