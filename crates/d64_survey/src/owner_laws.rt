//! Laws of owners: each function's contract is a law, and its body is empty.
//!
//! A caller whose proof needs a law calls the function.
ghost use Rattle.d64_survey.specs.OwnerLaws.{OwnersAreThoseOfFiles};

/// If the directory and the files have their chains, the blocks with an owner are the owned blocks.
pub fn owners_are_those_of_files()
    ensures { OwnersAreThoseOfFiles }
{}
