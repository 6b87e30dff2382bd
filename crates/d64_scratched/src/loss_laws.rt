//! Laws of scratched slots: each function's contract is a law, and its body is empty.
ghost use Rattle.d64_scratched.specs.LossLaws.{WholeFilesAreUntouched, FilesThatAreNotLostCanBeRestored};

/// No block of a scratched file that is whole is in the file of a used slot, in the directory or
/// the map's own; all are marked free; and no scratched slot with a lower number has one of them in
/// its way.
pub fn whole_files_are_untouched()
    ensures { WholeFilesAreUntouched }
{}

/// A scratched file that isn't lost has a chain, which is its way, of free blocks, as many as the
/// size in its slot.
pub fn files_that_are_not_lost_can_be_restored()
    ensures { FilesThatAreNotLostCanBeRestored }
{}
