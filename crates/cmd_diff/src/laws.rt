//! Laws of differences: each function's contract is a law, and its body is empty.
ghost use Rattle.cmd_diff.specs.Laws.{NoChangeToItself, EqualDumpsAreSilent, EachByteOfImagesIsListed};

/// Nothing changes from a dump to itself, and nothing is printed of two files that are the same
/// dump.
pub fn equal_dumps_are_silent()
    ensures changes { NoChangeToItself }
    ensures silent { EqualDumpsAreSilent }
{}

/// Each byte of an image that differs is listed: if no change is listed, the images are equal.
pub fn images_are_listed()
    ensures { EachByteOfImagesIsListed }
{}
