//! Laws of unpacking: each function's contract is a law, and its body is empty.
//!
//! A caller whose proof needs a law calls the function.
ghost use Rattle.cmd_extract.specs.UnpackLaws.{CleanIsQuiet, ListIsWhole};

/// An image with a clean verdict has no line on the standard error, unless complete images are
/// skipped.
pub fn clean_images_are_quiet()
    ensures { CleanIsQuiet }
{}

/// If every call is accepted, what is written to the list of an image's files, piece by piece, are
/// the lines of all rows.
pub fn the_list_is_whole()
    ensures { ListIsWhole }
{}
