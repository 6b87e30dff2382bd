//! Laws of contents: each function's contract is a law, and its body is empty.
//!
//! A caller whose proof needs a law calls the function.
ghost use Rattle.d64_inventory.specs.ContentLaws.{ContentIsWhatIsRead};

/// The content of the file of a used slot is what reading it gives, and there is a content exactly
/// if reading succeeds.
pub fn contents_are_what_is_read()
    ensures { ContentIsWhatIsRead }
{}
