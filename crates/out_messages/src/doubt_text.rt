//! What makes an image doubtful, in words.
ghost use Rattle.std.specs.Prelude.{◌≡◌, ◌++◌, OnOk};
ghost use Rattle.std.specs.List.{flat_map};
ghost use Rattle.d64_map.specs.Map.{map_block as map_block_of};
ghost use Rattle.d64_files.specs.Directory.{directory_start};
ghost use Rattle.d64_survey.specs.Doubts.{is_blank as is_blank_in, doubts};
ghost use Rattle.out_messages.specs.DoubtText.{unowned_words as unowned_words_of, unowned_text, blank_text as blank_text_of, doubt_text, next_doubt, doubtful_words as doubtful_words_of, doubts_text};

use crate::words::push_count;
use d64_files::directory_block;
use d64_image::Image;
use d64_map::map_block;
use d64_survey::{Doubt, Inspection, is_blank};
use std::alloc::AllocError;

/// Returns the text for `count` blocks that nothing owns.
fn unowned_words(count: usize) -> &'static [u8]
    ensures { result.now ≡ unowned_words_of count }
{
    if count == 1 {
        b" is marked used and belongs to no file"
    } else {
        b" are marked used and belong to no file"
    }
}

/// Appends how many blocks are marked used and belong to no file.
#[tactic(auto, unfolding(crate::specs::DoubtText::unowned_text))]
pub fn push_unowned_text(out: &mut Vec<u8>, count: usize) -> Result<(), AllocError>
    ensures { OnOk result (out.new.items ≡ out.old.items ++ unowned_text count) }
{
    push_count(out, count, b"block")?;
    out.extend_from_slice(unowned_words(count))
}

/// Returns which of the first blocks of map and directory is blank; one of them is.
fn blank_text(image: &Image) -> &'static [u8]
    ensures { result.now ≡ blank_text_of (is_blank_in image.now map_block_of) (is_blank_in image.now directory_start) }
{
    image.known_image();
    if !is_blank(image, map_block()) {
        return b"the directory's first block is blank";
    }
    if is_blank(image, directory_block()) {
        b"the map's block and the directory's first block are blank"
    } else {
        b"the map's block is blank"
    }
}

/// Appends a doubt in words.
#[tactic(auto, unfolding(crate::specs::DoubtText::doubt_text))]
fn push_doubt(out: &mut Vec<u8>, all: &Inspection, doubt: Doubt) -> Result<(), AllocError>
    ensures { OnOk result (out.new.items ≡ out.old.items ++ doubt_text all.now.image doubt) }
{
    match doubt {
        Doubt::Version => { out.extend_from_slice(b"the version byte is not that of a 1541 disk") }
        Doubt::Blank => out.extend_from_slice(blank_text(all.image())),
        Doubt::Unowned => push_unowned_text(out, all.unowned()),
        Doubt::Filler => out.extend_from_slice(
            b"a block is filled with -=[BAD SECTOR]=-, which copy programs write for a block that they could not read",
        ),
    }
}

/// Appends a doubt that is not the first.
#[tactic(auto, unfolding(crate::specs::DoubtText::next_doubt))]
fn push_next(out: &mut Vec<u8>, all: &Inspection, doubt: Doubt) -> Result<(), AllocError>
    ensures { OnOk result (out.new.items ≡ out.old.items ++ next_doubt all.now.image doubt) }
{
    out.extend_from_slice(b", ")?;
    push_doubt(out, all, doubt)
}

/// Appends the doubts that are not the first.
fn push_rest(out: &mut Vec<u8>, all: &Inspection, doubts: &[Doubt]) -> Result<(), AllocError>
    ensures { OnOk result (out.new.items ≡ out.old.items ++ flat_map (next_doubt all.now.image) doubts.now) }
{
    for doubt in doubts {
        push_next(out, all, *doubt)?;
    }
    Ok(())
}

/// Returns what comes before the first doubt.
fn doubtful_words(is_clean: bool) -> &'static [u8]
    ensures { result.now ≡ doubtful_words_of is_clean }
{
    if is_clean {
        b", but doubtful: "
    } else {
        b", and doubtful: "
    }
}

/// Appends these doubts of an image, if there are any. The image is clean if nothing else is
/// wrong.
#[tactic(auto, unfolding(crate::specs::DoubtText::doubts_text))]
fn push_list(
    out: &mut Vec<u8>,
    all: &Inspection,
    is_clean: bool,
    doubts: &[Doubt],
) -> Result<(), AllocError>
    ensures { OnOk result (out.new.items ≡ out.old.items ++ doubts_text all.now.image is_clean doubts.now) }
{
    match doubts {
        [] => Ok(()),
        [first, rest @ ..] => {
            out.extend_from_slice(doubtful_words(is_clean))?;
            push_doubt(out, all, *first)?;
            push_rest(out, all, rest)
        }
    }
}

/// Appends what makes an image doubtful, if anything does.
pub(crate) fn push_doubts(
    out: &mut Vec<u8>,
    all: &Inspection,
    is_clean: bool,
) -> Result<(), AllocError>
    ensures { OnOk result (out.new.items ≡ out.old.items ++ doubts_text all.now.image is_clean (doubts all.now.image)) }
{
    push_list(out, all, is_clean, all.doubts())
}
