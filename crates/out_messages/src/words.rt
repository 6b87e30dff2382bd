//! Names, numbers of things, and blocks, in text.
ghost use Rattle.std.specs.Prelude.{◌≡◌, ◌++◌, OnOk};
ghost use Rattle.petscii.specs.Spelling.{spelling};
ghost use Rattle.out_messages.specs.Names.{quoted_name};
ghost use Rattle.out_messages.specs.Words.{plural_of, counted_text, pair_text, block_text};

use crate::number::push_number;
use d64_image::BlockNo;
use petscii::push_spelling;
use std::alloc::AllocError;

/// Appends a name of the disk in text form, between quotes.
#[tactic(auto, unfolding(crate::specs::Names::quoted_name))]
pub fn push_quoted(out: &mut Vec<u8>, name: &[u8]) -> Result<(), AllocError>
    ensures { OnOk result (out.new.items ≡ out.old.items ++ quoted_name name.now) }
{
    out.extend_from_slice(b"\"")?;
    push_spelling(out, name)?;
    out.extend_from_slice(b"\"")
}

/// Returns the ending of a noun after this number.
fn plural_of(count: usize) -> &'static [u8]
    ensures { result.now ≡ plural_of count }
{
    if count == 1 { b"" } else { b"s" }
}

/// Appends a number and a noun.
#[tactic(auto, unfolding(crate::specs::Words::counted_text))]
pub fn push_count(out: &mut Vec<u8>, count: usize, noun: &[u8]) -> Result<(), AllocError>
    ensures { OnOk result (out.new.items ≡ out.old.items ++ counted_text count noun.now) }
{
    push_number(out, count)?;
    out.extend_from_slice(b" ")?;
    out.extend_from_slice(noun)?;
    out.extend_from_slice(plural_of(count))
}

/// Appends a track and a sector.
#[tactic(auto, unfolding(crate::specs::Words::pair_text))]
pub(crate) fn push_pair(out: &mut Vec<u8>, track: u8, sector: u8) -> Result<(), AllocError>
    ensures { OnOk result (out.new.items ≡ out.old.items ++ pair_text (track, sector)) }
{
    push_number(out, usize::from(track))?;
    out.extend_from_slice(b"/")?;
    push_number(out, usize::from(sector))
}

/// Appends the track and the sector of a block.
pub fn push_block(out: &mut Vec<u8>, block: BlockNo) -> Result<(), AllocError>
    ensures { OnOk result (out.new.items ≡ out.old.items ++ block_text block) }
{
    push_pair(out, block.track(), block.sector())
}
