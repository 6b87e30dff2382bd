//! The files that are not whole, in words.
ghost use Rattle.std.specs.Prelude.{◌≡◌, ◌≤◌, ◌==◌, ◌++◌, if◌then◌else◌, length, codes, option_map, OnOk};
ghost use Rattle.d64_files.specs.Slot.{EntryView};
ghost use Rattle.d64_survey.specs.Owners.{blocks_from};
ghost use Rattle.d64_survey.specs.SlotBlocks.{slot_blocks};
ghost use Rattle.out_messages.specs.FileText.{kind_letters, letters_of, locked_text, size_text, comma, flaw_text, flaws_text};

use crate::number::push_number;
use crate::words::push_count;
use d64_files::{BlockList, Entry, Kind};
use d64_image::Image;
use d64_survey::{Flaw, data_pair, side_pair, walk};
use std::alloc::AllocError;

/// Returns the three letters of a kind.
pub fn kind_letters(kind: Kind) -> &'static str
    ensures { result.now ≡ kind_letters kind }
{
    match kind {
        Kind::Del => "del",
        Kind::Seq => "seq",
        Kind::Prg => "prg",
        Kind::Usr => "usr",
        Kind::Rel => "rel",
    }
}

/// Returns the text of a locked file; empty if it is not locked.
pub fn locked_text(locked: bool) -> &'static [u8]
    ensures { result.now ≡ locked_text locked }
{
    if locked { b", locked" } else { b"" }
}

/// Returns the three letters of the kind of a slot's file, or `???` if its type byte has no kind.
pub fn letters_of(entry: &Entry) -> &'static [u8]
    ensures { result.now ≡ letters_of entry.now.bytes }
{
    if entry.has_kind() {
        kind_letters(entry.kind()).as_bytes()
    } else {
        b"???"
    }
}

/// Returns how many blocks the chain from a pair has; 0 if there is no pair.
fn way_length(image: &Image, pair: Option<(u8, u8)>) -> usize
    ensures value { result ≡ length (blocks_from image.now pair) }
    ensures few { result ≤ 768 }
{
    match pair {
        Some((track, sector)) => {
            let mut blocks = BlockList::empty();
            walk(image, track, sector, &mut blocks);
            blocks.as_slice().len()
        }
        None => 0,
    }
}

/// Returns how many blocks the chains of a slot's file have.
pub fn blocks_there(image: &Image, entry: &Entry) -> usize
    ensures { result ≡ length (slot_blocks image.now entry.now.bytes) }
{
    way_length(image, data_pair(entry)) + way_length(image, side_pair(entry))
}

/// Returns the verb after `there` blocks.
fn there_text(there: usize) -> &'static [u8]
    ensures { result.now ≡ (if there == 1 then codes " is there" else codes " are there") }
{
    if there == 1 {
        b" is there"
    } else {
        b" are there"
    }
}

/// Appends the size that the directory gives, and how many blocks there are.
#[tactic(auto, unfolding(crate::specs::FileText::size_text))]
fn push_size(out: &mut Vec<u8>, shown: usize, there: usize) -> Result<(), AllocError>
    ensures { OnOk result (out.new.items ≡ out.old.items ++ size_text shown there) }
{
    out.extend_from_slice(b"the directory says ")?;
    push_count(out, shown, b"block")?;
    out.extend_from_slice(b", ")?;
    push_number(out, there)?;
    out.extend_from_slice(there_text(there))?;
    Ok(())
}

/// Appends a reason why a file is not whole; the directory has the size `shown`, and `there` blocks
/// are there.
#[tactic(auto, unfolding(crate::specs::FileText::flaw_text))]
fn push_flaw(out: &mut Vec<u8>, shown: usize, there: usize, flaw: Flaw) -> Result<(), AllocError>
    ensures { OnOk result (out.new.items ≡ out.old.items ++ flaw_text shown there flaw) }
{
    match flaw {
        Flaw::Unclosed => out.extend_from_slice(b"never closed"),
        Flaw::Kindless => out.extend_from_slice(b"of no kind"),
        Flaw::Broken => out.extend_from_slice(b"its chain is broken"),
        Flaw::Shared => out.extend_from_slice(b"shares a block with another owner"),
        Flaw::Unreadable => out.extend_from_slice(b"has a read error"),
        Flaw::Missized => push_size(out, shown, there),
        Flaw::Geos => out.extend_from_slice(b"a GEOS file, whose records are not checked"),
    }
}

/// Returns what comes before the reason at a place.
fn comma(place: usize) -> &'static [u8]
    ensures { result.now ≡ comma place }
{
    if place == 0 { b"" } else { b", " }
}

/// Appends the reasons why a file is not whole, with commas between them; the directory has the
/// size `shown`, in blocks, and `there` blocks are there.
pub fn push_flaws(
    out: &mut Vec<u8>,
    shown: usize,
    there: usize,
    flaws: &[Flaw],
) -> Result<(), AllocError>
    requires { length flaws.now ≤ 7 }
    ensures { OnOk result (out.new.items ≡ out.old.items ++ flaws_text shown there flaws.now) }
{
    let mut place = 0;
    for flaw in flaws {
        out.extend_from_slice(comma(place))?;
        push_flaw(out, shown, there, *flaw)?;
        place += 1;
    }
    Ok(())
}
