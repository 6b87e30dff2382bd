//! What is on a disk, and its state, in words.
ghost use Rattle.std.specs.Prelude.{◌≡◌, ◌++◌, OnOk};
ghost use Rattle.out_messages.specs.StateText.{label_text, contents_text, faults_text, joining, and_so_many, is_read_sound, is_clean, state_text};

use crate::doubt_text::push_doubts;
use crate::words::{push_count, push_quoted};
use d64_files::{disk_id, disk_name};
use d64_image::Image;
use d64_map::blocks_free;
use d64_survey::Inspection;
use petscii::push_spelling;
use std::alloc::AllocError;

/// Appends the disk's name and its id.
#[tactic(auto, unfolding(crate::specs::StateText::label_text))]
pub fn push_label(out: &mut Vec<u8>, image: &Image) -> Result<(), AllocError>
    ensures { OnOk result (out.new.items ≡ out.old.items ++ label_text image.now) }
{
    push_quoted(out, disk_name(image))?;
    out.extend_from_slice(b" ")?;
    push_spelling(out, disk_id(image))
}

/// Appends how many files and free blocks there are.
#[tactic(auto, unfolding(crate::specs::StateText::contents_text))]
pub fn push_contents(out: &mut Vec<u8>, inspection: &Inspection) -> Result<(), AllocError>
    ensures { OnOk result (out.new.items ≡ out.old.items ++ contents_text inspection.now.image) }
{
    push_count(out, inspection.entries(), b"file")?;
    out.extend_from_slice(b", ")?;
    push_count(out, blocks_free(inspection.image()) as usize, b"block")?;
    out.extend_from_slice(b" free")?;
    Ok(())
}

/// Appends how many faults there are.
fn push_faults(out: &mut Vec<u8>, count: usize) -> Result<(), AllocError>
    ensures { OnOk result (out.new.items ≡ out.old.items ++ faults_text count) }
{
    if count == 0 {
        return out.extend_from_slice(b"sound");
    }
    push_count(out, count, b"fault")
}

/// Returns what joins the next item to the line: after `sound` it is a contrast.
fn joining(is_contrast: bool) -> &'static [u8]
    ensures { result.now ≡ joining is_contrast }
{
    if is_contrast { b", but " } else { b", " }
}

/// Appends how many more things are wrong, if there are any.
#[tactic(auto, unfolding(crate::specs::StateText::and_so_many))]
fn push_and(
    out: &mut Vec<u8>,
    is_contrast: bool,
    count: usize,
    noun: &[u8],
) -> Result<(), AllocError>
    ensures { OnOk result (out.new.items ≡ out.old.items ++ and_so_many is_contrast count noun.now) }
{
    if count == 0 {
        return Ok(());
    }
    out.extend_from_slice(joining(is_contrast))?;
    push_count(out, count, noun)
}

/// Whether there is neither a fault nor a read error.
fn is_read_sound(inspection: &Inspection) -> bool
    ensures { result ≡ is_read_sound inspection.now }
{
    inspection.is_sound() && inspection.read_errors().is_empty()
}

/// Whether there is neither a fault nor a read error nor a damaged file.
fn is_clean(inspection: &Inspection) -> bool
    ensures { result ≡ is_clean inspection.now }
{
    is_read_sound(inspection) && inspection.unwhole() == 0
}

/// Appends the state of a dump.
#[tactic(auto, unfolding(crate::specs::StateText::state_text))]
pub fn push_state(out: &mut Vec<u8>, inspection: &Inspection) -> Result<(), AllocError>
    ensures { OnOk result (out.new.items ≡ out.old.items ++ state_text inspection.now) }
{
    push_faults(out, inspection.faults().len())?;
    push_and(
        out,
        inspection.is_sound(),
        inspection.read_errors().len(),
        b"read error",
    )?;
    push_and(
        out,
        is_read_sound(inspection),
        inspection.unwhole(),
        b"damaged file",
    )?;
    push_doubts(out, inspection, is_clean(inspection))
}
