//! Why what was deleted under a name is lost.
ghost use Rattle.std.specs.Prelude.{◌≡◌, ◌++◌, false, IfOk, IfSome, OnOk, find};
ghost use Rattle.std.specs.List.{list_any};
ghost use Rattle.std.specs.Option.{option_map_or};
ghost use Rattle.d64_files.specs.Slot.{EntryView};
ghost use Rattle.script_advice.specs.Found.{listed_slots};
ghost use Rattle.script_advice.specs.Lost.{IsFileNamed, IsLostLine, first_loss, is_grave, is_marked_used, loss_of, loss_of_entry, loss_reason_text, lost_about, reported_loss};

use crate::advice::name_part;
use crate::found::is_deleted_as;
use d64_files::{Entry, Name};
use d64_image::Image;
use d64_scratched::{Loss, ScratchedSlots};
use d64_survey::Survey;
use script_lines::Status;
use script_lines::arguments::{name_and_kind_in, name_in};
use std::alloc::{AllocError, Global};

/// The line that says why each deleted file of this name is lost, after this start, if the line of
/// the name was refused for that and there is memory.
pub(crate) fn lost_line(
    alloc: Global,
    start: &[u8],
    name: &str,
    status: &Status,
    image: &Image,
) -> Option<Vec<u8>>
    ensures { IfSome result (λ line. IsLostLine image.now start.now name.now status.now line.items) }
{
    let Status::FileLost = *status else {
        return None;
    };
    let file = file_named(alloc, name)?;
    let loss = loss_of(image, &file)?;
    lost_about(alloc, start, name_part(name), loss).ok()
}

/// The line about a name with the reason.
#[tactic(auto, unfolding(crate::specs::Lost::lost_about))]
fn lost_about(alloc: Global, start: &[u8], name: &[u8], loss: Loss) -> Result<Vec<u8>, AllocError>
    ensures { IfOk result (λ line. line.items ≡ lost_about start.now name.now loss) }
{
    let mut line = Vec::new(alloc);
    line.extend_from_slice(start)?;
    line.extend_from_slice(b"what was deleted as \"")?;
    line.extend_from_slice(name)?;
    line.extend_from_slice(b"\" is lost")?;
    push_loss(&mut line, loss)?;
    line.extend_from_slice(b"\n")?;
    Ok(line)
}

/// Appends the text for a reason.
fn push_loss(line: &mut Vec<u8>, loss: Loss) -> Result<(), AllocError>
    ensures { OnOk result (line.new.items ≡ line.old.items ++ loss_reason_text loss) }
{
    line.extend_from_slice(loss_text(loss))
}

/// Returns the text for a reason.
#[tactic(auto, unfolding(crate::specs::Lost::loss_reason_text))]
fn loss_text(loss: Loss) -> &'static [u8]
    ensures { result.now ≡ loss_reason_text loss }
{
    match loss {
        Loss::Chain => b": its chain of blocks is broken",
        Loss::Reused => b": a block of it was used again",
        Loss::Marked =>
            b": a block of it is marked used, and belongs to no file; validate frees such blocks",
        Loss::Size => b": it has not as many blocks as its entry shows",
        Loss::Claimed | Loss::Unreadable => b"",
    }
}

/// The name of a file in an argument that may have the letter of a type behind a comma.
fn file_named(alloc: Global, argument: &str) -> Option<Name>
    ensures { IfSome result (IsFileNamed argument.now) }
{
    match name_and_kind_in(argument.as_bytes()) {
        Ok((name, _)) => name_in(alloc, name).ok(),
        Err(_) => None,
    }
}

/// Why the deleted files of a name are lost: that a block is marked used, if that is all that is
/// wrong with one of them; else what is wrong with the first.
fn loss_of(image: &Image, name: &Name) -> Option<Loss>
    ensures { result ≡ loss_of image.now name.now }
{
    let survey = Survey::of(image);
    let scratched = ScratchedSlots::of(&survey);
    if is_one_marked(&survey, &scratched, name) {
        Some(Loss::Marked)
    } else {
        first_loss(&survey, &scratched, name)
    }
}

/// Whether all that is wrong with one of the deleted files of a name is that a block is marked used.
fn is_one_marked(survey: &Survey, scratched: &ScratchedSlots, name: &Name) -> bool
    requires { scratched.now ≡ survey.now }
    ensures { result ≡ list_any (λ (entry : EntryView). option_map_or is_marked_used (loss_of_entry survey.now name.now entry) false) (listed_slots survey.now) }
{
    for entry in survey.slots() {
        if let Some(Loss::Marked) = loss_of_entry(scratched, &entry, name) {
            return true;
        }
    }
    false
}

/// What is wrong with the first of the deleted files of a name.
fn first_loss(survey: &Survey, scratched: &ScratchedSlots, name: &Name) -> Option<Loss>
    requires { scratched.now ≡ survey.now }
    ensures { result ≡ first_loss survey.now name.now (listed_slots survey.now) }
{
    for entry in survey.slots() {
        if let Some(loss) = loss_of_entry(scratched, &entry, name) {
            return Some(loss);
        }
    }
    None
}

/// What is wrong with the file of an entry, if it is deleted and had this name.
fn loss_of_entry(scratched: &ScratchedSlots, entry: &Entry, name: &Name) -> Option<Loss>
    ensures { result ≡ loss_of_entry scratched.now name.now entry.now }
{
    if is_deleted_as(entry, name.bytes()) {
        reported_loss(&scratched.losses(None, entry))
    } else {
        None
    }
}

/// The first reason for which a file is lost; that a block is marked used, if there is no other.
fn reported_loss(losses: &[Loss]) -> Option<Loss>
    ensures { result ≡ reported_loss losses.now }
{
    match first_grave(losses) {
        Some(loss) => Some(loss),
        None => {
            if has_marked(losses) {
                Some(Loss::Marked)
            } else {
                None
            }
        }
    }
}

/// The first reason for which a file is lost, other than that a block is marked used.
fn first_grave(losses: &[Loss]) -> Option<Loss>
    ensures { result ≡ find is_grave losses.now }
{
    losses
        .iter()
        .copied()
        .find(|loss| loss.is_fatal() && !is_marked_used(*loss))
}

/// Whether one of the reasons is that a block is marked used.
fn has_marked(losses: &[Loss]) -> bool
    ensures { result ≡ list_any is_marked_used losses.now }
{
    losses.iter().any(|loss| is_marked_used(*loss))
}

/// Whether a reason is that a block is marked used.
fn is_marked_used(loss: Loss) -> bool
    ensures { result ≡ is_marked_used loss }
{
    matches!(loss, Loss::Marked)
}
