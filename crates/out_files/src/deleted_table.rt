//! The deleted files of an image in a table for people.
ghost use Rattle.std.specs.Prelude.{◌≡◌, ◌++◌, OnOk, codes, option_map};
ghost use Rattle.std.specs.List.{flat_map};
ghost use Rattle.out_files.specs.DeletedTable.{new_owners, loss_text, losses_text, hope_text, deleted_state, deleted_text};

use crate::table::{push_name, push_size};
use d64_files::name_in;
use d64_image::BlockNo;
use d64_leftovers::DeletedRow;
use d64_scratched::{Loss, is_lost};
use d64_survey::{Flaw, Survey};
use out_messages::{push_flaws, push_owners};
use std::alloc::AllocError;

/// Appends ` by ` and the owners of a block that was used again, or nothing if there is no such
/// block.
fn push_new_owners(
    out: &mut Vec<u8>,
    survey: &Survey,
    block: Option<BlockNo>,
) -> Result<(), AllocError>
    ensures { OnOk result (out.new.items ≡ out.old.items ++ new_owners survey.now block) }
{
    match block {
        Some(block) => {
            out.extend_from_slice(b" by ")?;
            push_owners(out, survey, block)
        }
        None => Ok(()),
    }
}

/// Appends a reason why a deleted file isn't whole.
#[tactic(auto, unfolding(crate::specs::DeletedTable::loss_text))]
fn push_loss(
    out: &mut Vec<u8>,
    survey: &Survey,
    row: &DeletedRow,
    loss: Loss,
) -> Result<(), AllocError>
    ensures { OnOk result (out.new.items ≡ out.old.items ++ loss_text survey.now row.now loss) }
{
    let size = usize::from(row.size);
    match loss {
        Loss::Chain => push_flaws(out, size, row.blocks, &[Flaw::Broken]),
        Loss::Reused => {
            out.extend_from_slice(b"its blocks were used again")?;
            push_new_owners(out, survey, row.reused)
        }
        Loss::Marked => out.extend_from_slice(b"its blocks are marked used"),
        Loss::Size => push_flaws(out, size, row.blocks, &[Flaw::Missized]),
        Loss::Claimed => out.extend_from_slice(b"it shares blocks with a file deleted later"),
        Loss::Unreadable => out.extend_from_slice(b"it has a read error"),
    }
}

/// Appends reasons, each after a comma.
fn push_more_losses(
    out: &mut Vec<u8>,
    survey: &Survey,
    row: &DeletedRow,
    losses: &[Loss],
) -> Result<(), AllocError>
    ensures { OnOk result (out.new.items ≡ out.old.items ++ flat_map (λ other. codes ", " ++ loss_text survey.now row.now other) losses.now) }
{
    for loss in losses {
        out.extend_from_slice(b", ")?;
        push_loss(out, survey, row, *loss)?;
    }
    Ok(())
}

/// Appends reasons, with commas between them.
#[tactic(auto, unfolding(crate::specs::DeletedTable::losses_text))]
fn push_losses(
    out: &mut Vec<u8>,
    survey: &Survey,
    row: &DeletedRow,
    losses: &[Loss],
) -> Result<(), AllocError>
    ensures { OnOk result (out.new.items ≡ out.old.items ++ losses_text survey.now row.now losses.now) }
{
    match losses {
        [] => Ok(()),
        [first, rest @ ..] => {
            push_loss(out, survey, row, *first)?;
            push_more_losses(out, survey, row, rest)
        }
    }
}

/// Returns the text before the reasons: that the file is lost, or can be brought back.
fn hope_text(losses: &[Loss]) -> &'static [u8]
    ensures { result.now ≡ hope_text losses.now }
{
    if losses.is_empty() {
        return b"can be brought back";
    }
    if is_lost(losses) {
        b"lost: "
    } else {
        b"can be brought back, but "
    }
}

/// Appends whether a deleted file can be brought back, and why it isn't whole.
#[tactic(auto, unfolding(crate::specs::DeletedTable::deleted_state))]
fn push_deleted_state(
    out: &mut Vec<u8>,
    survey: &Survey,
    row: &DeletedRow,
) -> Result<(), AllocError>
    ensures { OnOk result (out.new.items ≡ out.old.items ++ deleted_state survey.now row.now) }
{
    let losses = row.losses.as_slice();
    out.extend_from_slice(hope_text(losses))?;
    push_losses(out, survey, row, losses)
}

/// Appends the text of a deleted file: the size that the slot still shows, the name, and whether it
/// can be brought back.
#[tactic(auto, unfolding(crate::specs::DeletedTable::deleted_text))]
pub(crate) fn push_deleted_text(
    scratch: &mut Vec<u8>,
    out: &mut Vec<u8>,
    survey: &Survey,
    row: &DeletedRow,
) -> Result<(), AllocError>
    ensures { OnOk result (out.new.items ≡ out.old.items ++ deleted_text survey.now row.now) }
{
    push_size(out, row.size)?;
    out.extend_from_slice(b" ")?;
    push_name(scratch, out, name_in(&row.field))?;
    out.extend_from_slice(b"       ")?;
    push_deleted_state(out, survey, row)
}
