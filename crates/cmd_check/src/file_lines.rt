//! The files that are not whole, a line for each.
ghost use Rattle.std.specs.Prelude.{◌≡◌, ◌≤◌, ◌++◌, length, OnOk};
ghost use Rattle.d64_files.specs.Slot.{EntryView};
ghost use Rattle.d64_survey.specs.Owners.{way_slots};
ghost use Rattle.out_messages.specs.Words.{line_below};
ghost use Rattle.cmd_check.specs.FileLines.{file_text, file_line, file_lines};

use d64_files::Entry;
use d64_survey::{Flaw, Inspection, Survey, wholeness};
use out_messages::{blocks_there, letters_of, push_flaws, push_quoted};
use std::alloc::AllocError;

/// How a line below that of the image begins, and how it ends.
pub(crate) const LINE_START: &[u8] = b"  ";

pub(crate) const LINE_END: &[u8] = b"\n";

/// Appends a file that is not whole, for these reasons.
#[tactic(auto, unfolding(crate::specs::FileLines::file_text))]
fn push_file(
    out: &mut Vec<u8>,
    survey: &Survey,
    entry: &Entry,
    flaws: &[Flaw],
) -> Result<(), AllocError>
    requires { length flaws.now ≤ 7 }
    ensures { OnOk result (out.new.items ≡ out.old.items ++ file_text survey.now entry.now.bytes flaws.now) }
{
    push_quoted(out, entry.name())?;
    out.extend_from_slice(b" ")?;
    out.extend_from_slice(letters_of(entry))?;
    out.extend_from_slice(b": ")?;
    push_flaws(
        out,
        usize::from(entry.blocks()),
        blocks_there(survey.image(), entry),
        flaws,
    )
}

/// Appends the line of a slot, if its file is not whole.
#[tactic(auto, unfolding(crate::specs::FileLines::file_line, out_messages::specs::Words::line_below))]
fn push_file_line(
    out: &mut Vec<u8>,
    inspection: &Inspection,
    entry: &Entry,
) -> Result<(), AllocError>
    ensures { OnOk result (out.new.items ≡ out.old.items ++ file_line inspection.now entry.now.bytes) }
{
    if !entry.used() {
        return Ok(());
    }
    let survey = inspection.survey();
    let flaws = survey.why(inspection.codes(), entry);
    match wholeness(entry, flaws.as_slice()) {
        Some(false) => {
            out.extend_from_slice(LINE_START)?;
            push_file(out, survey, entry, flaws.as_slice())?;
            out.extend_from_slice(LINE_END)
        }
        Some(true) | None => Ok(()),
    }
}

/// Appends a line for each file that is not whole.
#[tactic(auto, unfolding(crate::specs::FileLines::file_lines))]
pub(crate) fn push_file_lines(out: &mut Vec<u8>, inspection: &Inspection) -> Result<(), AllocError>
    ensures { OnOk result (out.new.items ≡ out.old.items ++ file_lines inspection.now (way_slots inspection.now.image)) }
{
    for entry in inspection.survey().slots() {
        push_file_line(out, inspection, &entry)?;
    }
    Ok(())
}
