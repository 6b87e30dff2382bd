//! The text of an image for people.
ghost use Rattle.std.specs.Prelude.{◌≡◌, ◌++◌, nat_lt, if◌then◌else◌, [], OnOk};
ghost use Rattle.std.specs.List.{list_any};
ghost use Rattle.out_messages.specs.FaultText.{read_error_text};
ghost use Rattle.out_messages.specs.Words.{line_below};
ghost use Rattle.cmd_check.specs.CheckText.{image_line, fault_line, most_lines, more_faults_text, more_line, first_lines, faults_of, fault_lines, read_error_lines, unowned_by, is_of_unowned as is_of_unowned_in, unowned_line, check_text as check_text_of};

use crate::file_lines::{LINE_END, LINE_START, push_file_lines};
use d64_survey::{Doubt, Fault, Inspection, ReadError, Survey};
use host_storage::push_shown;
use out_messages::{
    push_contents, push_fault, push_label, push_number, push_read_error, push_state,
    push_unowned_text,
};
use std::alloc::AllocError;

/// The conditions of a sound image are numbered from 1 up to this.
const CONDITIONS: u8 = 6;

/// How many faults with the same number have a line each.
const MOST_LINES: usize = 10;

/// Appends the image's line.
#[tactic(auto, unfolding(crate::specs::CheckText::image_line))]
fn push_image_line(
    name: &[u8],
    inspection: &Inspection,
    out: &mut Vec<u8>,
) -> Result<(), AllocError>
    ensures { OnOk result (out.new.items ≡ out.old.items ++ image_line name.now inspection.now) }
{
    push_shown(out, name)?;
    out.extend_from_slice(b": ")?;
    push_label(out, inspection.image())?;
    out.extend_from_slice(b", ")?;
    push_contents(out, inspection)?;
    out.extend_from_slice(b": ")?;
    push_state(out, inspection)?;
    out.extend_from_slice(b"\n")?;
    Ok(())
}

/// Appends the line of a fault.
#[tactic(auto, unfolding(out_messages::specs::Words::line_below))]
fn push_fault_line(out: &mut Vec<u8>, survey: &Survey, fault: &Fault) -> Result<(), AllocError>
    ensures { OnOk result (out.new.items ≡ out.old.items ++ fault_line survey.now fault.now) }
{
    out.extend_from_slice(LINE_START)?;
    push_fault(out, survey, *fault)?;
    out.extend_from_slice(LINE_END)
}

/// Appends the line of a fault, with `place` faults of its number before it, unless there are ten
/// or more.
fn push_first_line(
    out: &mut Vec<u8>,
    survey: &Survey,
    fault: &Fault,
    place: usize,
) -> Result<(), AllocError>
    ensures { OnOk result (out.new.items ≡ out.old.items ++ (if nat_lt place most_lines then fault_line survey.now fault.now else [])) }
{
    if place < MOST_LINES {
        return push_fault_line(out, survey, fault);
    }
    Ok(())
}

/// Appends how many more faults with a number there are.
#[tactic(auto, unfolding(crate::specs::CheckText::more_faults_text))]
fn push_more(out: &mut Vec<u8>, count: usize) -> Result<(), AllocError>
    ensures { OnOk result (out.new.items ≡ out.old.items ++ more_faults_text count) }
{
    out.extend_from_slice(b"and ")?;
    push_number(out, count)?;
    out.extend_from_slice(b" more of these")?;
    Ok(())
}

/// Appends the line for the faults beyond those that have a line each, if there are any.
#[tactic(auto, unfolding(crate::specs::CheckText::more_line, out_messages::specs::Words::line_below))]
fn push_more_line(out: &mut Vec<u8>, count: usize) -> Result<(), AllocError>
    ensures { OnOk result (out.new.items ≡ out.old.items ++ more_line count) }
{
    if count <= MOST_LINES {
        return Ok(());
    }
    out.extend_from_slice(LINE_START)?;
    push_more(out, count - MOST_LINES)?;
    out.extend_from_slice(LINE_END)
}

/// Appends a line for each of the first ten faults with a number, and one for the others.
fn push_lines_of(
    out: &mut Vec<u8>,
    survey: &Survey,
    list: &[Fault],
    number: u8,
) -> Result<(), AllocError>
    ensures { OnOk result (out.new.items ≡ out.old.items ++ first_lines survey.now (faults_of list.now number)) }
{
    let mut count = 0;
    for fault in list {
        if fault.number() == number {
            push_first_line(out, survey, fault, count)?;
            count += 1;
        }
    }
    push_more_line(out, count)
}

/// Appends the lines of faults, by their numbers.
#[tactic(auto, unfolding(crate::specs::CheckText::fault_lines))]
fn push_fault_lines(out: &mut Vec<u8>, survey: &Survey, list: &[Fault]) -> Result<(), AllocError>
    ensures { OnOk result (out.new.items ≡ out.old.items ++ fault_lines survey.now list.now) }
{
    for number in 1..CONDITIONS + 1 {
        push_lines_of(out, survey, list, number)?;
    }
    Ok(())
}

/// Appends the line of a read error.
#[tactic(auto, unfolding(out_messages::specs::Words::line_below))]
fn push_error_line(out: &mut Vec<u8>, survey: &Survey, error: &ReadError) -> Result<(), AllocError>
    ensures { OnOk result (out.new.items ≡ out.old.items ++ line_below (read_error_text survey.now error.now)) }
{
    out.extend_from_slice(LINE_START)?;
    push_read_error(out, survey, *error)?;
    out.extend_from_slice(LINE_END)
}

/// Appends a line for each read error.
#[tactic(auto, unfolding(crate::specs::CheckText::read_error_lines))]
fn push_error_lines(
    out: &mut Vec<u8>,
    survey: &Survey,
    list: &[ReadError],
) -> Result<(), AllocError>
    ensures { OnOk result (out.new.items ≡ out.old.items ++ read_error_lines survey.now list.now) }
{
    for error in list {
        push_error_line(out, survey, error)?;
    }
    Ok(())
}

/// Appends the line for `count` blocks that nothing owns, if there are any.
#[tactic(auto, unfolding(crate::specs::CheckText::unowned_by, out_messages::specs::Words::line_below))]
fn push_unowned(out: &mut Vec<u8>, count: usize) -> Result<(), AllocError>
    ensures { OnOk result (out.new.items ≡ out.old.items ++ unowned_by count) }
{
    if count == 0 {
        return Ok(());
    }
    out.extend_from_slice(LINE_START)?;
    push_unowned_text(out, count)?;
    out.extend_from_slice(LINE_END)
}

/// Whether a doubt is that blocks belong to no file.
fn is_of_unowned(doubt: Doubt) -> bool
    ensures { result ≡ is_of_unowned_in doubt }
{
    match doubt {
        Doubt::Unowned => true,
        Doubt::Version | Doubt::Blank | Doubt::Filler => false,
    }
}

/// Whether one of the doubts is that blocks belong to no file.
fn any_of_unowned(doubts: &[Doubt]) -> bool
    ensures { result ≡ list_any is_of_unowned_in doubts.now }
{
    doubts.iter().any(|doubt| is_of_unowned(*doubt))
}

/// Appends the line for the blocks that nothing owns, if there are any and something is wrong. If
/// they are a doubt, the image's line names them.
#[tactic(auto, unfolding(crate::specs::CheckText::unowned_line))]
fn push_unowned_line(out: &mut Vec<u8>, inspection: &Inspection) -> Result<(), AllocError>
    ensures { OnOk result (out.new.items ≡ out.old.items ++ unowned_line inspection.now) }
{
    if !inspection.is_amiss() {
        return Ok(());
    }
    if any_of_unowned(inspection.doubts()) {
        return Ok(());
    }
    push_unowned(out, inspection.unowned())
}

/// Appends the text of an image for people: its line; a line for each fault, read error and file
/// that is not whole; and one for the blocks that are marked used and belong to no file, if
/// something is wrong and the image's line does not name them. Of more than ten faults with the
/// same number one line says how many more there are.
#[tactic(auto, unfolding(crate::specs::CheckText::check_text))]
pub(crate) fn check_text(
    name: &[u8],
    inspection: &Inspection,
    out: &mut Vec<u8>,
) -> Result<(), AllocError>
    ensures { OnOk result (out.new.items ≡ out.old.items ++ check_text_of name.now inspection.now) }
{
    let survey = inspection.survey();
    push_image_line(name, inspection, out)?;
    push_fault_lines(out, survey, inspection.faults())?;
    push_error_lines(out, survey, inspection.read_errors())?;
    push_file_lines(out, inspection)?;
    push_unowned_line(out, inspection)?;
    Ok(())
}
