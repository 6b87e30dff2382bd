//! What is printed of an image, and its verdict.
ghost use Rattle.std.specs.Prelude.{◌≡◌, ◌++◌, [], IfOk, OnOk, is_some, if◌then◌else◌};
ghost use Rattle.out_messages.specs.FaultLines.{unwritten_line};
ghost use Rattle.d64_inventory.specs.ListingAmiss.{is_listing_amiss};
ghost use Rattle.cmd_extract.specs.Work.{outcome_in};
ghost use Rattle.cmd_extract.specs.FilesNow.{progress_of_files};
ghost use Rattle.program_console.specs.Reasons.{with_known_reason};
ghost use Rattle.cmd_extract.specs.Unpacking.{refused_outcome, unread_outcome, wrong_length_outcome, present_outcome, skipped_outcome, unmade_outcome, unnamed_outcome, unfinished_outcome, finished_outcome};

use crate::extract_printing::{print_error, print_length};
use crate::files::Files;
use crate::setup::{ExtractSetup, Task};
use cmd_extract_contents::ContentExtraction;
use d64_inventory::is_amiss;
use out_json_csv::{IS_THERE, Scratch, UNREAD, UNWRITTEN};
use out_messages::{present_line, skipped_line, unread_line, unwritten_line, wrong_length_line};
use program_console::{Reason, push_known_reason};
use program_surveys::{ReportBuffer, Verdict};
use std::alloc::AllocError;
use std::mem;

/// Takes the printed text out of the buffer, and returns it empty.
fn emptied(scratch: &Scratch, buffer: &mut ReportBuffer) -> Vec<u8>
    ensures text { result.items ≡ [] }
    ensures complaint { buffer.new.complaint.items ≡ buffer.old.complaint.items }
{
    let mut printed = mem::replace(&mut buffer.printed, Vec::new(*scratch.text.allocator()));
    printed.clear();
    printed
}

/// Puts the error of an image into the buffer, which has the complaint.
fn refuse(
    setup: &ExtractSetup,
    scratch: &mut Scratch,
    name: &[u8],
    error: &str,
    buffer: &mut ReportBuffer,
) -> Result<Verdict, AllocError>
    ensures { IfOk result (λ verdict. outcome_in buffer.new verdict ≡ refused_outcome setup.now name.now error.now buffer.old.complaint.items) }
{
    let printed = emptied(scratch, buffer);
    buffer.printed = print_error(setup.form, scratch, name, error, printed)?;
    Ok(Verdict::Failed)
}

/// Puts that a file cannot be read into the buffer.
pub(crate) fn report_unread(
    setup: &ExtractSetup,
    scratch: &mut Scratch,
    name: &[u8],
    buffer: &mut ReportBuffer,
) -> Result<Verdict, AllocError>
    ensures { IfOk result (λ verdict. outcome_in buffer.new verdict ≡ unread_outcome setup.now name.now) }
{
    buffer.complaint.clear();
    unread_line(&mut buffer.complaint, name)?;
    refuse(setup, scratch, name, UNREAD, buffer)
}

/// Puts that a file with these bytes is not a dump into the buffer.
pub(crate) fn report_wrong_length(
    setup: &ExtractSetup,
    scratch: &mut Scratch,
    name: &[u8],
    bytes: &[u8],
    buffer: &mut ReportBuffer,
) -> Result<Verdict, AllocError>
    ensures { IfOk result (λ verdict. outcome_in buffer.new verdict ≡ wrong_length_outcome setup.now name.now bytes.now) }
{
    buffer.complaint.clear();
    wrong_length_line(&mut buffer.complaint, name, bytes)?;
    let printed = emptied(scratch, buffer);
    buffer.printed = print_length(setup.form, scratch, name, bytes, printed)?;
    Ok(Verdict::Failed)
}

/// Puts that a path exists already into the buffer.
pub(crate) fn report_present(
    task: &Task,
    scratch: &mut Scratch,
    path: &str,
    buffer: &mut ReportBuffer,
) -> Result<Verdict, AllocError>
    ensures { IfOk result (λ verdict. outcome_in buffer.new verdict ≡ present_outcome task.now path.now) }
{
    buffer.complaint.clear();
    present_line(&mut buffer.complaint, path.as_bytes())?;
    refuse(task.setup, scratch, task.name.as_bytes(), IS_THERE, buffer)
}

/// Puts that the folder of an image is complete, and is skipped, into the buffer.
pub(crate) fn report_skipped(task: &Task, buffer: &mut ReportBuffer) -> Result<Verdict, AllocError>
    ensures { IfOk result (λ verdict. outcome_in buffer.new verdict ≡ skipped_outcome task.now) }
{
    buffer.clear();
    skipped_line(&mut buffer.complaint, task.done.as_bytes())?;
    Ok(Verdict::Clean)
}

/// Appends the line of a path that cannot be written, with the reason, if one is known.
pub(crate) fn add_unwritten(
    complaint: &mut Vec<u8>,
    path: &[u8],
    reason: Option<Reason>,
) -> Result<(), AllocError>
    ensures { OnOk result (complaint.new.items ≡ with_known_reason reason (complaint.old.items ++ unwritten_line path.now)) }
{
    unwritten_line(complaint, path)?;
    push_known_reason(complaint, reason)
}

/// Puts that a folder cannot be made at a path into the buffer, with the reason, if one is known.
pub(crate) fn report_unmade(
    task: &Task,
    scratch: &mut Scratch,
    path: &str,
    reason: Option<Reason>,
    buffer: &mut ReportBuffer,
) -> Result<Verdict, AllocError>
    ensures { IfOk result (λ verdict. outcome_in buffer.new verdict ≡ unmade_outcome task.now path.now reason) }
{
    buffer.complaint.clear();
    add_unwritten(&mut buffer.complaint, path.as_bytes(), reason)?;
    refuse(task.setup, scratch, task.name.as_bytes(), UNWRITTEN, buffer)
}

/// Puts that the folder of an image does not get its name into the buffer, with the reason, if one
/// is known, after the complaints about its files.
pub(crate) fn report_unnamed(
    task: &Task,
    reason: Option<Reason>,
    files: &mut Files,
    buffer: &mut ReportBuffer,
) -> Result<Verdict, AllocError>
    ensures { IfOk result (λ verdict. outcome_in buffer.new verdict ≡ unnamed_outcome task.now (progress_of_files files.old) reason) }
{
    add_unwritten(&mut files.reported.complaint, task.done.as_bytes(), reason)?;
    mem::swap(&mut buffer.complaint, &mut files.reported.complaint);
    refuse(
        task.setup,
        &mut files.reported.scratch,
        task.name.as_bytes(),
        UNWRITTEN,
        buffer,
    )
}

/// Puts all that was printed of the files of an image into the buffer.
fn report_files(files: &mut Files, buffer: &mut ReportBuffer)
    ensures printed { buffer.new.printed.items ≡ files.old.reported.printed.items }
    ensures complaint { buffer.new.complaint.items ≡ files.old.reported.complaint.items }
{
    mem::swap(&mut buffer.printed, &mut files.reported.printed);
    mem::swap(&mut buffer.complaint, &mut files.reported.complaint);
}

/// Returns the verdict on an image, if no write failed.
fn verdict_on(task: &Task, extraction: &ContentExtraction) -> Verdict
    ensures { result ≡ (if is_some extraction.now then (if is_listing_amiss task.now.dump then Verdict.Amiss else Verdict.Clean) else Verdict.Failed) }
{
    if extraction.is_over() {
        return Verdict::Failed;
    }
    if is_amiss(task.all) {
        Verdict::Amiss
    } else {
        Verdict::Clean
    }
}

/// Puts the result of an image whose folder has its name into the buffer.
pub(crate) fn report_finished(task: &Task, files: &mut Files, buffer: &mut ReportBuffer) -> Verdict
    ensures { outcome_in buffer.new result ≡ finished_outcome task.now (progress_of_files files.old) }
{
    let verdict = verdict_on(task, &files.extraction);
    report_files(files, buffer);
    verdict
}

/// Puts the result of an image whose folder keeps its name, since a write failed, into the buffer.
pub(crate) fn report_unfinished(files: &mut Files, buffer: &mut ReportBuffer) -> Verdict
    ensures { outcome_in buffer.new result ≡ unfinished_outcome (progress_of_files files.old) }
{
    report_files(files, buffer);
    Verdict::Failed
}
