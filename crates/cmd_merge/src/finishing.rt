//! How a merge ends after its files were read.
ghost use Rattle.std.specs.Prelude.{◌≡◌, IfOk, IfErr, OnOk, false, true, option_map};
ghost use Rattle.d64_survey.specs.Dump.{dump_bytes};
ghost use Rattle.program_surveys.specs.FileOutcomes.{file_outcome};
ghost use Rattle.cmd_merge.specs.Finishing.{Finishes, WritesMerged, MayHaveMade};
ghost use Rattle.cmd_merge.specs.Reports.{made, choices_of, left_of, file_present_outcome, faulted_outcome, merged_outcome, unwritten_outcome};

use crate::readings::Readings;
use crate::report::{Plan, plan_of, print_report, verdict_on};
use crate::setup::MergeSetup;
use d64_merge::{keeps_codes, merged_bytes};
use host_storage::Host;
use out_json_csv::Scratch;
use out_messages::{present_line, unwritten_line};
use program_console::{Reason, push_known_reason, reason_unwritten};
use program_surveys::{ReportBuffer, Verdict};
use sha2::{Digest, Sha256};
use std::alloc::{AllocError, Global};
use std::mem;

/// Replaces the buffer's contents by the line that the file to be made is there already.
pub fn say_present(setup: &MergeSetup, buffer: &mut ReportBuffer) -> Result<Verdict, AllocError>
    ensures { IfOk result (λ verdict. file_outcome buffer.new.printed.items buffer.new.complaint.items verdict ≡ file_present_outcome setup.now) }
{
    buffer.clear();
    present_line(&mut buffer.complaint, setup.out.as_bytes())?;
    Ok(Verdict::Failed)
}

/// Replaces the buffer's contents by what is printed and reported of the files that are no dumps
/// or cannot be read.
fn say_faults(readings: &Readings, buffer: &mut ReportBuffer) -> Result<Verdict, AllocError>
    ensures { IfOk result (λ verdict. file_outcome buffer.new.printed.items buffer.new.complaint.items verdict ≡ faulted_outcome readings.now) }
{
    buffer.clear();
    buffer.printed.extend_from_slice(&readings.printed)?;
    buffer.complaint.extend_from_slice(&readings.complaint)?;
    Ok(Verdict::Failed)
}

/// Replaces the buffer's contents by the report of a merge whose file was made of these bytes, or
/// None if a conflict forbade it, and returns the verdict on the blocks.
fn say_merged(
    alloc: Global,
    setup: &MergeSetup,
    readings: &Readings,
    plan: &Plan,
    bytes: Option<&[u8]>,
    buffer: &mut ReportBuffer,
) -> Result<Verdict, AllocError>
    requires list { plan.now.list.items ≡ choices_of setup.now readings.now }
    requires left { plan.now.left.items ≡ left_of setup.now readings.now }
    ensures { IfOk result (λ verdict. file_outcome buffer.new.printed.items buffer.new.complaint.items verdict ≡ merged_outcome setup.now readings.now (option_map (λ bytes. bytes.now) bytes.entry)) }
{
    buffer.clear();
    let digest = match bytes {
        Some(bytes) => Some(Sha256::digest(bytes)),
        None => None,
    };
    let out = mem::replace(&mut buffer.printed, Vec::new(alloc));
    let mut scratch = Scratch::new(alloc);
    buffer.printed = print_report(&mut scratch, setup, readings, plan, digest.as_ref(), out)?;
    Ok(verdict_on(&plan.list))
}

/// Replaces the buffer's contents by the report of a merge whose file cannot be made, with the
/// reason (None if unknown).
fn say_unwritten(
    alloc: Global,
    setup: &MergeSetup,
    readings: &Readings,
    plan: &Plan,
    reason: Option<Reason>,
    buffer: &mut ReportBuffer,
) -> Result<Verdict, AllocError>
    requires list { plan.now.list.items ≡ choices_of setup.now readings.now }
    requires left { plan.now.left.items ≡ left_of setup.now readings.now }
    ensures { IfOk result (λ verdict. file_outcome buffer.new.printed.items buffer.new.complaint.items verdict ≡ unwritten_outcome setup.now readings.now reason) }
{
    buffer.clear();
    let out = mem::replace(&mut buffer.printed, Vec::new(alloc));
    let mut scratch = Scratch::new(alloc);
    buffer.printed = print_report(&mut scratch, setup, readings, plan, None, out)?;
    unwritten_line(&mut buffer.complaint, setup.out.as_bytes())?;
    push_known_reason(&mut buffer.complaint, reason)?;
    Ok(Verdict::Failed)
}

/// Makes the file of the bytes of the merged dump, if there is no conflict, and replaces the
/// buffer's contents by the report.
fn write<H: Host>(
    alloc: Global,
    setup: &MergeSetup,
    readings: &Readings,
    plan: &Plan,
    host: &mut H,
    buffer: &mut ReportBuffer,
) -> Result<Verdict, AllocError>
    requires list { plan.now.list.items ≡ choices_of setup.now readings.now }
    requires left { plan.now.left.items ≡ left_of setup.now readings.now }
    ensures written { IfOk result (λ verdict. WritesMerged setup.now readings.now (option_map dump_bytes (made setup.now readings.now)) (H.state host.old)
        (file_outcome buffer.new.printed.items buffer.new.complaint.items verdict) (H.state host.new)) }
    ensures memory { IfErr result (λ error. MayHaveMade setup.now (option_map dump_bytes (made setup.now readings.now)) (H.state host.old) (H.state host.new)) }
{
    let with_codes = keeps_codes(setup.plain, &readings.dumps);
    let Some(bytes) = merged_bytes(alloc, with_codes, &readings.dumps, &plan.list)? else {
        return say_merged(alloc, setup, readings, plan, None, buffer);
    };
    match host.make_whole_file(alloc, &setup.out, &bytes) {
        Ok(()) => say_merged(alloc, setup, readings, plan, Some(&bytes), buffer),
        Err(_) => {
            let reason = reason_unwritten(host, &setup.out);
            say_unwritten(alloc, setup, readings, plan, reason, buffer)
        }
    }
}

/// Ends a merge whose files were read: makes the file of the merged dump, if each of them is a dump
/// and there is no conflict, and replaces the buffer's contents by the report. If memory runs out,
/// the file may have been made, whole.
pub fn finish<H: Host>(
    alloc: Global,
    setup: &MergeSetup,
    readings: &Readings,
    host: &mut H,
    buffer: &mut ReportBuffer,
) -> Result<Verdict, AllocError>
    ensures finished { IfOk result (λ verdict. Finishes setup.now readings.now (H.state host.old)
        (file_outcome buffer.new.printed.items buffer.new.complaint.items verdict) (H.state host.new)) }
    ensures memory { IfErr result (λ error. MayHaveMade setup.now (option_map dump_bytes (made setup.now readings.now)) (H.state host.old) (H.state host.new)) }
{
    if !readings.are_dumps() {
        return say_faults(readings, buffer);
    }
    let plan = plan_of(alloc, setup, readings)?;
    write(alloc, setup, readings, &plan, host, buffer)
}
