//! What is printed of a merge, in one of the two forms.
ghost use Rattle.std.specs.Prelude.{◌≡◌, ◌++◌, map, option_map, string_bytes, IfOk, OnOk};
ghost use Rattle.d64_merge.specs.Merged.{choices, merged_tracks, keeps_codes};
ghost use Rattle.d64_merge.specs.Left.{left};
ghost use Rattle.program_arguments.specs.declared.jobs.DiffForm.TheVariants.{Text as as_text, Json as as_json};
ghost use Rattle.cmd_merge.specs.Reports.{choices_of, left_of, report_by, report_of, merge_verdict};

use crate::lines::push_report;
use crate::objects::{Summary, choice_lines, summary_json};
use crate::readings::Readings;
use crate::setup::MergeSetup;
use d64_merge::{BlockOutcome, Choice, choices, count_of, keeps_codes, list_left, merged_tracks};
use d64_survey::Dump;
use out_json_csv::Scratch;
use program_arguments::DiffForm;
use program_surveys::Verdict;
use std::alloc::{AllocError, Global};

/// What becomes of the blocks, and what is left on other tracks of G64 files.
#[derive(Drop)]
pub(crate) struct Plan {
    pub(crate) list: Vec<Choice>,
    pub(crate) left: Vec<u8>,
}

/// Returns what becomes of the blocks of these readings, and what is left on other tracks of G64
/// files.
pub(crate) fn plan_of(
    alloc: Global,
    setup: &MergeSetup,
    readings: &Readings,
) -> Result<Plan, AllocError>
    ensures list { IfOk result (λ plan. plan.list.items ≡ choices_of setup.now readings.now) }
    ensures left { IfOk result (λ plan. plan.left.items ≡ left_of setup.now readings.now) }
{
    let list = choices(alloc, setup.preference, &readings.dumps)?;
    let tracks = merged_tracks(&readings.dumps);
    match list_left(alloc, tracks, &list, &readings.files) {
        Ok(left) => Ok(Plan { list, left }),
        Err(error) => Err(error),
    }
}

/// Returns the verdict on the blocks: amiss if one is lost, taken from the first good copy, or in
/// conflict, and else clean.
pub(crate) fn verdict_on(list: &[Choice]) -> Verdict
    ensures { result ≡ merge_verdict list.now }
{
    let lost = count_of(BlockOutcome::Lost, list);
    let first = count_of(BlockOutcome::First, list);
    let conflict = count_of(BlockOutcome::Conflict, list);
    if lost == 0 && first == 0 && conflict == 0 {
        Verdict::Clean
    } else {
        Verdict::Amiss
    }
}

/// Appends what is printed of a merge in a form.
fn print_in(
    form: DiffForm,
    scratch: &mut Scratch,
    names: &[String],
    dumps: &[Dump],
    summary: &Summary,
    out: Vec<u8>,
) -> Result<Vec<u8>, AllocError>
    ensures { IfOk result (λ text. text.items ≡ out.items ++ report_by form summary.now.out.now summary.now.tracks summary.now.with_codes (map string_bytes names.now) dumps.now summary.now.list.now summary.now.left.now (option_map (λ d. d.now) summary.now.digest)) }
{
    match form {
        DiffForm::Text => {
            let mut text = out;
            push_report(&mut text, names, dumps, summary)?;
            Ok(text)
        }
        DiffForm::Json => {
            let blocks = choice_lines(scratch, names, dumps, summary.list, out)?;
            summary_json(scratch, summary, blocks)
        }
    }
}

/// Appends what is printed of a merge, with the digest of the file that was made, or None if none
/// was.
pub(crate) fn print_report(
    scratch: &mut Scratch,
    setup: &MergeSetup,
    readings: &Readings,
    plan: &Plan,
    digest: Option<&[u8; 32]>,
    out: Vec<u8>,
) -> Result<Vec<u8>, AllocError>
    requires list { plan.now.list.items ≡ choices_of setup.now readings.now }
    requires left { plan.now.left.items ≡ left_of setup.now readings.now }
    ensures { IfOk result (λ text. text.items ≡ out.items ++ report_of setup.now readings.now (option_map (λ d. d.now) digest.entry)) }
{
    let summary = Summary {
        out: setup.out.as_bytes(),
        tracks: merged_tracks(&readings.dumps),
        with_codes: keeps_codes(setup.plain, &readings.dumps),
        list: &plan.list,
        left: &plan.left,
        digest,
    };
    print_in(
        setup.form,
        scratch,
        &setup.names,
        &readings.dumps,
        &summary,
        out,
    )
}
