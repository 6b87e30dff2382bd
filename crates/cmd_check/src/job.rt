//! The check of disks that the arguments ask for.
ghost use Rattle.std.specs.Prelude.{◌≡◌, ◌≤◌};
ghost use Rattle.cmd_check.specs.Check.{check_rule, heading_of};
ghost use Rattle.program_surveys.specs.FileOutcomes.{by_rule};
ghost use Rattle.program_console.specs.Console.{IsDelivered, IsFresh, SameStreams};
ghost use Rattle.program_console.specs.Outside.{outside_at};
ghost use Rattle.program_surveys.specs.JobEnds.{EndedSurvey};
ghost use Rattle.program_surveys.specs.SurveyFiles.{survey_files_of};

use crate::check_printer::CheckPrinter;
use host_storage::Host;
use program_arguments::{Format, Names};
use program_console::Console;
use program_surveys::{FileNames, SurveyJob, SurveyReport};
use std::alloc::Global;
use std::io::{Read, Write};

/// Prints what is wrong with the disks, and their digests if those are asked for, and returns the
/// exit status.
pub fn check_disks<R: Read, W: Write, F: Write, H: Host>(
    alloc: Global,
    digest: bool,
    format: Format,
    names: Names,
    console: &mut Console<'_, R, W, F>,
    host: &mut H,
) -> u8
    requires fresh { IsFresh console.old }
    ensures same { SameStreams console.old console.new }
    ensures ended { EndedSurvey (by_rule (check_rule format digest)) (heading_of format digest) (survey_files_of names)
        (outside_at R.remaining W.contents F.contents console.old (H.state host.old))
        (outside_at R.remaining W.contents F.contents console.new (H.state host.new)) result }
    ensures status { result ≤ 2 }
    ensures delivered { result ≡ 0 → IsDelivered console.new.outputs.output }
    ensures silent { result ≡ 0 → console.new.outputs.faults ≡ console.old.outputs.faults }
{
    let printer = CheckPrinter::new(alloc, format, digest);
    let report = SurveyReport::new(alloc, printer);
    SurveyJob::new(alloc, FileNames::of(&names)).run(report, console, host)
}
