//! The lists of files that the arguments ask for.
ghost use Rattle.std.specs.Prelude.{◌≡◌, ◌≤◌};
ghost use Rattle.cmd_files.specs.Files.{files_rule, file_heading_of};
ghost use Rattle.program_surveys.specs.FileOutcomes.{by_rule};
ghost use Rattle.program_console.specs.Console.{IsDelivered, IsFresh, SameStreams};
ghost use Rattle.program_console.specs.Outside.{outside_at};
ghost use Rattle.program_surveys.specs.JobEnds.{EndedSurvey};
ghost use Rattle.program_surveys.specs.SurveyFiles.{survey_files_of};

use crate::files_printer::FilesPrinter;
use host_storage::Host;
use out_files::Form;
use program_arguments::Names;
use program_console::Console;
use program_surveys::{FileNames, SurveyJob, SurveyReport};
use std::alloc::Global;
use std::io::{Read, Write};

/// Prints the files on the disks, and returns the exit status.
pub fn print_files<R: Read, W: Write, F: Write, H: Host>(
    alloc: Global,
    form: Form,
    names: Names,
    console: &mut Console<'_, R, W, F>,
    host: &mut H,
) -> u8
    requires fresh { IsFresh console.old }
    ensures same { SameStreams console.old console.new }
    ensures ended { EndedSurvey (by_rule (files_rule form)) (file_heading_of form) (survey_files_of names)
        (outside_at R.remaining W.contents F.contents console.old (H.state host.old))
        (outside_at R.remaining W.contents F.contents console.new (H.state host.new)) result }
    ensures status { result ≤ 2 }
    ensures delivered { result ≡ 0 → IsDelivered console.new.outputs.output }
    ensures silent { result ≡ 0 → console.new.outputs.faults ≡ console.old.outputs.faults }
{
    let printer = FilesPrinter::new(alloc, form);
    let report = SurveyReport::new(alloc, printer);
    SurveyJob::new(alloc, FileNames::of(&names)).run(report, console, host)
}
