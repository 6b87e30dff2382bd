//! The map of a disk that the arguments ask for.
ghost use Rattle.std.specs.Prelude.{◌≡◌, ◌≤◌, [], ◌∷◌, string_bytes};
ghost use Rattle.cmd_map.specs.Pictures.{map_rule};
ghost use Rattle.program_surveys.specs.FileOutcomes.{by_rule};
ghost use Rattle.program_console.specs.Console.{IsDelivered, IsFresh, SameStreams};
ghost use Rattle.program_console.specs.Outside.{outside_at};
ghost use Rattle.program_surveys.specs.JobEnds.{EndedSurvey};
ghost use Rattle.program_surveys.specs.SurveyFiles.{Named};

use crate::map_printer::MapPrinter;
use host_storage::Host;
use program_arguments::PictureForm;
use program_console::Console;
use program_surveys::{FileNames, SurveyJob, SurveyReport};
use std::alloc::Global;
use std::io::{Read, Write};

/// Draws the blocks of the disk in a file, and returns the exit status.
pub fn draw_map<R: Read, W: Write, F: Write, H: Host>(
    alloc: Global,
    form: PictureForm,
    file: String,
    console: &mut Console<'_, R, W, F>,
    host: &mut H,
) -> u8
    requires fresh { IsFresh console.old }
    ensures same { SameStreams console.old console.new }
    ensures ended { EndedSurvey (by_rule (map_rule form)) [] (Named (string_bytes file ∷ []))
        (outside_at R.remaining W.contents F.contents console.old (H.state host.old))
        (outside_at R.remaining W.contents F.contents console.new (H.state host.new)) result }
    ensures status { result ≤ 2 }
    ensures delivered { result ≡ 0 → IsDelivered console.new.outputs.output }
    ensures silent { result ≡ 0 → console.new.outputs.faults ≡ console.old.outputs.faults }
{
    let printer = MapPrinter::new(form);
    let report = SurveyReport::new(alloc, printer);
    let files = [file];
    SurveyJob::new(alloc, FileNames::Given(&files)).run(report, console, host)
}
