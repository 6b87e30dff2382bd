//! The extraction that the arguments ask for.
ghost use Rattle.std.specs.Prelude.{◌≡◌, ◌≤◌, true};
ghost use Rattle.cmd_extract.specs.Effects.{unpacks};
ghost use Rattle.cmd_extract.specs.Extracts.{extract_heading};
ghost use Rattle.cmd_extract.specs.Setup.{setup_of};
ghost use Rattle.program_console.specs.Console.{IsDelivered, IsFresh, SameStreams};
ghost use Rattle.program_console.specs.Outside.{outside_at};
ghost use Rattle.program_surveys.specs.JobEnds.{EndedSurvey};
ghost use Rattle.program_surveys.specs.SurveyFiles.{survey_files_of};

use crate::setup::ExtractSetup;
use crate::unpacker::Unpacker;
use host_storage::Host;
use out_files::Form;
use program_arguments::{Extraction, Names};
use program_console::Console;
use program_surveys::{FileNames, SurveyJob};
use std::alloc::Global;
use std::io::{Read, Write};

/// Writes the files on the disks to the host, prints them, and returns the exit status.
pub fn extract_files<R: Read, W: Write, F: Write, H: Host>(
    alloc: Global,
    requested: Extraction,
    form: Form,
    names: Names,
    console: &mut Console<'_, R, W, F>,
    host: &mut H,
) -> u8
    requires fresh { IsFresh console.old }
    ensures same { SameStreams console.old console.new }
    ensures ended { EndedSurvey (unpacks (setup_of requested form)) (extract_heading form) (survey_files_of names)
        (outside_at R.remaining W.contents F.contents console.old (H.state host.old))
        (outside_at R.remaining W.contents F.contents console.new (H.state host.new)) result }
    ensures status { result ≤ 2 }
    ensures delivered { result ≡ 0 → IsDelivered console.new.outputs.output }
    ensures silent { (requested.skip_existing ≡ true → ⊥) → result ≡ 0 → console.new.outputs.faults ≡ console.old.outputs.faults }
{
    let task = Unpacker::new(alloc, setup_of(requested, form));
    SurveyJob::new(alloc, FileNames::of(&names)).run(task, console, host)
}

/// Returns the options of an extraction that the arguments give, in a form of the output.
fn setup_of(requested: Extraction, form: Form) -> ExtractSetup
    ensures { result ≡ setup_of requested form }
{
    ExtractSetup {
        into: requested.into,
        with_parts: requested.part,
        skips: requested.skip_existing,
        form,
    }
}
