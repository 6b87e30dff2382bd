//! The merge that the arguments ask for.
ghost use Rattle.std.specs.Prelude.{◌≡◌, ◌≤◌, false, map, string_bytes};
ghost use Rattle.cmd_merge.specs.Merges.{EndedMerge};
ghost use Rattle.cmd_merge.specs.Setup.{merge_setup_of};
ghost use Rattle.program_console.specs.Console.{IsDelivered, SameStreams};
ghost use Rattle.program_console.specs.Outside.{outside_at};

use crate::merge_job::MergeJob;
use crate::setup::MergeSetup;
use d64_merge::Preference;
use host_storage::Host;
use program_arguments::{DiffForm, Merging};
use program_console::Console;
use program_surveys::run_whole;
use std::alloc::Global;
use std::io::{Read, Write};

/// Makes one dump of dumps of one disk, prints how, and returns the exit status.
pub fn merge_files<R: Read, W: Write, F: Write, H: Host>(
    alloc: Global,
    requested: Merging,
    form: DiffForm,
    files: Vec<String>,
    console: &mut Console<'_, R, W, F>,
    host: &mut H,
) -> u8
    requires unfailed { console.old.outputs.output.has_failed ≡ false }
    ensures same { SameStreams console.old console.new }
    ensures ended { EndedMerge (merge_setup_of requested form (map string_bytes files.items))
        (outside_at R.remaining W.contents F.contents console.old (H.state host.old))
        (outside_at R.remaining W.contents F.contents console.new (H.state host.new)) result }
    ensures status { result ≤ 2 }
    ensures delivered { result ≡ 0 → IsDelivered console.new.outputs.output }
    ensures silent { result ≡ 0 → console.new.outputs.faults ≡ console.old.outputs.faults }
{
    let setup = merge_setup_of(requested, form, files);
    run_whole(alloc, &MergeJob::new(alloc, &setup), console, host)
}

/// Returns what a merge of these files is asked for by the arguments, in a form of the output.
fn merge_setup_of(requested: Merging, form: DiffForm, files: Vec<String>) -> MergeSetup
    ensures { result ≡ merge_setup_of requested form (map string_bytes files.items) }
{
    MergeSetup {
        out: requested.output,
        preference: Preference {
            majority: requested.majority,
            first: requested.first,
        },
        plain: requested.plain,
        form,
        names: files,
    }
}
