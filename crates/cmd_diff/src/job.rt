//! The comparison that the arguments ask for.
ghost use Rattle.std.specs.Prelude.{◌≡◌, ◌≤◌, false, string_bytes};
ghost use Rattle.cmd_diff.specs.Comparisons.{EndedComparison};
ghost use Rattle.cmd_diff.specs.Differences.{difference_rule};
ghost use Rattle.program_console.specs.Console.{IsDelivered, SameStreams};
ghost use Rattle.program_console.specs.Outside.{outside_at};

use crate::difference_job::DifferenceJob;
use host_storage::Host;
use program_arguments::DiffForm;
use program_console::Console;
use program_surveys::run_whole;
use std::alloc::Global;
use std::io::{Read, Write};

/// Prints what changed from one dump to another, and returns the exit status.
pub fn compare_files<R: Read, W: Write, F: Write, H: Host>(
    alloc: Global,
    form: DiffForm,
    old: String,
    new: String,
    console: &mut Console<'_, R, W, F>,
    host: &mut H,
) -> u8
    requires unfailed { console.old.outputs.output.has_failed ≡ false }
    ensures same { SameStreams console.old console.new }
    ensures ended { EndedComparison (difference_rule form) (string_bytes old) (string_bytes new)
        (outside_at R.remaining W.contents F.contents console.old (H.state host.old))
        (outside_at R.remaining W.contents F.contents console.new (H.state host.new)) result }
    ensures status { result ≤ 2 }
    ensures delivered { result ≡ 0 → IsDelivered console.new.outputs.output }
    ensures silent { result ≡ 0 → console.new.outputs.faults ≡ console.old.outputs.faults }
{
    let task = DifferenceJob::new(alloc, form, old.as_str(), new.as_str());
    run_whole(alloc, &task, console, host)
}
