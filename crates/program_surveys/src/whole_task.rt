//! `WholeTask`: a task that is done once for all of its files, and its run.
ghost use Rattle.std.specs.Prelude.{◌≡◌, ◌≤◌, OnOk, Result, false};
ghost use Rattle.program_surveys.specs.Runs.{RunState, run_state_at};
ghost use Rattle.program_surveys.specs.declared.report.Verdict.TheVariants.{Clean};
ghost use Rattle.program_console.specs.Console.{Delivers, IsDelivered, SameStreams, SameWriters};
ghost use Rattle.program_console.specs.Outside.{outside_at};
ghost use Rattle.program_console.specs.declared.stream_fault.StreamFault.{StreamFault};
ghost use Rattle.program_surveys.specs.JobEnds.{EndedRun};

use crate::batch::Batch;
use host_storage::Host;
use program_console::{Console, Outputs, ProgramFault, StreamFault};
use std::alloc::Global;
use std::io::{Read, Write};

/// A task that is done once for all of its files, and reads nothing of the input.
pub trait WholeTask {
    // How it ends, by the state of its run before and after it.
    ghost ends: { Self → RunState → RunState → Result (Unit {0}) StreamFault → Type 0 };

    /// Does the task, and writes its result.
    fn process<W: Write, F: Write, H: Host>(
        &self,
        batch: &mut Batch,
        outputs: &mut Outputs<'_, W, F>,
        host: &mut H,
    ) -> Result<(), StreamFault>
        ensures same { SameWriters outputs.old outputs.new }
        ensures delivered { OnOk result (Delivers outputs.old.output outputs.new.output) }
        ensures silent { batch.new.worst ≡ Clean → outputs.new.faults ≡ outputs.old.faults }
        ensures ended { ends self.now
            (run_state_at W.contents F.contents outputs.old (H.state host.old) batch.old.worst)
            (run_state_at W.contents F.contents outputs.new (H.state host.new) batch.new.worst) result };
}

/// Does a task, and returns the exit status: 0 if it is clean, 1 if something is amiss, and 2 if it
/// has failed, the output takes no more bytes, or memory runs out.
pub fn run_whole<R: Read, W: Write, F: Write, H: Host, T: WholeTask>(
    alloc: Global,
    task: &T,
    console: &mut Console<'_, R, W, F>,
    host: &mut H,
) -> u8
    requires unfailed { console.old.outputs.output.has_failed ≡ false }
    ensures same { SameStreams console.old console.new }
    ensures status { result ≤ 2 }
    ensures ended { EndedRun (T.ends task.now)
        (outside_at R.remaining W.contents F.contents console.old (H.state host.old))
        (outside_at R.remaining W.contents F.contents console.new (H.state host.new)) result }
    ensures delivered { result ≡ 0 → IsDelivered console.new.outputs.output }
    ensures silent { result ≡ 0 → console.new.outputs.faults ≡ console.old.outputs.faults }
{
    let mut batch = Batch::new(alloc);
    match task.process(&mut batch, &mut console.outputs, host) {
        Ok(()) => batch.worst().exit_status(),
        Err(fault) => ProgramFault::from(fault).report_on(&mut console.outputs.faults),
    }
}
