//! What is printed for arguments that ask for no job.
ghost use Rattle.std.specs.Prelude.{◌≡◌, false};
ghost use Rattle.program_console.specs.Console.{IsDelivered, SameWriters};
ghost use Rattle.program_console.specs.Outside.{account_at};
ghost use Rattle.program_console.specs.NoJob.{ReportsNoJob, HasShown, HasReported};

use crate::console::Outputs;
use crate::exit_status::{ALL_ACCEPTED, NOT_RUN};
use crate::program_fault::{ProgramFault, report_text};
use host_storage::OutputStream;
use program_arguments::JobFault;
use std::alloc::Global;
use std::io::Write;

/// Reports arguments that ask for no job, and returns the exit status: help and version go to the
/// output, and what is wrong with the arguments to the standard error.
pub fn report_no_job<W: Write, F: Write>(
    alloc: Global,
    fault: JobFault,
    outputs: &mut Outputs<'_, W, F>,
) -> u8
    requires unfailed { outputs.old.output.has_failed ≡ false }
    ensures same { SameWriters outputs.old outputs.new }
    ensures reported { ReportsNoJob fault (account_at W.contents outputs.old.output) (account_at W.contents outputs.new.output) (account_at F.contents outputs.old.faults) (account_at F.contents outputs.new.faults) result }
    ensures silent { result ≡ 0 → outputs.new.faults ≡ outputs.old.faults }
    ensures delivered { result ≡ 0 → IsDelivered outputs.new.output }
{
    match fault.text() {
        Some(text) => report_text(text, &mut outputs.faults),
        None if fault.is_help_or_version() => show(alloc, &fault, outputs),
        None => report_error(alloc, &fault, &mut outputs.faults),
    }
}

/// Prints the help or the version.
fn show<W: Write, F: Write>(alloc: Global, fault: &JobFault, outputs: &mut Outputs<'_, W, F>) -> u8
    requires unfailed { outputs.old.output.has_failed ≡ false }
    ensures same { SameWriters outputs.old outputs.new }
    ensures shown { HasShown (account_at W.contents outputs.old.output) (account_at W.contents outputs.new.output) (account_at F.contents outputs.old.faults) (account_at F.contents outputs.new.faults) result }
    ensures silent { result ≡ 0 → outputs.new.faults ≡ outputs.old.faults }
    ensures delivered { result ≡ 0 → IsDelivered outputs.new.output }
{
    let Ok(text) = format!(in alloc; "{fault}") else {
        return ProgramFault::Memory.report_on(&mut outputs.faults);
    };
    match outputs.print(text.as_bytes()) {
        Ok(()) => ALL_ACCEPTED,
        Err(_) => ProgramFault::Write.report_on(&mut outputs.faults),
    }
}

/// Reports what is wrong with the arguments. If a write fails, the rest of the text is dropped.
fn report_error<F: Write>(alloc: Global, fault: &JobFault, faults: &mut OutputStream<'_, F>) -> u8
    ensures faults { faults.new.writer.ghost_name ≡ faults.old.writer.ghost_name }
    ensures reported { HasReported (account_at F.contents faults.old) (account_at F.contents faults.new) result }
    ensures status { result ≡ 2 }
{
    let Ok(text) = format!(in alloc; "{fault}") else {
        return ProgramFault::Memory.report_on(faults);
    };
    let _ = faults.write(text.as_bytes());
    NOT_RUN
}
