//! The program `d64sh`, from its arguments to its exit status.
ghost use Rattle.std.specs.Prelude.{◌≡◌, ◌≢◌, ◌≤◌, Bool, false, map, option_map, string_bytes};
ghost use Rattle.host_storage.specs.Input.{Reading, reading_of};
ghost use Rattle.host_storage.specs.Output.{account_of};
ghost use Rattle.program_console.specs.Console.{IsDelivered, IsFresh, SameStreams};
ghost use Rattle.d64_shell.specs.Jobs.{IsScript, PassesOver, work_of};
ghost use Rattle.d64_shell.specs.Program.{AsksForShell, AsksToPassOver, Ended, EndedWork};
ghost use Rattle.program_console.specs.Outside.{outside_at, outside_of};
ghost use Rattle.cmd_basic.specs.ToolRuns.{EndedConversion};
ghost use Rattle.cmd_shell.specs.Scripts.{beginning_in, options_in, source_in};
ghost use Rattle.cmd_shell.specs.ShellRuns.{EndedShell};

use cmd_basic::{Tool, ToolJob};
use cmd_catalogue::make_catalogue;
use cmd_check::check_disks;
use cmd_diff::compare_files;
use cmd_extract::extract_files;
use cmd_files::print_files;
use cmd_map::draw_map;
use cmd_merge::merge_files;
use cmd_shell::{BlankDisk, ShellJob, exit_status, refusals_of};
use host_storage::{Host, HostFault, InputStream, OutputStream};
use out_files::Form;
use program_arguments::Job;
use program_console::{Console, NOT_RUN, report_no_job, requested_job};
use script_commands::{Nobody, Observer};
use std::alloc::Global;
use std::io::{Read, Write};

/// Does what the arguments after the program's name ask for, and returns the exit status: 0 if all
/// lines of the script or a tool's input were accepted, and after help; 1 if a line was refused, or
/// a tool's input, of which `faults` gets a status line, or with `-o` lines NAME:LINE; 2 after a
/// fault, or if the arguments are wrong, which is reported on `faults`. Of `check`, `files`,
/// `extract`, `map`, `catalogue`, `diff` and `merge` 0 means that nothing is amiss or different,
/// and 1 that something is.
///
/// `shell` runs the script that `reader` gives on a blank image, of 40 tracks after `--tracks 40`;
/// `shell IMAGE` runs it on the image that the host has under this name, to which `save` also
/// stores it by default; `shell --resume FILE` runs it on the session that the host has in this
/// file, and an IMAGE beside it is only the file that `save` stores to by default. `petcat` and
/// `crunch` work on what `reader` gives, or on the file that the host has under the name that they
/// are given. The writer is flushed before a status is returned; each line of output is a few
/// writes, so a writer that buffers is faster. A contract cannot say of plain streams whether a
/// call of theirs failed: an `ObservedProgram` takes streams of which it can.
pub fn program<R: Read, W: Write, F: Write, H: Host>(
    alloc: Global,
    arguments: &[&str],
    reader: &mut R,
    writer: &mut W,
    faults: &mut F,
    host: &mut H,
) -> u8
    ensures status { result ≤ 2 }
    ensures ended { (reading : Reading) × (output_failed : Bool) × (faults_failed : Bool) × Ended (map (λ argument. argument.now) arguments.now)
        (outside_of (R.remaining reader.old) (reading_of 0 0 false) (account_of (W.contents writer.old) false) (account_of (F.contents faults.old) false) (H.state host.old))
        (outside_of (R.remaining reader.new) reading (account_of (W.contents writer.new) output_failed) (account_of (F.contents faults.new) faults_failed) (H.state host.new)) result }
    ensures silent { (AsksToPassOver (map (λ argument. argument.now) arguments.now) → ⊥) → result ≡ 0 → faults.new ≡ faults.old }
    ensures script { AsksForShell (map (λ argument. argument.now) arguments.now) → result ≢ 2 → faults.new ≡ faults.old }
{
    let mut console = Console::new(
        InputStream::new(reader),
        OutputStream::new(writer),
        OutputStream::new(faults),
    );
    let mut nobody = Nobody;
    let program = ObservedProgram {
        alloc,
        observer: &mut nobody,
    };
    program.run(arguments, &mut console, host)
}

/// The program with its allocator, and an observer, which follows the session of `shell` and gets
/// the name of a file that no session begins with.
#[derive(Drop)]
pub struct ObservedProgram<'l, L: Observer> {
    pub alloc: Global,
    pub observer: &'l mut L,
}

impl<'l, L: Observer> ObservedProgram<'l, L> {
    /// Does what the arguments ask for on a console from which nothing was read yet and whose output
    /// has not failed, and returns the exit status, in the same way with every observer. Status 0 is
    /// returned only if all that was printed was delivered, and the line of a fault, a tool's status
    /// line and what is wrong with the arguments are written whole unless writing them fails.
    pub fn run<R: Read, W: Write, F: Write, H: Host>(
        self,
        arguments: &[&str],
        console: &mut Console<'_, R, W, F>,
        host: &mut H,
    ) -> u8
        requires fresh { IsFresh console.old }
        ensures same { SameStreams console.old console.new }
        ensures status { result ≤ 2 }
        ensures delivered { result ≡ 0 → IsDelivered console.new.outputs.output }
        ensures ended { Ended (map (λ argument. argument.now) arguments.now)
            (outside_at R.remaining W.contents F.contents console.old (H.state host.old))
            (outside_at R.remaining W.contents F.contents console.new (H.state host.new)) result }
        ensures silent { (AsksToPassOver (map (λ argument. argument.now) arguments.now) → ⊥) → result ≡ 0 → console.new.outputs.faults ≡ console.old.outputs.faults }
        ensures script { AsksForShell (map (λ argument. argument.now) arguments.now) → result ≢ 2 → console.new.outputs.faults ≡ console.old.outputs.faults }
    {
        match requested_job(self.alloc, arguments) {
            Ok(job) => self.do_job(job, console, host),
            Err(fault) => report_no_job(self.alloc, fault, &mut console.outputs),
        }
    }

    /// Does a job, and returns the exit status.
    fn do_job<R: Read, W: Write, F: Write, H: Host>(
        self,
        job: Job,
        console: &mut Console<'_, R, W, F>,
        host: &mut H,
    ) -> u8
        requires fresh { IsFresh console.old }
        ensures same { SameStreams console.old console.new }
        ensures ended { EndedWork (work_of job)
            (outside_at R.remaining W.contents F.contents console.old (H.state host.old))
            (outside_at R.remaining W.contents F.contents console.new (H.state host.new)) result }
        ensures status { result ≤ 2 }
        ensures delivered { result ≡ 0 → IsDelivered console.new.outputs.output }
        ensures silent { (PassesOver (work_of job) → ⊥) → result ≡ 0 → console.new.outputs.faults ≡ console.old.outputs.faults }
        ensures script { IsScript (work_of job) → result ≢ 2 → console.new.outputs.faults ≡ console.old.outputs.faults }
    {
        let alloc = self.alloc;
        match job {
            Job::Shell {
                image,
                tracks,
                resume,
                lines,
                stops_at_refusal,
            } => {
                let job = ShellJob {
                    image: image.as_deref(),
                    disk: BlankDisk::of(tracks),
                    resume: resume.as_deref(),
                    lines: lines.as_slice(),
                    refusals: refusals_of(stops_at_refusal),
                };
                self.run_script(job, console, host)
            }
            Job::Petcat { file, output } => {
                self.run_tool(Tool::Petcat, file, output, console, host)
            }
            Job::Crunch {
                start,
                file,
                output,
            } => self.run_tool(Tool::Crunch { start }, file, output, console, host),
            Job::Check {
                digest,
                format,
                names,
            } => check_disks(alloc, digest, format, names, console, host),
            Job::Files {
                leftovers,
                format,
                names,
            } => print_files(alloc, Form { format, leftovers }, names, console, host),
            Job::Extract {
                extraction,
                leftovers,
                format,
                names,
            } => {
                let form = Form { format, leftovers };
                extract_files(alloc, extraction, form, names, console, host)
            }
            Job::Map { format, file } => draw_map(alloc, format, file, console, host),
            Job::Catalogue { page, names } => make_catalogue(alloc, page, names, console, host),
            Job::Diff { format, old, new } => {
                compare_files(alloc, format, old, new, console, host)
            }
            Job::Merge {
                merging,
                format,
                files,
            } => merge_files(alloc, merging, format, files, console, host),
        }
    }

    /// Runs a script, and returns the exit status.
    fn run_script<R: Read, W: Write, F: Write, H: Host>(
        self,
        job: ShellJob<'_>,
        console: &mut Console<'_, R, W, F>,
        host: &mut H,
    ) -> u8
        requires fresh { IsFresh console.old }
        ensures same { SameStreams console.old console.new }
        ensures ended { EndedShell (beginning_in job.entry) (source_in job.entry) (options_in job.entry)
            (outside_at R.remaining W.contents F.contents console.old (H.state host.old))
            (outside_at R.remaining W.contents F.contents console.new (H.state host.new)) result }
        ensures status { result ≤ 2 }
        ensures delivered { result ≡ 0 → IsDelivered console.new.outputs.output }
        ensures silent { result ≢ 2 → console.new.outputs.faults ≡ console.old.outputs.faults }
    {
        match job.run(self.alloc, console, host, self.observer) {
            Ok(outcome) => exit_status(outcome),
            Err(fault) => fault.report_on(&mut console.outputs.faults),
        }
    }

    /// Runs a tool on the input or on a file, to the output or to another file, and returns the
    /// exit status. If the tool has not run, the observer gets the name of the file: that may be
    /// what cannot be read.
    fn run_tool<R: Read, W: Write, F: Write, H: Host>(
        self,
        tool: Tool,
        file: Option<String>,
        target: Option<String>,
        console: &mut Console<'_, R, W, F>,
        host: &mut H,
    ) -> u8
        requires fresh { IsFresh console.old }
        ensures same { SameStreams console.old console.new }
        ensures ended { EndedConversion tool (option_map string_bytes file) (option_map string_bytes target)
            (outside_at R.remaining W.contents F.contents console.old (H.state host.old))
            (outside_at R.remaining W.contents F.contents console.new (H.state host.new)) result }
        ensures status { result ≤ 2 }
        ensures delivered { result ≡ 0 → IsDelivered console.new.outputs.output }
        ensures silent { result ≡ 0 → console.new.outputs.faults ≡ console.old.outputs.faults }
    {
        let ObservedProgram { alloc, observer } = self;
        let job = ToolJob {
            tool,
            file: file.as_deref(),
            target: target.as_deref(),
        };
        let status = job.run(alloc, console, host);
        if status == NOT_RUN {
            if let Some(name) = job.file {
                observer.miss(name, Err(HostFault::Device));
            }
        }
        status
    }
}
