//! The shell's job: a script on the image of a file, on a blank one, or on a session that was kept.
ghost use Rattle.std.specs.Prelude.{◌≡◌, ◌==◌, ℕ, List, Result, Ok, Err, None, IfOk, IfErr, OnOk, length, map, not, option_copied, option_map, string_bytes, true, false};
ghost use Rattle.std.specs.Option.{option_or};
ghost use Rattle.host_storage.specs.declared.host.HostFault.{HostFault};
ghost use Rattle.d64_image.specs.Image.{IsImage, bytes_of};
ghost use Rattle.d64_history.specs.SessionFile.{IsSession, file_of};
ghost use Rattle.host_storage.specs.Input.{reading_of, input_limit};
ghost use Rattle.script_lines.specs.Act.{FetchesFile, world_of};
ghost use Rattle.cmd_shell.specs.Runner.{options_of, script_state};
ghost use Rattle.cmd_shell.specs.Beginnings.{Given, beginning_of, refusals_of, source_by, source_of, text_of_lines};
ghost use Rattle.cmd_shell.specs.Scripts.{beginning_in, options_in, source_in};
ghost use Rattle.cmd_shell.specs.ShellRuns.{IsDue, IsFirstHistory, IsReadDue, HasNoHistory, GivesNoImage, GivesNoSession, RanFrom, RanShell, StoppedBy, session_limit, outcome_status};
ghost use Rattle.program_console.specs.Console.{IsDelivered, IsFresh, SameStreams};
ghost use Rattle.program_console.specs.Outside.{outside_at};

use crate::blank_disk::BlankDisk;
use crate::faults::{fault_of_image, fault_of_resume, fault_of_run};
use crate::run_options::{RunOptions, home_of};
use crate::runner::{Outcome, ScriptRunner, ShellFault};
use d64_image::{Image, ImageFault};
use d64_undo::{ReadNote, Session, SessionReadFault, resume_from};
use host_storage::{Host, HostFault, INPUT_BYTES};
use program_console::{ALL_ACCEPTED, Console, ProgramFault, SOME_REFUSED};
use script_commands::{Observer, Opening, Refusals};
use script_lines::host_file::fetch;
use std::alloc::{AllocError, Global};
use std::io::{Read, Write};

/// The most bytes of a session file that are read.
const SESSION_BYTES: u32 = 67_108_864;

/// What the arguments ask of the shell.
#[derive(Clone, Copy)]
pub struct ShellJob<'n> {
    /// The image file on which the script runs, and to which `save` stores by default.
    pub image: Option<&'n str>,
    /// The blank disk on which it runs without one.
    pub disk: BlankDisk,
    /// The session file whose session it continues instead.
    pub resume: Option<&'n str>,
    /// The lines of the script; if there are none, the script is the input.
    pub lines: &'n [String],
    pub refusals: Refusals,
}

impl<'n> ShellJob<'n> {
    /// Runs the script on its session, and then flushes the output. If the arguments give the
    /// script, nothing of the input is read. The run is the same with every observer, which follows
    /// the session's begin and end, too.
    pub fn run<R: Read, W: Write, F: Write, H: Host, L: Observer>(
        self,
        alloc: Global,
        console: &mut Console<'_, R, W, F>,
        host: &mut H,
        observer: &mut L,
    ) -> Result<Outcome, ProgramFault>
        requires fresh { IsFresh console.old }
        ensures same { SameStreams console.old console.new }
        ensures silent { console.new.outputs.faults ≡ console.old.outputs.faults }
        ensures delivered { OnOk result (IsDelivered console.new.outputs.output) }
        ensures ran { IfOk result (λ outcome. RanShell (beginning_in self.entry) (source_in self.entry) (options_in self.entry)
            (outside_at R.remaining W.contents F.contents console.old (H.state host.old))
            (outside_at R.remaining W.contents F.contents console.new (H.state host.new)) (Ok outcome)) }
        ensures stopped { IfErr result (λ fault. StoppedBy fault (beginning_in self.entry) (source_in self.entry) (options_in self.entry)
            (outside_at R.remaining W.contents F.contents console.old (H.state host.old))
            (outside_at R.remaining W.contents F.contents console.new (H.state host.new))) }
        ensures due { IfErr result (λ fault. IsDue fault (source_in self.entry)
            (outside_at R.remaining W.contents F.contents console.new (H.state host.new))) }
    {
        let text = given_text(alloc, self.lines)?;
        let mut session = first_session(alloc, host, self.image, self.disk, self.resume, observer)?;
        observer.begin(&self.opening(), &session);
        let script = GivenScript {
            alloc,
            text: text.as_deref(),
            options: RunOptions {
                home: self.home(),
                refusals: self.refusals,
            },
        };
        let ran = script.run(console, host, &mut session, observer);
        observer.end(self.home(), &session);
        match console.outputs.output.flush() {
            Ok(()) => match ran {
                Ok(outcome) => Ok(outcome),
                Err(fault) => Err(fault_of_run(fault)),
            },
            Err(_) => Err(ProgramFault::Write),
        }
    }
}

impl<'n> ShellJob<'n> {
    /// Returns the name of the host file in which `save` stores by default, if there is one.
    fn home(&self) -> Option<&'n str>
        ensures { option_copied result ≡ (options_in self.now).home }
    {
        match self.image {
            Some(name) => home_of(name),
            None => None,
        }
    }

    /// Returns what the observer gets at the session's begin.
    fn opening(&self) -> Opening<'n>
        ensures home { option_copied result.home ≡ (options_in self.now).home }
        ensures held_in { option_copied result.held_in ≡ option_or (option_copied self.now.resume) (option_copied self.now.image) }
        ensures given { result.is_given ≡ not (length self.now.lines.now == 0) }
        ensures refusals { result.refusals ≡ self.now.refusals }
    {
        Opening {
            home: self.home(),
            held_in: self.resume.or(self.image),
            is_given: !self.lines.is_empty(),
            refusals: self.refusals,
        }
    }
}

/// Returns the text of the lines, each with a line feed after it, or None if there are no lines.
fn given_text(alloc: Global, lines: &[String]) -> Result<Option<Vec<u8>>, AllocError>
    ensures text { IfOk result (λ text. source_by (option_map (λ bytes. bytes.items) text) ≡ source_of (map string_bytes lines.now)) }
    ensures none { IfErr result (λ _. source_of (map string_bytes lines.now) ≡ Given (text_of_lines (map string_bytes lines.now))) }
{
    if lines.is_empty() {
        return Ok(None);
    }
    Ok(Some(text_of_lines(alloc, lines)?))
}

/// Returns the text of the lines, each with a line feed after it.
fn text_of_lines(alloc: Global, lines: &[String]) -> Result<Vec<u8>, AllocError>
    ensures { IfOk result (λ text. text.items ≡ text_of_lines (map string_bytes lines.now)) }
{
    let mut text = Vec::new(alloc);
    for line in lines {
        text.extend_from_slice(line.as_bytes())?;
        text.push(b'\n')?;
    }
    Ok(text)
}

/// A script, and how it is run.
#[derive(Clone, Copy)]
struct GivenScript<'n> {
    alloc: Global,
    /// Its text; without one, the script is the input.
    text: Option<&'n [u8]>,
    options: RunOptions<'n>,
}

impl<'n> GivenScript<'n> {
    /// Runs the script on a session. If it has a text, nothing of the input is read.
    fn run<R: Read, W: Write, F: Write, H: Host, L: Observer>(
        self,
        console: &mut Console<'_, R, W, F>,
        host: &mut H,
        session: &mut Session,
        observer: &mut L,
    ) -> Result<Outcome, ShellFault>
        requires fresh { IsFresh console.old }
        ensures same { SameStreams console.old console.new }
        ensures silent { console.new.outputs.faults ≡ console.old.outputs.faults }
        ensures ran { RanFrom (source_by (option_copied self.entry.text)) (options_of self.entry.options) (R.remaining console.old.input.reader.now) (R.remaining console.new.input.reader.now)
            (script_state (W.contents console.old.outputs.output.writer.now) (world_of (H.state host.old) session.old))
            (script_state (W.contents console.new.outputs.output.writer.now) (world_of (H.state host.new) session.new))
            result }
        ensures unfailed { OnOk result (console.new.outputs.output.has_failed ≡ false) }
        ensures due { result ≡ Err ShellFault.Read → IsReadDue (source_by (option_copied self.entry.text)) (reading_of console.new.input.reads console.new.input.came console.new.input.has_failed) }
        ensures failed { result ≡ Err ShellFault.Write → console.new.outputs.output.has_failed ≡ true }
    {
        let runner = ScriptRunner {
            alloc: self.alloc,
            options: self.options,
            observer,
        };
        let Some(text) = self.text else {
            return runner.run(
                &mut console.input,
                &mut console.outputs.output,
                host,
                session,
            );
        };
        runner.run_text(text, &mut console.outputs.output, host, session)
    }
}

/// Returns the session that the script runs on: of a session file, of an image file, or of a blank
/// disk. The observer gets the file that gives none.
fn first_session<H: Host, L: Observer>(
    alloc: Global,
    host: &mut H,
    image: Option<&str>,
    disk: BlankDisk,
    resume: Option<&str>,
    observer: &mut L,
) -> Result<Session, ProgramFault>
    ensures session { IfOk result (λ session. IsFirstHistory
        (H.state host.old)
        (beginning_of (option_copied image.entry) disk (option_copied resume.entry)) session
        (H.state host.new)) }
    ensures none { IfErr result (λ fault. HasNoHistory fault
        (H.state host.old)
        (beginning_of (option_copied image.entry) disk (option_copied resume.entry))
        (H.state host.new)) }
{
    if let Some(name) = resume {
        return session_of_file(alloc, host, name, observer);
    }
    match image {
        Some(name) => Ok(Session::new(alloc, image_of_file(alloc, host, name, observer)?)),
        None => Ok(Session::new(alloc, disk.image(alloc)?)),
    }
}

/// Returns the session of a host file.
fn session_of_file<H: Host, L: Observer>(
    alloc: Global,
    host: &mut H,
    name: &str,
    observer: &mut L,
) -> Result<Session, ProgramFault>
    ensures session { IfOk result (λ session. IsSession session × FetchesFile
        (H.state host.old)
        name.now session_limit (Ok (file_of session))
        (H.state host.new)) }
    ensures none { IfErr result (λ fault. (fetched : Result (List ℕ) HostFault) × FetchesFile
        (H.state host.old)
        name.now session_limit fetched
        (H.state host.new)
        × GivesNoSession fetched fault) }
{
    let mut file = match host.open(name) {
        Ok(file) => file,
        Err(fault) => {
            observer.miss(name, Err(fault));
            return Err(ProgramFault::of_file(fault, ProgramFault::UnreadableSession));
        }
    };
    match resume_from(alloc, &mut file, &mut ReadNote::new(), SESSION_BYTES) {
        Ok(session) => Ok(session),
        Err(SessionReadFault::Resume(fault)) => Err(fault_of_resume(fault)),
        Err(SessionReadFault::TooLong) => Err(ProgramFault::UnreadableSession),
        Err(SessionReadFault::Device) => {
            observer.miss(name, Err(HostFault::Device));
            host.count_failed_read();
            Err(ProgramFault::UnreadableSession)
        }
    }
}

/// Returns the image of a host file.
fn image_of_file<H: Host, L: Observer>(
    alloc: Global,
    host: &mut H,
    name: &str,
    observer: &mut L,
) -> Result<Image, ProgramFault>
    ensures image { IfOk result (λ image. IsImage image × FetchesFile
        (H.state host.old)
        name.now input_limit (Ok (bytes_of image))
        (H.state host.new)) }
    ensures none { IfErr result (λ fault. (fetched : Result (List ℕ) HostFault) × FetchesFile
        (H.state host.old)
        name.now input_limit fetched
        (H.state host.new)
        × GivesNoImage fetched fault) }
{
    match fetch(alloc, host, name, INPUT_BYTES) {
        Ok(bytes) => image_of_bytes(alloc, name, bytes.as_slice(), observer),
        Err(fault) => {
            observer.miss(name, Err(fault));
            Err(ProgramFault::of_file(fault, ProgramFault::UnreadableImage))
        }
    }
}

/// Returns the image of the bytes of the host file with this name.
fn image_of_bytes<L: Observer>(
    alloc: Global,
    name: &str,
    bytes: &[u8],
    observer: &mut L,
) -> Result<Image, ProgramFault>
    ensures image { IfOk result (λ image. IsImage image × (bytes_of image ≡ bytes.now)) }
    ensures none { IfErr result (λ fault. GivesNoImage (Ok bytes.now) fault) }
{
    match Image::from_bytes(alloc, bytes) {
        Ok(image) => Ok(image),
        Err(fault) => {
            if let ImageFault::WrongLength(_) = fault {
                observer.miss(name, Ok(bytes));
            }
            Err(fault_of_image(fault))
        }
    }
}

/// Returns what a refused line does.
pub fn refusals_of(stops: bool) -> Refusals
    ensures { result ≡ refusals_of stops }
{
    if stops {
        Refusals::Stop
    } else {
        Refusals::GoOn
    }
}

/// Returns the exit status of a script that ran to its end.
pub fn exit_status(outcome: Outcome) -> u8
    ensures { result ≡ outcome_status outcome }
{
    if outcome.refused == 0 {
        ALL_ACCEPTED
    } else {
        SOME_REFUSED
    }
}
