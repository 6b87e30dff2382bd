//! A script, from its bytes to the bytes of its output, line by line.
ghost use Rattle.std.specs.Prelude.{◌≡◌, ◌≤◌, ◌<◌, ◌^◌, ◌+◌, [], true, false, ℕ, List, length, Some, Err, MatchResult, OnOk, OnErr};
ghost use Rattle.std.specs.Io.KnownBytes.{Appends, Keeps};
ghost use Rattle.script_text.specs.HeldLine.{HoldsText};
ghost use Rattle.host_storage.specs.Input.{IsUnread, reading_of, input_limit};
ghost use Rattle.host_storage.specs.Output.{AppendsPart, FailsWith};
ghost use Rattle.d64_history.specs.History.{present_image};
ghost use Rattle.script_lines.specs.Act.{printed_bytes, world_of};
ghost use Rattle.script_lines.specs.Response.{shown_response};
ghost use Rattle.cmd_shell.specs.Runner.{EndsStreams, Ran, options_of, script_state};
ghost use Rattle.cmd_shell.specs.Transcript.{going_on, home_of};
ghost use Rattle.cmd_shell.specs.LineByLine.{EndsRun, HasRun, KeepsRun, RunsLine, StopsInLine, line_count_of, state_of};

use crate::run_options::{RunOptions, ends_script, home_of};
use d64_undo::Session;
use host_storage::{Host, InputStream, OutputStream, WriteFault};
use script_commands::{Nobody, Observer, Refusals, execute_line};
use script_lines::{Response, Status};
use script_text::held_line::HeldLine;
use script_text::part_handler::PartHandler;
use script_text::parts::{CutShort, cut_text, read_parts};
use std::alloc::{AllocError, Global};
use std::io::{Read, Write};
use std::ops::ControlFlow;
use thiserror::Error;

/// How many lines of a script were accepted and refused. Skipped lines count as neither.
#[derive(Clone, Copy, Debug, PartialEq, Eq)]
pub struct Outcome {
    pub accepted: u64,
    pub refused: u64,
}

/// Why a script did not run to its end.
#[derive(Clone, Copy, Debug, PartialEq, Eq, Error)]
pub enum ShellFault {
    /// A read failed, or the script has more than 16,777,216 bytes or takes more than 1,000,000
    /// reads. All lines that were ended before have run, and no other.
    #[error("the script cannot be read to its end")]
    Read,
    /// A write failed, or wrote nothing. A part of the output was written.
    #[error("the output cannot be written")]
    Write,
    /// There is no memory. It never comes, since reading allocates nothing, and a command that
    /// finds no memory prints that as its status.
    #[error("out of memory")]
    Memory(AllocError),
}

/// How far a run has come: its counts, and whether it was ended by an accepted `quit` or a refused
/// line.
#[derive(Clone, Copy)]
struct Tally {
    outcome: Outcome,
    closed: bool,
}

impl Tally {
    ghost use Rattle.std.specs.Prelude.{if◌then◌else◌, ◌||◌};
    ghost use Rattle.script_lines.specs.Status.{is_accepted};
    ghost use Rattle.cmd_shell.specs.Transcript.{ends_script};

    /// The counts before the first line.
    fn new() -> Tally
        ensures { result ≡ record { outcome = record { accepted = 0; refused = 0 }; closed = false } }
    {
        Tally {
            outcome: Outcome {
                accepted: 0,
                refused: 0,
            },
            closed: false,
        }
    }

    /// Counts a line with this response.
    fn count(&mut self, response: &Response, refusals: Refusals)
        requires { self.old.outcome.accepted + self.old.outcome.refused < 2 ^ 63 }
        ensures accepted { self.new.outcome.accepted ≡ self.old.outcome.accepted + (if is_accepted response.now.status then 1 else 0) }
        ensures refused { self.new.outcome.refused ≡ self.old.outcome.refused + (if is_accepted response.now.status then 0 else 1) }
        ensures closed { self.new.closed ≡ (response.now.closes || ends_script refusals response.now.status) }
    {
        if response.status.is_accepted() {
            self.outcome.accepted += 1;
        } else {
            self.outcome.refused += 1;
        }
        self.closed = response.closes || ends_script(refusals, &response.status);
    }
}

/// A run of a script: how far it has come, and what it was lent.
#[derive(Drop)]
struct LineRunner<'n, 'l, 'o, 'w, 'h, 's, L, W: Write, H> {
    alloc: Global,
    options: &'n RunOptions<'n>,
    observer: &'l mut L,
    output: &'o mut OutputStream<'w, W>,
    host: &'h mut H,
    session: &'s mut Session,
    line: HeldLine,
    tally: Tally,
}

/// Runs a script. `home` is the name of the host file in which `save` stores by default, or empty.
///
/// It prints what the transcript says, however the script is cut into reads. Before the next read,
/// what a line prints is written and flushed, so that a person at a terminal sees it before typing
/// on. After an accepted `quit` nothing more is read. Reading allocates nothing: only one line and
/// the bytes of one read are held.
pub fn run<R: Read, W: Write, H: Host>(
    alloc: Global,
    reader: &mut R,
    writer: &mut W,
    host: &mut H,
    home: &str,
    session: &mut Session,
) -> Result<Outcome, ShellFault>
    ensures { Ran (going_on (home_of home.now)) (R.remaining reader.old) (R.remaining reader.new)
        (script_state (W.contents writer.old) (world_of (H.state host.old) session.old))
        (script_state (W.contents writer.new) (world_of (H.state host.new) session.new))
        result }
{
    let mut input = InputStream::new(reader);
    let mut output = OutputStream::new(writer);
    let mut nobody = Nobody;
    let runner = ScriptRunner {
        alloc,
        options: RunOptions {
            home: home_of(home),
            refusals: Refusals::GoOn,
        },
        observer: &mut nobody,
    };
    runner.run(&mut input, &mut output, host, session)
}

/// What runs a script: memory, how the script is run, and the observer.
#[derive(Drop)]
pub struct ScriptRunner<'n, 'l, L: Observer> {
    pub alloc: Global,
    pub options: RunOptions<'n>,
    pub observer: &'l mut L,
}

impl<'n, 'l, L: Observer> ScriptRunner<'n, 'l, L> {
    /// Runs the script of an input of which nothing was read, and prints to an output that has not
    /// failed.
    ///
    /// `Read` comes if a read failed or a limit was reached, and `Write` if a write or a flush
    /// failed. No read is made while something printed is not delivered, nor after a call that
    /// failed, an accepted `quit`, or a refused line that ends the script. All this is the same
    /// with every observer, which is called before each read, after each line that has run or was
    /// skipped, and at the script's end.
    pub fn run<R: Read, W: Write, H: Host>(
        self,
        input: &mut InputStream<'_, R>,
        output: &mut OutputStream<'_, W>,
        host: &mut H,
        session: &mut Session,
    ) -> Result<Outcome, ShellFault>
        requires unread { IsUnread (reading_of input.old.reads input.old.came input.old.has_failed) }
        requires unfailed { output.old.has_failed ≡ false }
        requires delivered { output.old.is_delivered ≡ true }
        ensures input { input.new.reader.ghost_name ≡ input.old.reader.ghost_name }
        ensures output { output.new.writer.ghost_name ≡ output.old.writer.ghost_name }
        ensures ran { Ran (options_of self.entry.options) (R.remaining input.old.reader.now) (R.remaining input.new.reader.now)
            (script_state (W.contents output.old.writer.now) (world_of (H.state host.old) session.old))
            (script_state (W.contents output.new.writer.now) (world_of (H.state host.new) session.new))
            result }
        ensures streams { EndsStreams result (reading_of input.new.reads input.new.came input.new.has_failed) output.new.has_failed }
    {
        let ScriptRunner {
            alloc,
            options,
            observer,
        } = self;
        let mut runner = LineRunner {
            alloc,
            options: &options,
            observer,
            output,
            host,
            session,
            line: HeldLine::new(),
            tally: Tally::new(),
        };
        runner.read(input)
    }

    /// Runs this text as a script, and prints to an output that has not failed.
    ///
    /// No read is made. `Read` comes only if the text is longer than a script may be, after the
    /// lines that end within that length; `Write` only if a write or a flush failed.
    pub fn run_text<W: Write, H: Host>(
        self,
        text: &[u8],
        output: &mut OutputStream<'_, W>,
        host: &mut H,
        session: &mut Session,
    ) -> Result<Outcome, ShellFault>
        requires unfailed { output.old.has_failed ≡ false }
        ensures output { output.new.writer.ghost_name ≡ output.old.writer.ghost_name }
        ensures ran { Ran (options_of self.entry.options) (Some text.now) (Some [])
            (script_state (W.contents output.old.writer.now) (world_of (H.state host.old) session.old))
            (script_state (W.contents output.new.writer.now) (world_of (H.state host.new) session.new))
            result }
        ensures written { OnOk result (output.new.has_failed ≡ false) }
        ensures failed { result ≡ Err ShellFault.Write → output.new.has_failed ≡ true }
        ensures long { result ≡ Err ShellFault.Read → input_limit < length text.now }
    {
        let ScriptRunner {
            alloc,
            options,
            observer,
        } = self;
        let mut runner = LineRunner {
            alloc,
            options: &options,
            observer,
            output,
            host,
            session,
            line: HeldLine::new(),
            tally: Tally::new(),
        };
        runner.cut(text)
    }
}

/// Delivers what was printed, if something was printed since the last time.
fn deliver<W: Write>(output: &mut OutputStream<'_, W>) -> Result<(), WriteFault>
    ensures same { output.new.writer.ghost_name ≡ output.old.writer.ghost_name }
    ensures kept { Keeps (W.contents output.old.writer.now) (W.contents output.new.writer.now) }
    ensures all { OnOk result (output.new.is_delivered ≡ true) }
    ensures some { OnErr result (output.old.is_delivered ≡ false) }
    ensures failed { FailsWith result output.old.has_failed output.new.has_failed }
{
    if output.is_delivered() {
        return Ok(());
    }
    output.flush()
}

/// Writes the response to a line that left this session, and calls the observer, after a delivery
/// if the observer needs it.
fn write_response<L: Observer, W: Write>(
    observer: &mut L,
    home: Option<&str>,
    line: &HeldLine,
    response: &Response,
    output: &mut OutputStream<'_, W>,
    session: &Session,
) -> Result<(), WriteFault>
    ensures same { output.new.writer.ghost_name ≡ output.old.writer.ghost_name }
    ensures ok { OnOk result (Appends (W.contents output.old.writer.now) (W.contents output.new.writer.now) (printed_bytes (shown_response (present_image session.now) response.now))) }
    ensures err { OnErr result (AppendsPart (W.contents output.old.writer.now) (W.contents output.new.writer.now) (printed_bytes (shown_response (present_image session.now) response.now))) }
    ensures failed { FailsWith result output.old.has_failed output.new.has_failed }
{
    response.write(output, session.image())?;
    if observer.needs_delivery(&response.status) {
        deliver(output)?;
    }
    observer.observe(home, line, &response.status, session);
    Ok(())
}

impl<'n, 'l, 'o, 'w, 'h, 's, L: Observer, W: Write, H: Host> LineRunner<
    'n,
    'l,
    'o,
    'w,
    'h,
    's,
    L,
    W,
    H,
> {
    /// Runs the script of an input of which nothing was read.
    fn read<R: Read>(&mut self, input: &mut InputStream<'_, R>) -> Result<Outcome, ShellFault>
        requires unread { IsUnread (reading_of input.old.reads input.old.came input.old.has_failed) }
        requires delivered { self.old.output.now.is_delivered ≡ true }
        requires begun { HasRun W.contents H.state self.old self.old [] [] }
        requires few { line_count_of self.old ≡ 0 }
        ensures input { input.new.reader.ghost_name ≡ input.old.reader.ghost_name }
        ensures kept { KeepsRun self.old self.new }
        ensures ran { Ran (options_of self.old.options.now) (R.remaining input.old.reader.now) (R.remaining input.new.reader.now)
            (state_of W.contents H.state self.old) (state_of W.contents H.state self.new) result }
        ensures streams { EndsStreams result (reading_of input.new.reads input.new.came input.new.has_failed) self.new.output.now.has_failed }
    {
        match read_parts(input, b'\n', self) {
            Ok(ended) => ended,
            Err(CutShort) => Err(ShellFault::Read),
        }
    }

    /// Runs this text as a script, up to the most bytes that a script has.
    fn cut(&mut self, text: &[u8]) -> Result<Outcome, ShellFault>
        requires begun { HasRun W.contents H.state self.old self.old [] [] }
        requires few { line_count_of self.old ≡ 0 }
        ensures kept { KeepsRun self.old self.new }
        ensures ran { Ran (options_of self.old.options.now) (Some text.now) (Some [])
            (state_of W.contents H.state self.old) (state_of W.contents H.state self.new) result }
        ensures written { OnOk result (self.new.output.now.has_failed ≡ false) }
        ensures failed { result ≡ Err ShellFault.Write → self.new.output.now.has_failed ≡ true }
        ensures long { result ≡ Err ShellFault.Read → input_limit < length text.now }
    {
        match cut_text(text, b'\n', self) {
            Ok(ended) => ended,
            Err(CutShort) => Err(ShellFault::Read),
        }
    }

    /// Runs the line that is held, which was read to its end, and writes its response.
    fn run_line(&mut self) -> Result<(), WriteFault>
        requires few { line_count_of self.old < 2 ^ 63 }
        ensures kept { KeepsRun self.old self.new }
        ensures failed { FailsWith result self.old.output.now.has_failed self.new.output.now.has_failed }
        ensures count { (line_count_of self.old ≤ line_count_of self.new) × (line_count_of self.new ≤ line_count_of self.old + 1) }
        ensures observed { self.new.output.now.is_delivered ≡ false → self.old.output.now.is_delivered ≡ true → 0 < line_count_of self.new }
        ensures ran { (raw : List ℕ) → HoldsText self.old.line raw → self.old.tally.closed ≡ false → MatchResult result
            (λ _. RunsLine (options_of self.old.options.now) raw (state_of W.contents H.state self.old) (state_of W.contents H.state self.new) self.old.tally self.new.tally)
            (λ _. StopsInLine (options_of self.old.options.now) raw (state_of W.contents H.state self.old) (state_of W.contents H.state self.new) self.old.tally) }
    {
        let home = self.options.home;
        let Some(response) = execute_line(self.alloc, self.host, home, self.session, &self.line)
        else {
            self.observer.skip();
            return Ok(());
        };
        self.tally.count(&response, self.options.refusals);
        write_response(
            self.observer,
            home,
            &self.line,
            &response,
            self.output,
            self.session,
        )
    }
}

impl<'n, 'l, 'o, 'w, 'h, 's, L: Observer, W: Write, H: Host> PartHandler
    for LineRunner<'n, 'l, 'o, 'w, 'h, 's, L, W, H> {
    type End = Result<Outcome, ShellFault>;

    type Writer = W;

    ghost separator = { λ run. 10 };

    ghost count = { line_count_of };

    ghost has_come = { HasRun W.contents H.state };

    ghost has_ended = { EndsRun W.contents H.state };

    ghost is_delivered = { λ run. run.output.now.is_delivered ≡ true };

    fn prepare(&mut self) -> ControlFlow<Result<Outcome, ShellFault>> {
        match deliver(self.output) {
            Ok(()) => {
                self.observer.wait(self.session.image());
                ControlFlow::Continue(())
            }
            Err(_) => ControlFlow::Break(Err(ShellFault::Write)),
        }
    }

    fn output(&self) -> &OutputStream<'_, W> {
        self.output
    }

    fn push(&mut self, bytes: &[u8]) {
        self.line.push(bytes);
        self.observer.take(bytes);
    }

    fn end_part(&mut self) -> ControlFlow<Result<Outcome, ShellFault>> {
        self.line.end_with_line_feed();
        match self.run_line() {
            Ok(()) => {}
            Err(_) => return ControlFlow::Break(Err(ShellFault::Write)),
        }
        if self.tally.closed {
            return ControlFlow::Break(Ok(self.tally.outcome));
        }
        self.line.clear();
        ControlFlow::Continue(())
    }

    fn end_input(&mut self) -> Result<Outcome, ShellFault> {
        self.observer.reach_end();
        if self.line.is_empty() {
            return Ok(self.tally.outcome);
        }
        match self.run_line() {
            Ok(()) => Ok(self.tally.outcome),
            Err(_) => Err(ShellFault::Write),
        }
    }
}
