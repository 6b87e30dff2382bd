//! Calls of the shell: what they are given, and the expected results.

use d64_shell::{Outcome, ShellFault};
use test_cases::{Mark, Place, Run, RunOptions, Script, WhenFull};

/// How a call ended.
#[derive(Clone, Copy, Debug, PartialEq, Eq)]
pub enum Ending {
    Counted(Outcome),
    ReadFault,
    WriteFault,
    OutOfMemory,
    /// The exit status of the program.
    Status(u8),
}

impl From<Result<Outcome, ShellFault>> for Ending {
    fn from(outcome: Result<Outcome, ShellFault>) -> Ending {
        match outcome {
            Ok(outcome) => Ending::Counted(outcome),
            Err(ShellFault::Read) => Ending::ReadFault,
            Err(ShellFault::Write) => Ending::WriteFault,
            Err(ShellFault::Memory(_)) => Ending::OutOfMemory,
        }
    }
}

/// A call of `run`, or of `program` if it has arguments.
#[derive(Clone, Copy)]
pub struct Call<'a> {
    pub arguments: Option<&'a [String]>,
    /// The bytes that the reader gives, how many at most a read, and whether it then fails.
    pub given: &'a [u8],
    pub at_most: usize,
    pub reader_fails: bool,
    /// The number of bytes that the writer takes, and what it does then.
    pub limit: usize,
    pub when_full: WhenFull,
    pub fails_at_flush: bool,
    pub faults_limit: usize,
    /// The expected output.
    pub responses: &'a [u8],
    pub faults: &'a [u8],
    pub ending: Ending,
}

impl<'a> Call<'a> {
    /// Returns the first call of a run. A stream that fails anywhere fails after `place` bytes.
    pub fn first(run: &'a Run, at_most: usize, place: usize) -> Call<'a> {
        let call = Call::whole(run, at_most);
        if let Some(came) = bytes_before(run.options.reader_fails, place) {
            return call.with_failing_reader(&run.script, came);
        }
        match bytes_before(run.options.writer_stops, place) {
            Some(limit) => call.with_full_writer(limit),
            None => call,
        }
    }

    /// Returns the call on what a first call left of the script, if it left some.
    pub fn second(run: &'a Run, at_most: usize, place: usize) -> Option<Call<'a>> {
        let mark = stopped_at(run, place)?;
        if run.options.arguments.is_some() || run.script.is_closed(mark) {
            return None;
        }
        let call = Call::whole(run, at_most);
        let responses = from(call.responses, mark.responses);
        Some(Call {
            given: from(call.given, mark.script),
            responses,
            ending: Ending::Counted(counts_of(responses)),
            ..call
        })
    }

    /// Returns the call on a whole script, on streams that do not fail.
    fn whole(run: &'a Run, at_most: usize) -> Call<'a> {
        let options = &run.options;
        let responses = run.script.responses.as_bytes();
        Call {
            arguments: options
                .arguments
                .as_ref()
                .map(|arguments| arguments.as_slice()),
            given: run.script.bytes.as_slice(),
            at_most: options.at_most.unwrap_or(at_most),
            reader_fails: false,
            limit: usize::MAX,
            when_full: options.when_full,
            fails_at_flush: options.fails_at_flush,
            faults_limit: options.faults_limit.unwrap_or(usize::MAX),
            responses,
            faults: options.faults.as_bytes(),
            ending: ending_of(options, responses),
        }
    }

    /// Returns this call with a reader that gives `came` bytes and then fails: the lines that are
    /// ended by then are run.
    fn with_failing_reader(self, script: &Script, came: usize) -> Call<'a> {
        let mark = script.ended_by(came);
        let responses = up_to(self.responses, mark.responses);
        let ending = match self.ending {
            Ending::Counted(_) if script.is_closed(mark) => Ending::Counted(counts_of(responses)),
            Ending::Counted(_) => Ending::ReadFault,
            other => other,
        };
        Call {
            given: up_to(self.given, came),
            reader_fails: true,
            responses,
            ending,
            ..self
        }
    }

    /// Returns this call with a writer that takes `limit` bytes: only that part of a longer output
    /// is written.
    fn with_full_writer(self, limit: usize) -> Call<'a> {
        let ending = match self.ending {
            Ending::Counted(_) if limit < self.responses.len() => Ending::WriteFault,
            other => other,
        };
        Call {
            limit,
            responses: up_to(self.responses, limit),
            ending,
            ..self
        }
    }
}

/// Returns after how many bytes a stream stops, if it does.
fn bytes_before(stops: Place, place: usize) -> Option<usize> {
    match stops {
        Place::Nowhere => None,
        Place::After(count) => Some(count),
        Place::Anywhere => Some(place),
    }
}

/// Returns the last line that the first call of a run has run, or was running, if a stream stops.
fn stopped_at(run: &Run, place: usize) -> Option<Mark> {
    if let Some(came) = bytes_before(run.options.reader_fails, place) {
        return Some(run.script.ended_by(came));
    }
    let limit = bytes_before(run.options.writer_stops, place)?;
    Some(run.script.printed_at(limit))
}

/// Returns the number of places that a run is tried with, one after another.
pub fn place_count(run: &Run) -> usize {
    if run.options.reader_fails == Place::Anywhere {
        run.script.bytes.len().saturating_add(1)
    } else if run.options.writer_stops == Place::Anywhere {
        run.script.responses.len()
    } else {
        1
    }
}

/// Returns the first bytes, or all if there are no more.
fn up_to(bytes: &[u8], count: usize) -> &[u8] {
    bytes.get(..count).unwrap_or(bytes)
}

/// Returns the bytes after the first ones, or none if there are no more.
fn from(bytes: &[u8], count: usize) -> &[u8] {
    bytes.get(count..).unwrap_or(&[])
}

/// Returns how a script ends whose reader and writer do not fail.
fn ending_of(options: &RunOptions, responses: &[u8]) -> Ending {
    if options.arguments.is_some() {
        Ending::Status(options.status)
    } else if options.is_past_limits {
        Ending::ReadFault
    } else {
        Ending::Counted(counts_of(responses))
    }
}

/// Returns how many lines are accepted and refused in this output: a status line begins with two
/// digits and a comma, and accepts if they are 00 or 01.
fn counts_of(responses: &[u8]) -> Outcome {
    let mut outcome = Outcome {
        accepted: 0,
        refused: 0,
    };
    for line in responses.split(|byte| *byte == b'\n') {
        match line {
            [b'0', b'0' | b'1', b',', ..] => {
                outcome.accepted = outcome.accepted.saturating_add(1);
            }
            [b'0'..=b'9', b'0'..=b'9', b',', ..] => {
                outcome.refused = outcome.refused.saturating_add(1);
            }
            _ => {}
        }
    }
    outcome
}
