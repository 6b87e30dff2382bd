//! Reading a case.

use crate::actions::action_of;
use crate::case::{Action, Run, RunOptions, Step};
use crate::fault::CaseFault;
use crate::notation::{bytes_of, number_of};
use crate::run_options::take_option;
use crate::script::{Exchange, Said, Script};
use std::alloc::AllocError;
use std::mem;
use std::rt::Files;

/// A line of a case that cannot be read.
#[derive(Drop)]
pub struct Unread {
    pub line: usize,
    pub fault: CaseFault,
}

impl From<AllocError> for Unread {
    fn from(_error: AllocError) -> Unread {
        Unread {
            line: 0,
            fault: CaseFault::Memory,
        }
    }
}

/// Returns the steps of a case.
pub fn steps_of<R: Files + AllocGlobal>(rt: &R, text: &str) -> Result<Vec<Step>, Unread> {
    let mut reading = Reading::new(rt);
    match reading.take_all(text) {
        Ok(()) => Ok(reading.steps),
        Err(fault) => Err(Unread {
            line: reading.line,
            fault,
        }),
    }
}

/// A case, read up to some line.
#[derive(Drop)]
struct Reading<'r, R> {
    rt: &'r R,
    line: usize,
    steps: Vec<Step>,
    /// How the next script is run.
    options: RunOptions,
    /// The lines of the script that is being read, and where it begins.
    exchanges: Vec<Exchange>,
    begins: usize,
}

impl<'r, R: Files + AllocGlobal> Reading<'r, R> {
    fn new(rt: &'r R) -> Reading<'r, R> {
        Reading {
            rt,
            line: 0,
            steps: Vec::new(rt.alloc()),
            options: RunOptions::plain(rt.alloc()),
            exchanges: Vec::new(rt.alloc()),
            begins: 0,
        }
    }

    /// Takes all lines of a case.
    fn take_all(&mut self, text: &str) -> Result<(), CaseFault> {
        for line in text.lines() {
            self.take(line)?;
        }
        self.end_script()
    }

    /// Takes a line: of a script if it begins with `>`, of its output if a script was begun, and
    /// else a step.
    fn take(&mut self, line: &str) -> Result<(), CaseFault> {
        self.line = self.line.saturating_add(1);
        if line.is_empty() {
            return self.end_script();
        }
        if let Some(said) = line.strip_prefix('>') {
            return self.take_said(said);
        }
        match self.exchanges.last_mut() {
            Some(exchange) => {
                exchange.response.push_str(printed_line(line))?;
                exchange.response.push_str("\n")?;
                Ok(())
            }
            None => self.take_step(line),
        }
    }

    fn take_said(&mut self, text: &str) -> Result<(), CaseFault> {
        if self.exchanges.is_empty() {
            self.begins = self.line;
        }
        let exchange = Exchange {
            said: said_of(self.rt, text)?,
            response: String::new(self.rt.alloc()),
        };
        self.exchanges.push(exchange)?;
        Ok(())
    }

    /// Takes a line that is not of a script: a remark, how the next script is run, or a step.
    fn take_step(&mut self, line: &str) -> Result<(), CaseFault> {
        if line.starts_with('#') {
            return Ok(());
        }
        let (word, rest) = line.split_once(' ').unwrap_or((line, ""));
        if take_option(self.rt.alloc(), &mut self.options, word, rest)? {
            return Ok(());
        }
        let action = action_of(self.rt, word, rest)?;
        self.steps.push(Step {
            line: self.line,
            action,
        })?;
        Ok(())
    }

    /// Ends the script, if one was begun, with the run of it.
    fn end_script(&mut self) -> Result<(), CaseFault> {
        if self.exchanges.is_empty() {
            return Ok(());
        }
        let mut script = Script::new(self.rt.alloc());
        for exchange in self.exchanges.iter() {
            script.add(exchange)?;
        }
        self.exchanges.clear();
        let options = mem::replace(&mut self.options, RunOptions::plain(self.rt.alloc()));
        self.steps.push(Step {
            line: self.begins,
            action: Action::Run {
                run: Run { options, script },
            },
        })?;
        Ok(())
    }
}

/// Returns the printed line that a line of an output means: `|` is an empty one.
fn printed_line(line: &str) -> &str {
    match line {
        "|" => "",
        _ => line,
    }
}

/// Returns what a line that begins with `>` says, from the text after it: ` LINE`, `> BYTES` or
/// `144 LINE`.
fn said_of<R: Files + AllocGlobal>(rt: &R, text: &str) -> Result<Said, CaseFault> {
    if text.is_empty() {
        return Ok(Said::Line(String::new(rt.alloc())));
    }
    if let Some(line) = text.strip_prefix(' ') {
        return Ok(Said::Line(String::from_str(rt.alloc(), line)?));
    }
    if let Some(bytes) = text.strip_prefix('>') {
        return Ok(Said::Bytes(bytes_of(rt, bytes)?));
    }
    match text.split_once(' ') {
        Some((times, line)) => Ok(Said::Numbered(
            number_of(rt.alloc(), times)?,
            String::from_str(rt.alloc(), line)?,
        )),
        None => Err(CaseFault::unreadable(rt.alloc(), text)),
    }
}
