//! Scripts with their expected output.

use std::alloc::{AllocError, Global};

/// What a line of a case says of a script.
#[derive(Drop)]
pub enum Said {
    /// A line, without its line feed.
    Line(String),
    /// A line that is repeated this many times; in the first `#` is replaced by 1, in the next by
    /// 2, and so on.
    Numbered(usize, String),
    /// Bytes, which need not be a whole line.
    Bytes(Vec<u8>),
}

/// A part of a script, and its output.
#[derive(Drop)]
pub struct Exchange {
    pub said: Said,
    pub response: String,
}

/// Where a line of a script ends, and where its output does.
#[derive(Clone, Copy, Debug, PartialEq, Eq)]
pub struct Mark {
    pub script: usize,
    pub responses: usize,
    /// Whether the line is a `quit` that was accepted.
    pub closes: bool,
}

impl Mark {
    /// The mark before the first line.
    pub const START: Mark = Mark {
        script: 0,
        responses: 0,
        closes: false,
    };
}

/// A script, and its whole output.
#[derive(Drop)]
pub struct Script {
    alloc: Global,
    pub bytes: Vec<u8>,
    pub responses: String,
    pub marks: Vec<Mark>,
}

impl Script {
    pub fn new(alloc: Global) -> Script {
        Script {
            alloc,
            bytes: Vec::new(alloc),
            responses: String::new(alloc),
            marks: Vec::new(alloc),
        }
    }

    /// Adds a part with its output.
    pub fn add(&mut self, exchange: &Exchange) -> Result<(), AllocError> {
        let response = exchange.response.as_str();
        match &exchange.said {
            Said::Line(line) => self.add_line(line.as_str(), response),
            Said::Numbered(times, line) => self.add_numbered(*times, line.as_str(), response),
            Said::Bytes(bytes) => {
                self.bytes.extend_from_slice(bytes.as_slice())?;
                self.add_response("", response)
            }
        }
    }

    /// Returns the last line that is ended in the first `came` bytes of the script.
    pub fn ended_by(&self, came: usize) -> Mark {
        let ended = self.marks.iter().filter(|mark| mark.script <= came);
        ended.last().copied().unwrap_or(Mark::START)
    }

    /// Returns the line to whose output the byte after the first `limit` bytes belongs.
    pub fn printed_at(&self, limit: usize) -> Mark {
        let mut responded = self.marks.iter().filter(|mark| mark.responses > limit);
        responded.next().copied().unwrap_or(Mark::START)
    }

    /// Whether a `quit` was accepted up to the end of this line.
    pub fn is_closed(&self, mark: Mark) -> bool {
        self.marks
            .iter()
            .any(|line| line.closes && line.script <= mark.script)
    }

    fn add_line(&mut self, line: &str, response: &str) -> Result<(), AllocError> {
        self.bytes.extend_from_slice(line.as_bytes())?;
        self.bytes.push(b'\n')?;
        self.add_response(line, response)
    }

    fn add_numbered(&mut self, times: usize, line: &str, response: &str) -> Result<(), AllocError> {
        for number in 1..=times {
            let numbered = with_number(self.alloc, line, number)?;
            self.add_line(numbered.as_str(), response)?;
        }
        Ok(())
    }

    fn add_response(&mut self, line: &str, response: &str) -> Result<(), AllocError> {
        self.responses.push_str(response)?;
        self.marks.push(Mark {
            script: self.bytes.len(),
            responses: self.responses.len(),
            closes: line == "quit" && response.starts_with("00,"),
        })?;
        Ok(())
    }
}

/// Returns the line with each `#` replaced by a number.
fn with_number(alloc: Global, line: &str, number: usize) -> Result<String, AllocError> {
    let mut numbered = String::new(alloc);
    for part in line.split_inclusive('#') {
        match part.strip_suffix('#') {
            Some(before) => write!(numbered, "{before}{number}")?,
            None => numbered.push_str(part)?,
        }
    }
    Ok(numbered)
}
